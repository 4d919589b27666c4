//! Which numbers the seats of a dealer were given.
ghost use Rattle.std.specs.Prelude.{◌≡◌, ◌<◌, length, slice_index_or};

/// For each seat the numbers that it was given, in their order, and whether it found none left.
#[derive(Drop)]
pub struct Settled {
    /// An entry for each seat, in the order of the seats.
    pub lists: Vec<(Vec<u32>, bool)>,
}

impl Settled {
    /// What seat `s` was given.
    pub fn given(&self, s: u32) -> &[u32]
        requires { s < length self.now.lists.items }
        ensures { (other : _) → result.now ≡ (slice_index_or self.now.lists.items s other).0.items }
    {
        self.lists[s as usize].0.as_slice()
    }

    /// Whether seat `s` found none left.
    pub fn ended(&self, s: u32) -> bool
        requires { s < length self.now.lists.items }
        ensures { (other : _) → result ≡ (slice_index_or self.now.lists.items s other).1 }
    {
        self.lists[s as usize].1
    }
}
