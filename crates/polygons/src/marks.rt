//! The flags of a word by the nonzero rule.
ghost use Rattle.std.specs.Prelude.{◌≡◌, bit_or};

/// The flags of a word: of a first edge that runs downwards, of a first one that runs upwards, and of counters in use.
#[derive(Clone, Copy, Debug)]
pub(crate) struct Marks {
    pub downs: u64,
    pub ups: u64,
    pub more: u64,
}

impl Marks {
    /// The flags of first edges.
    #[inline(always)]
    pub(crate) fn firsts(&self) -> u64
        ensures { result ≡ bit_or self.now.downs self.now.ups }
    {
        self.downs | self.ups
    }
}
