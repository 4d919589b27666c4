/// How often lanes of a triangle were corrected. Only speed depends on it, so no contract speaks of it.
#[derive(Clone, Copy, Debug)]
pub struct Corrections {
    count: u32,
    searched: bool,
}

/// After this many corrections whole values are searched for.
const MANY: u32 = 2;

impl Corrections {
    /// None so far.
    pub fn none() -> Corrections {
        Corrections {
            count: 0,
            searched: false,
        }
    }

    /// One more.
    pub(crate) fn add(&mut self) {
        self.count = self.count.saturating_add(1);
    }

    /// Whether whole values have to be searched for: once, if there were many corrections.
    pub fn ask_for_search(&mut self) -> bool {
        if self.count < MANY || self.searched {
            return false;
        }
        self.searched = true;
        true
    }
}
