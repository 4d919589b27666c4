ghost use Rattle.std.specs.Prelude.{◌↔◌, IsTrue};

/// How a new depth is compared to the stored one, the new one on the left (Direct3D 11, depth comparison functions).
#[derive(Clone, Copy, Debug, PartialEq, Eq)]
pub enum DepthTest {
    Never,
    Less,
    Equal,
    LessEqual,
    Greater,
    NotEqual,
    GreaterEqual,
    Always,
}

impl DepthTest {
    ghost use Rattle.shade.specs.Depth.{Passes};

    /// Whether the new depth passes the test against the stored one.
    pub(crate) fn holds(self, new: u16, old: u16) -> bool
        ensures { IsTrue result ↔ Passes self new old }
    {
        match self {
            DepthTest::Never => false,
            DepthTest::Less => new < old,
            DepthTest::Equal => new == old,
            DepthTest::LessEqual => new <= old,
            DepthTest::Greater => new > old,
            DepthTest::NotEqual => new != old,
            DepthTest::GreaterEqual => new >= old,
            DepthTest::Always => true,
        }
    }
}
