//! Interpolants that are set up at the first block that needs them.
ghost use Rattle.std.specs.Prelude.{◌≡◌, false};
ghost use Rattle.cover.specs.Rasterized.{IsRasterized};

use gradients::Corrections;
use lanes::Interpolants;
use shade::Placed;

/// The interpolants of one triangle after another, each set up at the first block that is drawn of it.
#[derive(Debug, Drop)]
pub struct LazyInterpolants {
    /// Those of the triangle, if they are set up; else those of any triangle.
    pub(crate) interpolants: Interpolants,
    /// Whether they are set up.
    pub(crate) is_made: bool,
}

impl LazyInterpolants {
    ghost use Rattle.raster.specs.Drawing.{AreOf};

    /// Memory for interpolants, filled with any triangle.
    pub fn none(triangle: &Placed) -> LazyInterpolants {
        LazyInterpolants {
            interpolants: Interpolants::one_by_one(triangle),
            is_made: false,
        }
    }

    /// Goes on to another triangle, whose interpolants are not set up yet.
    #[inline(always)]
    pub(crate) fn forget(&mut self)
        ensures { self.new.is_made ≡ false }
    {
        self.is_made = false;
    }

    /// Sets up the interpolants of the triangle, if they are not yet.
    #[inline(always)]
    pub(crate) fn make_once(&mut self, triangle: &Placed)
        requires drawn { IsRasterized triangle.now.tri triangle.now.state.cull }
        requires made { AreOf self.old triangle.now }
        ensures { self.new.interpolants ≡ triangle.now }
    {
        if !self.is_made {
            self.interpolants.make(triangle);
            self.is_made = true;
        }
    }

    /// Sets them up again, once, if much of the triangle was corrected: with whole values searched for.
    #[inline]
    pub(crate) fn raise_if_asked(&mut self, corrections: &mut Corrections)
        requires { IsRasterized self.old.interpolants.tri self.old.interpolants.state.cull }
        ensures { self.new.interpolants ≡ self.old.interpolants }
    {
        if corrections.ask_for_search() {
            self.interpolants.raise();
        }
    }
}
