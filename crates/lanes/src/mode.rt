//! The mode in which samples are drawn, which is chosen once for all of them.
ghost use Rattle.std.specs.Prelude.{◌≡◌, ◌<◌, IsTrue, true, slice_index};
ghost use Rattle.shade.specs.Placed.{channel, rgba_of};
ghost use Rattle.lanes.specs.Mode.{IsDepthBy, IsColourBy, IsAlphaKnown, IsMergeMode, WritesEachColour, WritesColours, WritesNoColour};
ghost use Rattle.lanes.specs.Sources.{IsDepthOf, IsColourOf, IsFlat, NeedsNoDepth};

use crate::sources::{ColourSource, DepthSource};
use gradients::{ColourPlanes, DepthPlane};
use shade::{DepthTest, Equation, KnownEquation, Merge, Placed};

/// How the depth is computed.
#[derive(Clone, Copy, Debug)]
pub(crate) enum DepthMode {
    /// Each depth passes and none is stored, so there is no need of it.
    Unused,
    /// The three vertices have this depth.
    Flat(u16),
    /// By a plane.
    Plane,
}

/// How colour and alpha are computed.
#[derive(Clone, Copy, Debug)]
pub(crate) enum ColourMode {
    /// The three vertices have this in each channel that the draw reads.
    Flat([u8; 4]),
    /// By planes.
    Planes,
}

/// How sixteen samples are merged at once.
#[derive(Clone, Copy, Debug)]
pub(crate) enum DrawMode {
    /// The colour takes the place of the stored one.
    Replace,
    /// The colour is laid over the stored one.
    Over,
    /// The colour takes the place of the stored one, and so does alpha.
    ReplaceWithAlpha,
    /// The colour is laid over the stored one, and so is alpha.
    OverWithAlpha,
    /// The colour is blended with the stored one by any equation.
    Blend,
    /// Nothing but depths is written.
    Depths,
    /// The merge leaves a colour channel.
    Otherwise(KnownEquation),
}

/// The depth of a triangle.
#[derive(Debug, Drop)]
pub(crate) struct Depth {
    pub(crate) mode: DepthMode,
    /// The plane, if the mode needs it.
    pub(crate) plane: DepthPlane,
}

/// The colour and the alpha of a triangle.
#[derive(Debug, Drop)]
pub(crate) struct Colour {
    pub(crate) mode: ColourMode,
    /// The planes, if the mode needs them.
    pub(crate) planes: ColourPlanes,
}

/// Whether an equation of alpha is that of `Blend::OVER`, or of `Blend::NONE`.
#[inline(always)]
fn is_alpha_known(over: bool, equation: &Equation) -> bool
    ensures { IsTrue result → IsAlphaKnown over true equation.now }
{
    if over {
        *equation == Equation::PREMULTIPLIED_OVER
    } else {
        *equation == Equation::REPLACE
    }
}

/// Whether a merge writes red, green and blue.
#[inline(always)]
fn writes_all(merge: &Merge) -> bool
    ensures { IsTrue result → WritesEachColour merge.now }
{
    let [red, green, blue] = merge.write;
    red && green && blue
}

/// Whether a merge writes neither red, green and blue nor alpha.
#[inline(always)]
fn writes_no_colour(merge: &Merge) -> bool
    ensures { IsTrue result → WritesNoColour merge.now }
{
    let [red, green, blue] = merge.write;
    !red && !green && !blue && !merge.blend.write_alpha
}

/// Whether a merge writes red, green and blue, and alpha exactly if it is asked for, then by a known equation.
#[inline(always)]
fn writes_colours(merge: &Merge, over: bool, alpha: bool) -> bool
    ensures { IsTrue result → WritesColours over alpha merge.now }
{
    writes_all(merge)
        && merge.blend.write_alpha == alpha
        && (!alpha || is_alpha_known(over, &merge.blend.alpha))
}

/// Whether the depth has no part in a merge: each depth passes, and none is stored.
#[inline(always)]
pub(crate) fn needs_no_depth(merge: &Merge) -> bool
    ensures { IsTrue result → NeedsNoDepth merge.now }
{
    merge.test == DepthTest::Always && !merge.depth_write
}

impl DrawMode {
    /// The mode for a merge.
    #[inline(always)]
    pub(crate) fn of(merge: &Merge) -> DrawMode
        ensures { IsMergeMode merge.now result }
    {
        let known = KnownEquation::of(&merge.blend.colour);
        match known {
            KnownEquation::Replace if writes_colours(merge, false, false) => DrawMode::Replace,
            KnownEquation::Over if writes_colours(merge, true, false) => DrawMode::Over,
            KnownEquation::Replace if writes_colours(merge, false, true) =>
                DrawMode::ReplaceWithAlpha,
            KnownEquation::Over if writes_colours(merge, true, true) => DrawMode::OverWithAlpha,
            KnownEquation::Replace if writes_no_colour(merge) => DrawMode::Depths,
            _ if writes_all(merge) => DrawMode::Blend,
            _ => DrawMode::Otherwise(known),
        }
    }
}

impl DepthMode {
    ghost use Rattle.lanes.specs.Mode.{IsDepthMode, IsByPlane};

    /// The mode of a triangle's depth.
    pub(crate) fn of(placed: &Placed) -> DepthMode
        ensures { IsDepthMode placed.now result }
    {
        if needs_no_depth(&placed.state.merge) {
            return DepthMode::Unused;
        }
        let [a, b, c] = placed.z;
        if a == b && b == c {
            return DepthMode::Flat(a);
        }
        DepthMode::Plane
    }

    /// Whether there is need of a plane.
    #[inline(always)]
    pub(crate) fn is_by_plane(self) -> bool
        ensures { IsByPlane self → IsTrue result }
    {
        matches!(&self, DepthMode::Plane)
    }
}

impl Depth {
    /// The depth of this triangle.
    #[inline(always)]
    pub(crate) fn source<'a>(&'a self, placed: &'a Placed) -> DepthSource<'a>
        requires { IsDepthBy placed.now self.now }
        ensures { IsDepthOf placed.now result }
    {
        match self.mode {
            DepthMode::Unused => DepthSource::Unused,
            DepthMode::Flat(z) => DepthSource::Flat(z),
            DepthMode::Plane => DepthSource::Plane(placed, &self.plane),
        }
    }
}

/// Whether the three vertices have the same red, green, blue or alpha, which are the channels 0 to 3. It is true if the
/// channel is not read.
#[inline(always)]
fn is_flat_if(read: bool, placed: &Placed, number: usize) -> bool
    requires { number < 4 }
    ensures { IsTrue result → IsTrue read
        → IsFlat (channel placed.now number) (slice_index (rgba_of placed.now 0) number) }
{
    let [a, b, c] = placed.channel(number);
    !read || (a == b && b == c)
}

impl ColourMode {
    ghost use Rattle.lanes.specs.Mode.{IsColourMode, IsByPlanes};

    /// The mode of a triangle's colour.
    pub(crate) fn of(placed: &Placed) -> ColourMode
        ensures { IsColourMode placed.now result }
    {
        let merge = placed.state.merge;
        if is_flat_if(merge.write[0], placed, 0)
            && is_flat_if(merge.write[1], placed, 1)
            && is_flat_if(merge.write[2], placed, 2)
            && is_flat_if(merge.reads_alpha(), placed, 3)
        {
            return ColourMode::Flat(placed.rgba[0]);
        }
        ColourMode::Planes
    }

    /// Whether there is need of planes.
    #[inline(always)]
    pub(crate) fn is_by_planes(self) -> bool
        ensures { IsByPlanes self → IsTrue result }
    {
        matches!(&self, ColourMode::Planes)
    }
}

impl Colour {
    /// The colour of this triangle.
    #[inline(always)]
    pub(crate) fn source<'a>(&'a self, placed: &'a Placed) -> ColourSource<'a>
        requires { IsColourBy placed.now self.now }
        ensures { IsColourOf placed.now result }
    {
        match self.mode {
            ColourMode::Flat(rgba) => ColourSource::Flat(rgba),
            ColourMode::Planes => ColourSource::Planes(placed, &self.planes),
        }
    }
}
