ghost use Rattle.std.specs.Prelude.{◌≡◌, ◌↔◌, ◌<◌, IsTrue};
ghost use Rattle.shade.specs.declared.operands.Channel.TheVariants.{Colour};
ghost use Rattle.shade.specs.Blend.{IsBlended};
ghost use Rattle.shade.specs.Depth.{Passes};
ghost use Rattle.shade.specs.Merging.{IsChannelMerged, IsApplied};
ghost use Rattle.shade.specs.Canvas.{IsAlphaMerged, IsCanvasMerged, IsCanvasApplied};

use crate::blend::over;
use crate::depth::DepthTest;
use crate::equation::Equation;
use crate::known::KnownEquation;
use crate::operands::{Channel, Operands};
use crate::sample::{CanvasSample, Merge, Sample, Shaded};

/// Whether the new depth passes the test against the stored one: the new depth stands on the left of the comparison.
pub fn passes(test: DepthTest, new: u16, old: u16) -> bool
    ensures { IsTrue result ↔ Passes test new old }
{
    test.holds(new, old)
}

/// The stored sample after a triangle's sample. If the depth test fails, nothing changes, neither colour nor depth. If it
/// passes, each channel of the write mask takes what the blend equation makes of the new and the stored one, and the depth
/// is stored if depth writes are on (Direct3D 11, output-merger stage).
pub fn apply(m: &Merge, new: &Shaded, old: Sample) -> Sample
    ensures { IsApplied m.now new.now old result }
{
    apply_on_canvas(m, new, old.with_alpha(255)).colour_and_depth()
}

/// The stored sample of a canvas, which stores alpha, after a triangle's sample. Every equation reads the alpha that was
/// stored before.
pub fn apply_on_canvas(m: &Merge, new: &Shaded, old: CanvasSample) -> CanvasSample
    ensures { IsCanvasApplied m.now new.now old result }
{
    if !passes(m.test, new.z, old.z) {
        return old;
    }
    merged(m, new, old)
}

/// The stored sample after a triangle's sample that passed the depth test. A channel of the new sample is read only if
/// it is written, and alpha only if it is written or the new colour is blended by it.
pub(crate) fn merged(m: &Merge, new: &Shaded, old: CanvasSample) -> CanvasSample
    ensures { IsCanvasMerged m.now new.now old result }
{
    CanvasSample {
        r: drawn(m, 0, new.r, new.a, old.alpha, old.r),
        g: drawn(m, 1, new.g, new.a, old.alpha, old.g),
        b: drawn(m, 2, new.b, new.a, old.alpha, old.b),
        alpha: drawn_alpha(m, new.a, old.alpha),
        z: if m.depth_write { new.z } else { old.z },
    }
}

/// Red, green or blue after a triangle's sample that passed the depth test.
fn drawn(m: &Merge, number: usize, source: u8, source_alpha: u8, stored_alpha: u8, stored: u8) -> u8
    requires { number < 3 }
    ensures { IsChannelMerged m.now number source source_alpha stored_alpha stored result }
{
    if !m.write[number] {
        return stored;
    }
    let operands = Operands {
        source,
        source_alpha,
        stored,
        stored_alpha,
        constant: m.blend.constant[number],
    };
    coloured(&m.blend.colour, operands)
}

/// Stored alpha after a triangle's sample that passed the depth test.
fn drawn_alpha(m: &Merge, source: u8, stored: u8) -> u8
    ensures { IsAlphaMerged m.now source stored result }
{
    if !m.blend.write_alpha {
        return stored;
    }
    let operands = Operands {
        source,
        source_alpha: source,
        stored,
        stored_alpha: stored,
        constant: m.blend.constant[3],
    };
    m.blend.alpha.blended(Channel::Alpha, &operands)
}

/// A colour channel by its blend equation. The two equations of draw lists are computed without factors.
#[inline(always)]
fn coloured(equation: &Equation, operands: Operands) -> u8
    ensures { IsBlended equation.now Colour operands result }
{
    match KnownEquation::of(equation) {
        KnownEquation::Replace => operands.source,
        KnownEquation::Over => over(operands.source, operands.source_alpha, operands.stored),
        KnownEquation::Other => equation.blended(Channel::Colour, &operands),
    }
}
