//! The history of a pixel's samples, as text.
ghost use Rattle.std.specs.Prelude.{◌≡◌, ◌↔◌, ◌<◌, ◌⊎◌, ℕ, List, string_bytes, IsTrue, IfOk, IfErr, OnOk};
ghost use Rattle.why.specs.Report.{HasAskedSample, IsShownAt};
ghost use Rattle.why.specs.Text.{pixel_text};

use crate::arguments::Asked;
use crate::asked_sample::AskedSample;
use crate::pixel_report::push_pixel;
use draw_list::DrawList;
use shade::{MAX_SAMPLES, resolved_colour};
use std::alloc::{AllocError, Global};

/// Why there is no report.
#[derive(Clone, Copy, Debug, PartialEq, Eq)]
pub enum ReportFault {
    /// The picture has no such pixel, or the pixel no such sample.
    NoSuchSample,
    /// The list has no such triangle.
    NoSuchTriangle,
    /// An allocation failed.
    OutOfMemory,
}

impl From<AllocError> for ReportFault {
    ghost use Rattle.why.specs.declared.text.ReportFault.TheVariants.{OutOfMemory};

    ghost from_gives = { λ _ fault. fault ≡ OutOfMemory };

    fn from(_error: AllocError) -> ReportFault {
        ReportFault::OutOfMemory
    }
}

/// What the picture shows at a pixel.
#[derive(Clone, Copy, Debug, PartialEq, Eq)]
pub struct Pixel {
    /// Red, green and blue, each resolved from the pixel's samples.
    pub colour: [u8; 3],
    /// The depth of the pixel's first sample.
    pub depth: u16,
}

/// Appends the histories of the pixel's samples that are asked for. Returns what the picture shows there.
fn push_samples(list: &DrawList, asked: &Asked, out: &mut String) -> Result<Pixel, AllocError>
    requires column { asked.now.x < 4096 }
    requires row { asked.now.y < 4096 }
    ensures { IfOk result (IsShownAt list.now asked.now.x asked.now.y) }
{
    let count = list.count();
    let mut ends = [list.clear(); MAX_SAMPLES];
    for s in 0..count.count() {
        ends[s as usize] = AskedSample { list, asked, s }.push(out)?;
    }
    Ok(Pixel {
        colour: resolved_colour(&ends, count),
        depth: ends[0].z,
    })
}

/// Whether the picture has the pixel, and the pixel the sample, if one is named.
fn has_sample(list: &DrawList, asked: &Asked) -> bool
    ensures has { IsTrue result ↔ HasAskedSample list.now asked.now }
    ensures screen { IsTrue result → (asked.now.x < 4096) × (asked.now.y < 4096) }
{
    let is_there = match asked.sample {
        Some(s) => s < list.count().count(),
        None => true,
    };
    is_there && asked.x < list.width() && asked.y < list.height()
}

/// The history of the samples of a pixel, or of one of them, as a text in the form that is asked for, and what the
/// picture shows at the pixel. Fails with `NoSuchSample` if and only if the picture has no such pixel, or the pixel no
/// such sample.
pub fn report(alloc: Global, list: &DrawList, asked: &Asked) -> Result<(String, Pixel), ReportFault>
    ensures shown { IfOk result (λ r. IsShownAt list.now asked.now.x asked.now.y r.1) }
    ensures there { OnOk result (HasAskedSample list.now asked.now) }
    // The text has these numbers, and histories of which nothing is said.
    ensures text { IfOk result (λ r. (histories : List ℕ) ×
        (string_bytes r.0 ≡ pixel_text list.now.output asked.now r.1 histories)) }
    ensures faults { IfErr result (λ e. (e ≡ ReportFault.NoSuchSample) ⊎ (e ≡ ReportFault.OutOfMemory)) }
    ensures no_sample { (result ≡ Err ReportFault.NoSuchSample) ↔ ¬ HasAskedSample list.now asked.now }
{
    if !has_sample(list, asked) {
        return Err(ReportFault::NoSuchSample);
    }
    let mut histories = String::new(alloc);
    let pixel = push_samples(list, asked, &mut histories)?;
    let mut text = String::new(alloc);
    push_pixel(list.output(), asked, &pixel, histories.as_str(), &mut text)?;
    Ok((text, pixel))
}
