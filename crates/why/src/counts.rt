//! How many samples a triangle covers, changes and is shown by, as text.
ghost use Rattle.std.specs.Prelude.{◌≡◌, ◌↔◌, ◌⊎◌, ◌++◌, string_bytes, IfOk, IfErr, OnOk};
ghost use Rattle.why.specs.Report.{HasAskedTriangle, AreCountsOfAsked};
ghost use Rattle.why.specs.Text.{place_json, numbers_json, line, counts_text};

use crate::arguments::{AskedTriangle, Form};
use crate::text::ReportFault;
use draw_list::DrawList;
use list_history::{SampleCounts, counts_of, number_of};
use std::alloc::{AllocError, Global};
use std::fmt::Write as _;

/// Appends the place of the triangle: the first members of a JSON text.
fn push_json_place(asked: &AskedTriangle, out: &mut String) -> Result<(), AllocError>
    ensures { OnOk result (string_bytes out.new ≡ string_bytes out.old ++ place_json asked.now) }
{
    let (draw, triangle) = (asked.place.draw, asked.place.triangle);
    write!(out, "{{\"draw\":{draw},\"triangle\":{triangle}")
}

/// Appends the counts: the last members of a JSON text.
fn push_json_counts(counts: &SampleCounts, out: &mut String) -> Result<(), AllocError>
    ensures { OnOk result (string_bytes out.new ≡ string_bytes out.old ++ numbers_json counts.now) }
{
    let (covered, changed, shown) = (counts.covered, counts.changed, counts.shown);
    write!(
        out,
        ",\"covered\":{covered},\"changed\":{changed},\"shown\":{shown}}}\n"
    )
}

/// Appends a line of a table: words, a number at the right end of eight characters, and words.
fn push_line(words: &str, number: u32, end: &str, out: &mut String) -> Result<(), AllocError>
    ensures { OnOk result (string_bytes out.new ≡ string_bytes out.old ++ line words.now number end.now) }
{
    write!(out, "{words}{number:>8}{end}")
}

/// Appends the counts in the form that is asked for.
fn push_counts(
    asked: &AskedTriangle,
    counts: &SampleCounts,
    out: &mut String,
) -> Result<(), AllocError>
    ensures { OnOk result (string_bytes out.new ≡ string_bytes out.old ++ counts_text asked.now counts.now) }
{
    let (draw, triangle) = (asked.place.draw, asked.place.triangle);
    match asked.form {
        Form::Json => {
            push_json_place(asked, out)?;
            push_json_counts(counts, out)
        }
        Form::Table => {
            write!(out, "draw {draw} triangle {triangle}\n")?;
            push_line("  covers    ", counts.covered, " samples\n", out)?;
            push_line("  changes   ", counts.changed, " samples\n", out)?;
            push_line("  shown by  ", counts.shown, " samples in the end\n", out)
        }
    }
}

/// How many samples the triangle that is asked for covers, changes and is shown by, as a text in the form that is asked
/// for, and the counts themselves. Fails with `NoSuchTriangle` if and only if the list has no such triangle.
pub fn report_triangle(
    alloc: Global,
    list: &DrawList,
    asked: &AskedTriangle,
) -> Result<(String, SampleCounts), ReportFault>
    ensures counts { IfOk result (λ r. AreCountsOfAsked list.now asked.now r.1) }
    ensures text { IfOk result (λ r. string_bytes r.0 ≡ counts_text asked.now r.1) }
    ensures faults { IfErr result (λ e. (e ≡ ReportFault.NoSuchTriangle) ⊎ (e ≡ ReportFault.OutOfMemory)) }
    ensures no_triangle { (result ≡ Err ReportFault.NoSuchTriangle) ↔ ¬ HasAskedTriangle list.now asked.now }
{
    let Some(number) = number_of(list, asked.place) else {
        return Err(ReportFault::NoSuchTriangle);
    };
    let counts = counts_of(alloc, list, number)?;
    let mut text = String::new(alloc);
    push_counts(asked, &counts, &mut text)?;
    Ok((text, counts))
}
