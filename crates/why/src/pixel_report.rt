//! The text of a report of a pixel, around the histories of its samples.
ghost use Rattle.std.specs.Prelude.{◌≡◌, ◌++◌, string_bytes, OnOk};
ghost use Rattle.why.specs.declared.arguments.Form.TheVariants.{Json, Table};
ghost use Rattle.why.specs.Text.{value_json, value_table, pixel_text};

use crate::arguments::{Asked, Form};
use crate::text::Pixel;
use draw_list::Output;
use std::alloc::AllocError;
use std::fmt::Write as _;

/// Appends what the picture shows at the pixel, as a member of a JSON text or as the last line of a table.
fn push_value(form: Form, output: Output, pixel: &Pixel, out: &mut String) -> Result<(), AllocError>
    ensures json { form ≡ Json →
        OnOk result (string_bytes out.new ≡ string_bytes out.old ++ value_json output pixel.now) }
    ensures table { form ≡ Table →
        OnOk result (string_bytes out.new ≡ string_bytes out.old ++ value_table output pixel.now) }
{
    let [r, g, b] = pixel.colour;
    let depth = pixel.depth;
    match (form, output) {
        (Form::Json, Output::Color) => write!(out, "\"color\":[{r},{g},{b}]"),
        (Form::Json, Output::Depth) => write!(out, "\"depth\":{depth}"),
        (Form::Table, Output::Color) => write!(out, "colour ({r}, {g}, {b})\n"),
        (Form::Table, Output::Depth) => write!(out, "depth {depth}\n"),
    }
}

/// Appends the report in the form that is asked for, with these histories of the pixel's samples.
pub(crate) fn push_pixel(
    output: Output,
    asked: &Asked,
    pixel: &Pixel,
    histories: &str,
    out: &mut String,
) -> Result<(), AllocError>
    ensures { OnOk result (string_bytes out.new ≡
        string_bytes out.old ++ pixel_text output asked.now pixel.now histories.now) }
{
    let (x, y) = (asked.x, asked.y);
    match asked.form {
        Form::Json => {
            write!(out, "{{\"x\":{x},\"y\":{y},")?;
            push_value(Form::Json, output, pixel, out)?;
            write!(out, ",\"samples\":[{histories}]}}\n")
        }
        Form::Table => {
            write!(out, "pixel ({x}, {y})\n{histories}")?;
            push_value(Form::Table, output, pixel, out)
        }
    }
}
