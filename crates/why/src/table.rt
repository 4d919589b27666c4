//! A history as a table that a person reads.
use history::{EdgeAt, EdgeReason, Event, Outcome, Reasons};
use list_history::ListEvent;
use shade::{Sample, Shaded};
use std::alloc::AllocError;
use std::fmt::Write as _;

/// Appends a position in pixels and in 1/256 pixel, and the end of the line. The samples of a pixel lie at whole
/// thousandths.
pub(crate) fn push_place(out: &mut String, x: i32, y: i32) -> Result<(), AllocError> {
    let (column, row) = (x.div_euclid(256), y.div_euclid(256));
    let (right, down) = (
        x.rem_euclid(256) * 1000 / 256,
        y.rem_euclid(256) * 1000 / 256,
    );
    write!(
        out,
        "({column}.{right:03}, {row}.{down:03}), in 1/256 pixel ({x}, {y})\n"
    )
}

/// Appends a stored sample.
pub(crate) fn push_sample(out: &mut String, sample: &Sample) -> Result<(), AllocError> {
    let Sample { r, g, b, z } = *sample;
    write!(out, "({r}, {g}, {b}) depth {z}")
}

/// Appends a fragment.
fn push_fragment(out: &mut String, fragment: &Shaded) -> Result<(), AllocError> {
    let Shaded { r, g, b, a, z } = *fragment;
    write!(out, "fragment ({r}, {g}, {b}) alpha {a} depth {z}")
}

/// Appends an edge at which the sample fails the top-left rule.
fn push_edge(out: &mut String, name: &str, edge: &EdgeAt) -> Result<(), AllocError> {
    let value = edge.value;
    match edge.reason {
        Some(EdgeReason::Outside) => write!(out, "; outside edge {name} ({value})"),
        Some(EdgeReason::OnUncoveredEdge) => {
            write!(out, "; on edge {name}, neither top nor left ({value})")
        }
        None => Ok(()),
    }
}

/// Appends each reason that holds, with the values that decide it.
fn push_reasons(out: &mut String, reasons: &Reasons) -> Result<(), AllocError> {
    if reasons.culled {
        write!(out, "; culled (doubled area {})", reasons.area2)?;
    }
    if reasons.zero_area {
        out.push_str("; zero area")?;
    }
    push_edge(out, "ab", &reasons.ab)?;
    push_edge(out, "bc", &reasons.bc)?;
    push_edge(out, "ca", &reasons.ca)?;
    if reasons.outside_scissor {
        out.push_str("; outside the scissor")?;
    }
    if reasons.masked {
        out.push_str("; masked")?;
    }
    Ok(())
}

/// The letter of what is written, or a dash if it is not.
fn letter_if(is_written: bool, letter: &'static str) -> &'static str {
    if is_written { letter } else { "-" }
}

/// Appends which channels were written, and whether the depth was.
fn push_written(out: &mut String, e: &ListEvent) -> Result<(), AllocError> {
    let [red, green, blue] = e.write;
    let (r, g, b) = (
        letter_if(red, "R"),
        letter_if(green, "G"),
        letter_if(blue, "B"),
    );
    let z = letter_if(e.depth_write, "Z");
    write!(out, "; writes {r}{g}{b}{z}; now ")?;
    push_sample(out, &e.event.after)
}

/// Appends the line of an event.
pub(crate) fn push_event(out: &mut String, e: &ListEvent) -> Result<(), AllocError> {
    let event = &e.event;
    let result = match event.outcome {
        Outcome::Missed => "missed",
        Outcome::DepthFailed => "depth failed",
        Outcome::Drawn => "drawn",
    };
    let (draw, triangle) = (e.place.draw, e.place.triangle);
    write!(out, "  draw {draw:>4} triangle {triangle:>5}  {result:<12}")?;
    if let Some(fragment) = &event.fragment {
        out.push_str("  ")?;
        push_fragment(out, fragment)?;
    }
    push_reasons(out, &event.reasons)?;
    if event.fails_depth {
        write!(out, "; fails the depth test against {}", event.before.z)?;
    }
    if event.outcome == Outcome::Drawn {
        push_written(out, e)?;
    }
    out.push_str("\n")
}
