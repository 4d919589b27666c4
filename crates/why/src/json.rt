//! A history as a JSON text.
use crate::words::{named_reasons, result_name};
use history::Event;
use list_history::ListEvent;
use shade::{Sample, Shaded};
use std::alloc::AllocError;
use std::fmt::Write as _;

/// Appends a stored sample.
pub(crate) fn push_sample(out: &mut String, sample: &Sample) -> Result<(), AllocError> {
    let Sample { r, g, b, z } = *sample;
    write!(out, "{{\"color\":[{r},{g},{b}],\"depth\":{z}}}")
}

/// Appends a fragment, or null if there is none.
fn push_fragment(out: &mut String, fragment: &Option<Shaded>) -> Result<(), AllocError> {
    match fragment {
        Some(Shaded { r, g, b, a, z }) => {
            write!(
                out,
                "{{\"color\":[{r},{g},{b}],\"alpha\":{a},\"depth\":{z}}}"
            )
        }
        None => out.push_str("null"),
    }
}

/// Appends the names of the reasons that hold.
fn push_reasons(out: &mut String, event: &Event) -> Result<(), AllocError> {
    let mut separator = "";
    out.push_str("[")?;
    for (name, holds) in named_reasons(event) {
        if holds {
            write!(out, "{separator}\"{name}\"")?;
            separator = ",";
        }
    }
    out.push_str("]")
}

/// Appends an event.
pub(crate) fn push_event(out: &mut String, e: &ListEvent) -> Result<(), AllocError> {
    let (draw, triangle) = (e.place.draw, e.place.triangle);
    let result = result_name(e.event.outcome);
    write!(
        out,
        "{{\"draw\":{draw},\"triangle\":{triangle},\"result\":\"{result}\",\"reasons\":"
    )?;
    push_reasons(out, &e.event)?;
    out.push_str(",\"fragment\":")?;
    push_fragment(out, &e.event.fragment)?;
    out.push_str(",\"before\":")?;
    push_sample(out, &e.event.before)?;
    out.push_str(",\"after\":")?;
    push_sample(out, &e.event.after)?;
    out.push_str("}")
}
