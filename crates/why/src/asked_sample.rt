//! The history of one sample, as text.
ghost use Rattle.std.specs.Prelude.{◌<◌, IfOk};
ghost use Rattle.grid.specs.Samples.{count_of};
ghost use Rattle.draw_list.specs.Picture.{IsEnd};
ghost use Rattle.why.specs.Report.{IsSameSample};

use crate::arguments::{Asked, Form};
use crate::{json, table};
use draw_list::DrawList;
use grid::sample_at;
use list_history::{ListEvent, ListHistory};
use shade::Sample;
use std::alloc::AllocError;
use std::fmt::Write as _;

/// Sample `s` of the pixel that is asked for.
#[derive(Clone, Copy)]
pub(crate) struct AskedSample<'a> {
    pub(crate) list: &'a DrawList,
    pub(crate) asked: &'a Asked,
    pub(crate) s: u32,
    pub ghost is_column: { asked.now.x < 4096 },
    pub ghost is_row: { asked.now.y < 4096 },
    pub ghost is_sample: { s < count_of list.now.count },
}

/// Returns the history's next event: that of the next triangle, or of the next one that covers the sample.
fn next_event(history: &mut ListHistory<'_>, all: bool) -> Option<ListEvent>
    ensures { IsSameSample history.old history.new }
{
    if all {
        history.next()
    } else {
        history.next_covered()
    }
}

impl AskedSample<'_> {
    /// Appends the history of the sample, if it is asked for. Returns the sample after all triangles.
    pub(crate) fn push(&self, out: &mut String) -> Result<Sample, AllocError>
        ensures { IfOk result (IsEnd self.now.list.now self.now.asked.now.x self.now.asked.now.y self.now.s) }
    {
        if let Some(only) = self.asked.sample {
            if only != self.s {
                return Ok(ListHistory::new(self.list, self.asked.x, self.asked.y, self.s).end());
            }
        }
        self.push_beginning(out)?;
        let end = self.push_events(out)?;
        push_end(self.asked.form, &end, out)?;
        Ok(end)
    }

    /// Appends what stands before the events: where the sample lies, and what it stores at first.
    fn push_beginning(&self, out: &mut String) -> Result<(), AllocError> {
        let (list, s) = (self.list, self.s);
        let p = sample_at(self.asked.x, self.asked.y, s, list.count());
        let (x, y) = (p.x(), p.y());
        match self.asked.form {
            Form::Json => {
                if s > 0 && self.asked.sample.is_none() {
                    out.push_str(",")?;
                }
                write!(out, "{{\"sample\":{s},\"position\":[{x},{y}],\"begin\":")?;
                json::push_sample(out, &list.clear())?;
                out.push_str(",\"events\":[")
            }
            Form::Table => {
                write!(out, "sample {s} at ")?;
                table::push_place(out, x, y)?;
                out.push_str("  begins             ")?;
                table::push_sample(out, &list.clear())?;
                out.push_str("\n")
            }
        }
    }

    /// Appends the events. Returns the sample after all triangles.
    fn push_events(&self, out: &mut String) -> Result<Sample, AllocError>
        ensures { IfOk result (IsEnd self.now.list.now self.now.asked.now.x self.now.asked.now.y self.now.s) }
    {
        let mut history = ListHistory::new(self.list, self.asked.x, self.asked.y, self.s);
        let mut separator = "";
        for _turn in 0..self.list.triangles() {
            let Some(event) = next_event(&mut history, self.asked.all) else {
                break;
            };
            match self.asked.form {
                Form::Json => {
                    out.push_str(separator)?;
                    json::push_event(out, &event)?;
                    separator = ",";
                }
                Form::Table => table::push_event(out, &event)?,
            }
        }
        Ok(history.end())
    }
}

/// Appends what stands after the events of a sample: what it stores at the end.
fn push_end(form: Form, end: &Sample, out: &mut String) -> Result<(), AllocError> {
    match form {
        Form::Json => {
            out.push_str("],\"end\":")?;
            json::push_sample(out, end)?;
            out.push_str("}")
        }
        Form::Table => {
            out.push_str("  ends               ")?;
            table::push_sample(out, end)?;
            out.push_str("\n")
        }
    }
}
