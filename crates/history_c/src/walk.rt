//! The events of a sample, one after another into the caller's array.
ghost use Rattle.std.specs.Prelude.{◌≡◌, ◌<◌, IfSome, IfNone};
ghost use Rattle.grid.specs.Samples.{count_of};
ghost use Rattle.draw_list.specs.Picture.{IsEnd};
ghost use Rattle.list_history.specs.Walk.{history_start};
ghost use Rattle.history_c.specs.Walk.{IsNextAsked, IsNoneToCome, AreEventsWritten};

use crate::event::SampleEvent;
use draw_list::DrawList;
use list_history::{ListEvent, ListHistory};
use shade::Sample;

/// Returns the history's next event: that of the next triangle, or of the next one that covers the sample.
fn next_event(history: &mut ListHistory<'_>, all: bool) -> Option<ListEvent>
    ensures event { IfSome result (λ e. IsNextAsked all history.old e history.new) }
    ensures over { IfNone result (IsNoneToCome all history.old) }
    ensures end { IfNone result (IsEnd history.old.scene history.old.history.i history.old.history.j
        history.old.history.s history.old.history.stored) }
    ensures stored { IfNone result (history.new.history.stored ≡ history.old.history.stored) }
{
    if all {
        history.next()
    } else {
        history.next_covered()
    }
}

/// Writes the events of sample `s` of the pixel in column `px` and row `py` at the beginning of the array, in draw
/// order, as many as it holds. Returns how many there are in all, and the sample after all triangles.
pub fn write_events(
    list: &DrawList,
    px: u32,
    py: u32,
    s: u32,
    all: bool,
    events: &mut [SampleEvent],
) -> (usize, Sample)
    requires column { px < 4096 }
    requires row { py < 4096 }
    requires sample { s < count_of list.now.count }
    ensures written { AreEventsWritten all (history_start list.now px py s) events.old events.new result.0 result.1 }
    ensures end { IsEnd list.now px py s result.1 }
{
    // A list's triangles are few, so that their events can be counted.
    let _most = list.triangles();
    let mut history = ListHistory::new(list, px, py, s);
    let mut count = 0;
    while let Some(event) = next_event(&mut history, all) {
        if count < events.len() {
            events[count] = SampleEvent::of(&event);
        }
        count += 1;
    }
    (count, history.stored())
}
