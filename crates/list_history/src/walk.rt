ghost use Rattle.std.specs.Prelude.{◌≡◌, ◌↔◌, ◌<◌, ◌+◌, [], IfSome, IfNone, Some, length, slice_get};
ghost use Rattle.grid.specs.Samples.{count_of};
ghost use Rattle.shade.specs.declared.placed.Placed.{Placed};
ghost use Rattle.history.specs.History.{IsBehindUncovered, IsCoveredBy, AreUncovered, moved_behind};
ghost use Rattle.draw_list.specs.Picture.{IsEnd};
ghost use Rattle.list_history.specs.Walk.{IsPlaceOfList, IsNextOfList, IsNextCoveredOfList, history_start};

use crate::list_event::ListEvent;
use draw_list::DrawList;
use history::{SampleHistory, SamplePlace};
use shade::{Placed, Sample};
use std::marker::Model;

/// The events of a list's triangles at one sample, one after another in draw order, from the clear colour and depth on.
#[derive(Debug, Drop)]
pub struct ListHistory<'a> {
    list: &'a DrawList,
    history: SampleHistory<'a, DrawList>,
}

impl<'a> Model for ListHistory<'a> {
    ghost use Rattle.list_history.specs.Walk.{ListPlace, IsPlaceOfList};

    ghost Value = { ListPlace };

    ghost view = { λ h. record { scene = h.list.now; history = h.history } };

    ghost invariant = { λ h. IsPlaceOfList h.list.now h.history };
}

impl<'a> ListHistory<'a> {
    /// The history of sample `s` of the pixel in column `px` and row `py` of the list's picture.
    pub fn new(list: &'a DrawList, px: u32, py: u32, s: u32) -> ListHistory<'a>
        requires column { px < 4096 }
        requires row { py < 4096 }
        requires sample { s < count_of list.now.count }
        ensures { result ≡ history_start list.now px py s }
    {
        let place = SamplePlace {
            count: list.count(),
            px,
            py,
            s,
        };
        let history = SampleHistory::new(list, place, list.clear());
        ListHistory { list, history }
    }

    /// Returns the event of the next triangle. Returns `None` after the last one: the stored sample is then that of the
    /// picture.
    pub fn next(&mut self) -> Option<ListEvent>
        ensures event { IfSome result (λ e. IsNextOfList self.old e self.new) }
        ensures none { IfNone result (self.old.history.left ≡ []) }
        ensures end { IfNone result (IsEnd self.old.scene self.old.history.i self.old.history.j self.old.history.s
            self.old.history.stored) }
        ensures unchanged { IfNone result (self.new ≡ self.old) }
    {
        let triangle = self.history.coming()?;
        Some(self.take(&triangle))
    }

    /// Returns the event of the next triangle that covers the sample. The triangles before it, which do not cover the
    /// sample, are passed over. Returns `None` if no triangle to come covers the sample, which then stores what the
    /// picture has.
    pub fn next_covered(&mut self) -> Option<ListEvent>
        ensures event { IfSome result (λ e. IsNextCoveredOfList self.old e self.new) }
        ensures end { IfNone result (IsEnd self.old.scene self.old.history.i self.old.history.j self.old.history.s
            self.old.history.stored) }
        ensures none { IfNone result (AreUncovered self.old.history self.old.history.left) }
        ensures past { IfNone result (self.new ≡
            record {
              scene = self.old.scene;
              history = moved_behind self.old.history self.old.history.left []
                  self.old.history.stored;
            }) }
    {
        let triangle = pass_uncovered(self.list, &mut self.history)?;
        Some(self.take(&triangle))
    }

    /// Returns the event of the next triangle, which is this one.
    fn take(&mut self, triangle: &Placed) -> ListEvent
        requires { slice_get self.old.history.left 0 ≡ Some triangle.now }
        ensures { IsNextOfList self.old result self.new }
    {
        let number = self.history.number();
        ListEvent {
            number,
            place: self.list.place(number),
            write: triangle.state.merge.write,
            depth_write: triangle.state.merge.depth_write,
            event: self.history.take(triangle),
        }
    }

    /// The sample after all triangles.
    pub fn end(mut self) -> Sample
        ensures { IsEnd self.entry.scene self.entry.history.i self.entry.history.j self.entry.history.s result }
    {
        while self.next_covered().is_some() {}
        self.stored()
    }

    /// The number of the next triangle in draw order, or how many there are.
    pub fn number(&self) -> usize
        ensures value { result ≡ self.now.history.number }
        ensures list { IsPlaceOfList self.now.scene self.now.history }
    {
        self.history.number()
    }

    /// The sample that is stored before the next triangle.
    pub fn stored(&self) -> Sample
        ensures { result ≡ self.now.history.stored }
    {
        self.history.stored()
    }
}

/// Passes over the triangles that do not cover the sample, up to the first that does, and returns that one.
fn pass_uncovered(list: &DrawList, history: &mut SampleHistory<'_, DrawList>) -> Option<Placed>
    requires { IsPlaceOfList list.now history.old }
    ensures past { IsBehindUncovered history.old history.new }
    ensures some { IfSome result (λ t. (slice_get history.new.left 0 ≡ Some t) × IsCoveredBy history.new t) }
    ensures none { IfNone result (history.new.left ≡ []) }
    ensures end { IfNone result (IsEnd list.now history.old.i history.old.j history.old.s history.old.stored) }
{
    while history.number() < list.triangles() {
        if let Some(triangle) = coming_if_covered(list, history) {
            return Some(triangle);
        }
        history.pass();
    }
    None
}

/// The next triangle, if it covers the sample. Few triangles have the sample's row, and those that do not are seen by
/// their rows.
fn coming_if_covered(list: &DrawList, history: &SampleHistory<'_, DrawList>) -> Option<Placed>
    requires list { IsPlaceOfList list.now history.now }
    requires some { history.now.number < length list.now.triangles }
    ensures some { IfSome result (λ t. (slice_get history.now.left 0 ≡ Some t) × IsCoveredBy history.now t) }
    ensures none { IfNone result ((t : Placed) × (slice_get history.now.left 0 ≡ Some t) ×
        (¬ IsCoveredBy history.now t)) }
{
    let rows = list.rows(history.number());
    if history.row() < u32::from(rows.first) {
        return None;
    }
    if u32::from(rows.end) <= history.row() {
        return None;
    }
    let triangle = history.coming()?;
    if history.is_covered_by(&triangle) {
        Some(triangle)
    } else {
        None
    }
}
