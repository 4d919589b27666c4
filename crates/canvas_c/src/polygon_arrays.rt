//! Polygons in the caller's memory.
ghost use Rattle.std.specs.Prelude.{◌≡◌, ◌↔◌, ◌⊎◌, ◌≤◌, length, IfOk, IfErr, IsTrue, pos, negsuc, ◌≤ℤ◌, None as Nothing, Some as Just, ⊤};
ghost use Rattle.checks.specs.Checking.{IsJudged};
ghost use Rattle.fills.specs.Batches.{HasColours};
ghost use Rattle.fills.specs.Painting.{IsOriginInBand};
ghost use Rattle.c_abi.specs.Sizes.{IsOwnSize};
ghost use Rattle.canvas_c.specs.PolygonChecks as said;
ghost use Rattle.canvas_c.specs.Scratch as scratch;

use batch::{BatchCause, BatchDraw};
use c_abi::{Fault, is_own_size};
use canvas::Origin;
use polygons::{ArraysError, Corner, Extent, Polygons, Rule};

/// The bytes of the struct.
const POLYGONS_SIZE: u32 = size_of::<PolygonArrays<'_>>() as u32;

/// Polygons with their colours, as a call from C takes them, laid out as in C: of each array a pointer and then a
/// count.
#[repr(C)]
#[derive(Clone, Copy)]
pub struct PolygonArrays<'a> {
    /// The bytes of this struct, as the caller has it, or 0.
    pub struct_size: u32,
    /// Which points are inside: 0 by the even-odd rule, 1 by the nonzero rule.
    pub fill_rule: u32,
    /// The corners, one ring's after another's.
    pub corners: &'a [Corner],
    /// Of each ring the index behind its last corner.
    pub ring_ends: &'a [u32],
    /// Of each polygon the index behind its last ring.
    pub polygon_ends: &'a [u32],
    /// Red, green, blue and alpha of each polygon.
    pub colours: &'a [[u8; 4]],
    /// The depth of each polygon, or none at all.
    pub depths: &'a [u16],
    /// The box of each polygon's corners, or none at all.
    pub boxes: &'a [Extent],
    /// How they are drawn.
    pub state: BatchDraw,
}

/// How many ids there are: one for each colour of 24 bits.
const ID_COUNT: usize = 16_777_216;

/// The rule of this number.
pub(crate) fn rule_of(number: u32) -> Rule
    ensures { result ≡ scratch.rule_of number }
{
    match number {
        0 => Rule::EvenOdd,
        _ => Rule::NonZero,
    }
}

/// An error of all polygons together.
fn of_all(cause: u32) -> Fault
    ensures { result ≡ said.of_all cause }
{
    Fault {
        cause,
        draw: None,
        element: None,
        value: None,
    }
}

/// An error of a ring, a polygon or a corner.
fn at_element(cause: u32, element: usize) -> Fault
    ensures { result ≡ record { cause = cause; draw = Nothing; element = Just element; value = Nothing } }
{
    Fault {
        cause,
        draw: None,
        element: Some(element),
        value: None,
    }
}

/// What is wrong with arrays of polygons, by its numbers.
pub(crate) fn array_fault(error: ArraysError) -> Fault
    ensures { result ≡ said.array_fault error }
{
    match error {
        // generated: arrays
        ArraysError::OutOfBand(k) => at_element(BatchCause::BadPosition as u32, k),
        ArraysError::CornersLeft => of_all(BatchCause::LeftOver as u32),
        ArraysError::RingsLeft => of_all(BatchCause::LeftOver as u32),
        ArraysError::TooManyCorners => of_all(BatchCause::TooManyCorners as u32),
        ArraysError::Ring(k) => at_element(BatchCause::BadRing as u32, k),
        ArraysError::Polygon(k) => at_element(BatchCause::BadPolygon as u32, k),
        ArraysError::TooFewBoxes => of_all(BatchCause::TooFewBoxes as u32),
        // end of arrays
    }
}

/// Whether there is a colour, or an id of 24 bits, for each of this many polygons.
fn has_colours(ids: Option<u32>, colours: &[[u8; 4]], count: usize) -> bool
    ensures { IsTrue result ↔ HasColours ids colours.now count }
{
    match ids {
        None => count <= colours.len(),
        Some(first) => (first as usize) <= ID_COUNT && count <= ID_COUNT - first as usize,
    }
}

/// What is wrong if there are too few colours or ids.
fn colours_fault(ids: Option<u32>) -> Fault
    ensures { result ≡ said.of_all (said.colours_cause ids) }
{
    match ids {
        None => of_all(BatchCause::TooFewColors as u32),
        Some(_) => of_all(BatchCause::TooManyIds as u32),
    }
}

/// Whether each pixel of a canvas with this origin is in the guard band.
pub(crate) fn is_in_band(origin: &Origin) -> bool
    ensures { IsTrue result ↔ IsOriginInBand origin.now }
{
    is_near(origin.x) && is_near(origin.y)
}

/// Whether a row or a column of a canvas that begins at this pixel is in the guard band.
fn is_near(pixel: i32) -> bool
    ensures { IsTrue result ↔ ((negsuc 32767 ≤ℤ pixel) × (pixel ≤ℤ pos 28672)) }
{
    -32_768 <= pixel && pixel <= 28_672
}

impl<'a> PolygonArrays<'a> {
    /// Whether the struct has the size that this library knows.
    pub(crate) fn has_size(&self) -> bool
        ensures { IsTrue result ↔ IsOwnSize self.now.struct_size 160 }
    {
        is_own_size(self.struct_size, POLYGONS_SIZE)
    }

    /// Checks the rule and the state. Returns the number of the cause of what is not known first.
    fn check_known(&self) -> Result<(), u32>
        ensures { IsJudged (said.known_checks self.now) (λ done. ⊤) result }
    {
        if self.fill_rule > 1 {
            return Err(BatchCause::BadFillRule as u32);
        }
        match self.state.check_state() {
            Ok(()) => Ok(()),
            Err(cause) => Err(cause.number()),
        }
    }

    /// Whether there is a depth for each polygon, or none at all.
    fn has_depths(&self) -> bool
        ensures { IsTrue result ↔ said.HasDepths self.now }
    {
        self.depths.is_empty() || self.polygon_ends.len() <= self.depths.len()
    }

    /// The polygons, or what is wrong first.
    pub(crate) fn polygons(&self, ids: Option<u32>) -> Result<Polygons<'a>, Fault>
        ensures good { IfOk result (λ p. said.AreGood ids self.now × (p.corners.now ≡ self.now.corners.now) ×
            (p.ring_ends.now ≡ self.now.ring_ends.now) × (p.polygon_ends.now ≡ self.now.polygon_ends.now) ×
            (p.boxes.now ≡ self.now.boxes.now)) }
        ensures wrong { IfErr result (λ fault. (¬ said.AreGood ids self.now) ×
            said.IsFirstOfPolygons ids self.now fault) }
    {
        if let Err(cause) = self.check_known() {
            return Err(of_all(cause));
        }
        match Polygons::new(self.corners, self.ring_ends, self.polygon_ends, self.boxes) {
            Err(error) => Err(array_fault(error)),
            Ok(polygons) => {
                if !has_colours(ids, self.colours, self.polygon_ends.len()) {
                    return Err(colours_fault(ids));
                }
                if !self.has_depths() {
                    return Err(of_all(BatchCause::TooFewDepths as u32));
                }
                Ok(polygons)
            }
        }
    }

    /// Whether the scratch memory has this many columns of flags, and by the nonzero rule this many of counters.
    pub(crate) fn has_scratch(
        &self,
        flagged: usize,
        counted: usize,
        flags: usize,
        counters: usize,
    ) -> bool
        ensures { IsTrue result ↔ ((flagged ≤ flags) × ((self.now.fill_rule ≡ 0) ⊎ (counted ≤ counters))) }
    {
        flagged <= flags && (self.fill_rule == 0 || counted <= counters)
    }
}
