//! Polygons in a caller's arrays.
ghost use Rattle.std.specs.Prelude.{ℕ, ◌≡◌, ◌↔◌, ◌+◌, ◌-◌, ◌*◌, ◌^◌, ◌<◌, ◌≤◌, List, [], length, map, IfOk, IfErr, IfSome, IsSome, IsTrue};
ghost use Rattle.std.specs.Prelude.{None as Nothing};
ghost use Rattle.std.specs.List.{All};
ghost use Rattle.polygons.specs.Rings.{AreCornersInBand, AreAscendingEnds, IsInClosedExtent, position_of};
ghost use Rattle.polygons.specs.Arrays.{AreAscending, ArePolygons, AreParts, AreLeastBoxesOf, BoxesFit, KeepsBoxesFrom, IsFirstFall, IsFirstOutside, IsWrong};
ghost use Rattle.polygons.specs.Arrays.{begin_of as begin, first_corner as corner_at};
ghost use Rattle.polygons.specs.PolygonRuns.{HoldsPolygons};
ghost use Rattle.polygons.specs.declared.extent.Extent.{Extent as Box};

use crate::corner::Corner;
use crate::extent::{Extent, NOTHING};
use crate::polygon_runs::PolygonRuns;
use crate::rings::Rings;

/// Polygons: corners one ring's after another's, and where each ring and each polygon ends.
#[derive(Clone, Copy, Debug)]
pub struct Polygons<'a> {
    /// The corners.
    pub corners: &'a [Corner],
    /// Of each ring the index behind its last corner.
    pub ring_ends: &'a [u32],
    /// Of each polygon the index behind its last ring.
    pub polygon_ends: &'a [u32],
    /// Of each polygon a box that the caller says to hold its corners, or none at all.
    pub boxes: &'a [Extent],
    /// Runs of the polygons and the box of each, if the caller has no boxes.
    runs: PolygonRuns,
    pub ghost checked: { ArePolygons corners.now ring_ends.now polygon_ends.now boxes.now },
    pub ghost enough: { length boxes.now ≡ 0 → length polygon_ends.now ≤ 64 * runs.length },
    pub ghost held: { length boxes.now ≡ 0 → HoldsPolygons runs corners.now ring_ends.now polygon_ends.now },
}

/// What is wrong with polygons in arrays.
#[derive(Clone, Copy, Debug, PartialEq, Eq)]
pub enum ArraysError {
    /// There are 2^32 corners or more.
    TooManyCorners,
    /// The ring of this index ends before it begins, or behind the last corner.
    Ring(usize),
    /// The last ring ends before the last corner.
    CornersLeft,
    /// The polygon of this index ends before it begins, or behind the last ring.
    Polygon(usize),
    /// The last polygon ends before the last ring.
    RingsLeft,
    /// The corner of this index is outside of the guard band.
    OutOfBand(usize),
    /// There are boxes, but fewer than polygons.
    TooFewBoxes,
}

/// Whether no part ends before the one before it. Nothing is decided for a single one, so that many are compared at
/// once.
fn are_ascending(ends: &[u32]) -> bool
    ensures { IsTrue result ↔ AreAscending ends.now }
{
    let mut falls = false;
    for k in 1..ends.len() {
        falls |= ends[k] < ends[k - 1];
    }
    !falls
}

/// The index of the first part that ends before it begins, or behind the whole, which has `whole` elements.
fn first_fall(ends: &[u32], whole: usize) -> Option<usize>
    ensures some { IfSome result (λ k. IsFirstFall ends.now whole k) }
    ensures none { result ≡ Nothing → AreAscendingEnds 0 ends.now whole }
{
    if begin_of(ends, ends.len()) as usize <= whole && are_ascending(ends) {
        return None;
    }
    let mut begin = 0;
    for (k, end) in ends.iter().enumerate() {
        if *end < begin || whole < *end as usize {
            return Some(k);
        }
        begin = *end;
    }
    None
}

/// Where a part begins: where the one before it ends.
fn begin_of(ends: &[u32], k: usize) -> u32
    requires { k < length ends.now + 1 }
    ensures { result ≡ begin ends.now k }
{
    if k == 0 { 0 } else { ends[k - 1] }
}

/// The first corner of the polygon of this number, or the index behind the last corner of the last one.
pub(crate) fn first_corner(ring_ends: &[u32], polygon_ends: &[u32], number: usize) -> usize
    requires polygons { AreParts polygon_ends.now (length ring_ends.now) }
    requires number { number < length polygon_ends.now + 1 }
    ensures { result ≡ corner_at ring_ends.now polygon_ends.now number }
{
    begin_of(ring_ends, begin_of(polygon_ends, number) as usize) as usize
}

/// The index of the first corner that is outside of the guard band. If the box, which holds all corners, is inside, none
/// is looked at.
fn first_outside(corners: &[Corner], extent: &Extent) -> Option<usize>
    requires { All (IsInClosedExtent extent.now) (map position_of corners.now) }
    ensures some { IfSome result (λ k. IsFirstOutside corners.now k) }
    ensures none { result ≡ Nothing → AreCornersInBand corners.now }
{
    if extent.is_in_band() {
        return None;
    }
    for (k, corner) in corners.iter().enumerate() {
        if corner.point().is_none() {
            return Some(k);
        }
    }
    None
}

/// Checks where rings and polygons end. No corner is looked at.
fn check_ends(
    corners: &[Corner],
    ring_ends: &[u32],
    polygon_ends: &[u32],
) -> Result<(), ArraysError>
    ensures few { IfOk result (λ done. length corners.now < 2 ^ 32) }
    ensures rings { IfOk result (λ done. AreParts ring_ends.now (length corners.now)) }
    ensures polygons { IfOk result (λ done. AreParts polygon_ends.now (length ring_ends.now)) }
    ensures wrong { IfErr result (λ e. (boxes : List Box) → IsWrong corners.now ring_ends.now polygon_ends.now boxes e) }
{
    if u32::try_from(corners.len()).is_err() {
        return Err(ArraysError::TooManyCorners);
    }
    if let Some(k) = first_fall(ring_ends, corners.len()) {
        return Err(ArraysError::Ring(k));
    }
    if (begin_of(ring_ends, ring_ends.len()) as usize) < corners.len() {
        return Err(ArraysError::CornersLeft);
    }
    if let Some(k) = first_fall(polygon_ends, ring_ends.len()) {
        return Err(ArraysError::Polygon(k));
    }
    if (begin_of(polygon_ends, polygon_ends.len()) as usize) < ring_ends.len() {
        return Err(ArraysError::RingsLeft);
    }
    Ok(())
}

/// Writes the box of each polygon's corners, or tells what is wrong with the arrays first. Boxes behind are unchanged.
pub fn measure(
    corners: &[Corner],
    ring_ends: &[u32],
    polygon_ends: &[u32],
    boxes: &mut [Extent],
) -> Result<(), ArraysError>
    requires { length polygon_ends.now ≤ length boxes.old }
    ensures measured { IfOk result (λ done. AreLeastBoxesOf boxes.new corners.now ring_ends.now polygon_ends.now) }
    ensures behind { KeepsBoxesFrom (length polygon_ends.now) boxes.old boxes.new }
    ensures checked { IfOk result (λ done. ArePolygons corners.now ring_ends.now polygon_ends.now []) }
    ensures wrong { IfErr result (λ e. IsWrong corners.now ring_ends.now polygon_ends.now [] e) }
{
    check_ends(corners, ring_ends, polygon_ends)?;
    let mut all = NOTHING;
    let mut corner = 0;
    for polygon in 0..polygon_ends.len() {
        let behind = first_corner(ring_ends, polygon_ends, polygon + 1);
        let extent = Extent::of(&corners[corner..behind]);
        boxes[polygon] = extent;
        all = all.joined(&extent);
        corner = behind;
    }
    match first_outside(corners, &all) {
        Some(k) => Err(ArraysError::OutOfBand(k)),
        None => Ok(()),
    }
}

impl<'a> Polygons<'a> {
    ghost use Rattle.polygons.specs.Arrays.{polygon_corners, rings_of, IsPolygonInBand};
    ghost use Rattle.polygons.specs.Polygon.{polygon_edges};
    ghost use Rattle.polygons.specs.Rings.{rings_from, HoldsInside, IsLeastExtent};

    /// The polygons in these arrays, or what is wrong first. If the caller has boxes, no corner is looked at.
    pub fn new(
        corners: &'a [Corner],
        ring_ends: &'a [u32],
        polygon_ends: &'a [u32],
        boxes: &'a [Extent],
    ) -> Result<Polygons<'a>, ArraysError>
        ensures arrays { IfOk result (λ p. (p.corners.now ≡ corners.now) × (p.ring_ends.now ≡ ring_ends.now) ×
            (p.polygon_ends.now ≡ polygon_ends.now) × (p.boxes.now ≡ boxes.now)) }
        ensures wrong { IfErr result (λ e. IsWrong corners.now ring_ends.now polygon_ends.now boxes.now e) }
    {
        check_ends(corners, ring_ends, polygon_ends)?;
        if !boxes.is_empty() {
            if boxes.len() < polygon_ends.len() {
                return Err(ArraysError::TooFewBoxes);
            }
            return Ok(Polygons {
                corners,
                ring_ends,
                polygon_ends,
                boxes,
                runs: PolygonRuns::none(),
            });
        }
        let (runs, extent) = PolygonRuns::of(corners, ring_ends, polygon_ends);
        if let Some(k) = first_outside(corners, &extent) {
            return Err(ArraysError::OutOfBand(k));
        }
        Ok(Polygons {
            corners,
            ring_ends,
            polygon_ends,
            boxes,
            runs,
        })
    }

    /// How many there are.
    pub fn count(&self) -> usize
        ensures { result ≡ length self.now.polygon_ends.now }
    {
        self.polygon_ends.len()
    }

    /// How many corners the polygon of this number has.
    #[inline]
    pub fn corner_count(&self, number: usize) -> usize
        requires { number < length self.now.polygon_ends.now }
        ensures { result ≡ corner_at self.now.ring_ends.now self.now.polygon_ends.now (number + 1)
            - corner_at self.now.ring_ends.now self.now.polygon_ends.now number }
    {
        let first = first_corner(self.ring_ends, self.polygon_ends, number);
        first_corner(self.ring_ends, self.polygon_ends, number + 1) - first
    }

    /// Whether the corners of all polygons are known to be inside of the guard band.
    pub fn are_seen(&self) -> bool
        ensures known { IsTrue result ↔ length self.now.boxes.now ≡ 0 }
        ensures seen { IsTrue result → (k : ℕ) → k < length self.now.polygon_ends.now →
            IsPolygonInBand self.now.corners.now self.now.ring_ends.now self.now.polygon_ends.now k }
    {
        self.boxes.is_empty()
    }

    /// The least box of the corners of the polygon of this number, or `None` if one is outside of the guard band. By either rule
    /// the polygon has nothing inside but in the box.
    pub fn extent(&self, number: usize) -> Option<Extent>
        requires { number < length self.now.polygon_ends.now }
        ensures some { IsSome result ↔
            IsPolygonInBand self.now.corners.now self.now.ring_ends.now self.now.polygon_ends.now number }
        ensures least { IfSome result (λ e. IsLeastExtent e
            (polygon_corners self.now.corners.now self.now.ring_ends.now self.now.polygon_ends.now number)) }
        ensures holds { IfSome result (λ e. HoldsInside e
            (polygon_edges (rings_of self.now.corners.now self.now.ring_ends.now self.now.polygon_ends.now number))) }
    {
        let first = first_corner(self.ring_ends, self.polygon_ends, number);
        let behind = first_corner(self.ring_ends, self.polygon_ends, number + 1);
        let corners = &self.corners[first..behind];
        let extent = Extent::of(corners);
        match first_outside(corners, &extent) {
            Some(_) => None,
            None => Some(extent),
        }
    }

    /// The rings of the polygon of this number.
    #[inline]
    pub fn rings(&self, number: usize) -> Rings<'a>
        requires number { number < length self.now.polygon_ends.now }
        requires seen { IsPolygonInBand self.now.corners.now self.now.ring_ends.now self.now.polygon_ends.now number }
        ensures { rings_from result.corners.now result.start result.ends.now ≡
            rings_of self.now.corners.now self.now.ring_ends.now self.now.polygon_ends.now number }
    {
        let first = begin_of(self.polygon_ends, number) as usize;
        let end = self.polygon_ends[number] as usize;
        Rings {
            corners: self.corners,
            start: begin_of(self.ring_ends, first),
            ends: &self.ring_ends[first..end],
        }
    }

    /// The box of a run of polygons, to which the one of this number belongs, and the number behind the run's last one.
    /// By either rule none of them has anything inside but in the box, if a caller's boxes are right. With those each
    /// polygon is a run. A run may be shorter and its box greater than they could be, which costs time alone. No corner
    /// is looked at.
    pub fn run_of(&self, number: usize) -> (Extent, usize)
        requires { number < length self.now.polygon_ends.now }
        ensures after { number < result.1 }
        ensures within { result.1 ≤ length self.now.polygon_ends.now }
        ensures holds { BoxesFit self.now.boxes.now self.now.corners.now self.now.ring_ends.now self.now.polygon_ends.now →
            (k : ℕ) → number ≤ k → k < result.1 → HoldsInside result.0
            (polygon_edges (rings_of self.now.corners.now self.now.ring_ends.now self.now.polygon_ends.now k)) }
    {
        if !self.boxes.is_empty() {
            return (self.boxes[number], number + 1);
        }
        let (extent, behind) = self.runs.run_of(number);
        (extent, behind.min(self.polygon_ends.len()))
    }
}
