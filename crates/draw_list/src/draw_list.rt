ghost use Rattle.std.specs.Prelude.{◌≡◌, ◌↔◌, ◌<◌, ◌≤◌, length, slice_get, Some, IfSome, IfOk};
ghost use Rattle.draw_list.specs.Listing.{listing_on, scene_of, IsListingWithinLimits};
ghost use Rattle.draw_list.specs.Rows.{IsRowSpan};
ghost use Rattle.draw_list.specs.Place.{IsPlace};

use crate::draw::Draw;
use crate::limits::{are_within_limits, is_side};
use crate::output::Output;
use crate::place::TrianglePlace;
use crate::rows::{RowSpan, rows_of};
use crate::starts::{owner, owners_of, starts_of};
use crate::target::Target;
use grid::{OutOfMemory, SampleCount};
use shade::{Placed, Sample, Triangles};
use std::alloc::Global;
use std::marker::Model;

/// Draws in their order, and the picture's size, samples, clear values and output. It is within the limits of a draw
/// list: a picture of 1 to 4096 pixels in width and in height, at most 1,024 draws, at most 65,536 vertices a draw, at
/// most 65,536 triangles together, primitives that name vertices of their draw alone, and strictly convex quads.
#[derive(Debug, Drop)]
pub struct DrawList {
    target: Target,
    draws: Vec<Draw>,
    /// The number of each draw's first triangle.
    starts: Vec<u32>,
    /// The draw of every sixteenth triangle.
    owners: Vec<u16>,
    /// The rows of pixels of each triangle.
    rows: Vec<RowSpan>,
}

/// Why no draw list was made.
#[derive(Clone, Copy, Debug, PartialEq, Eq)]
pub enum ListFault {
    /// It would be past a limit of a draw list.
    PastLimit,
    /// An allocation failed.
    OutOfMemory,
}

impl From<OutOfMemory> for ListFault {
    ghost use Rattle.std.specs.Prelude.{◌≡◌};
    ghost use Rattle.draw_list.specs.declared.draw_list.ListFault.TheVariants.{OutOfMemory};

    ghost from_gives = { λ _ fault. fault ≡ OutOfMemory };

    fn from(_refused: OutOfMemory) -> ListFault {
        ListFault::OutOfMemory
    }
}

impl Model for DrawList {
    ghost use Rattle.draw_list.specs.Scene.{Scene};

    ghost Value = { Scene };

    ghost use Rattle.draw_list.specs.Listing.{scene_of};
    ghost use Rattle.draw_list.specs.View.{listing, IsKept};

    ghost view = { λ l. scene_of (listing l) };

    ghost invariant = { IsKept };
}

impl Triangles for DrawList {
    ghost listed = { λ l. l.triangles };

    #[inline(always)]
    fn count(&self) -> usize {
        self.triangles()
    }

    #[inline(always)]
    fn triangle(&self, number: usize) -> Placed {
        self.triangle(number)
    }
}

impl DrawList {
    /// The draw list of these draws on this target. Fails with `PastLimit` before it allocates, if it is past a limit.
    ///
    /// The state of a draw has no limits. Of its sample mask the bits of the picture's samples count, and of its
    /// scissor the pixels of the picture. So a mask above 15 and a scissor with sides outside of 0 to 4096, which the
    /// reader refuses, may stand here.
    pub fn new(alloc: Global, target: Target, draws: Vec<Draw>) -> Result<DrawList, ListFault>
        ensures scene { IfOk result (λ list. list ≡ scene_of (listing_on target draws.items)) }
        ensures limits { IfOk result (λ _. IsListingWithinLimits (listing_on target draws.items)) }
        ensures past_limit { (result ≡ Err ListFault.PastLimit) ↔
            ¬ IsListingWithinLimits (listing_on target draws.items) }
    {
        if !is_side(target.width) || !is_side(target.height) || !are_within_limits(&draws) {
            return Err(ListFault::PastLimit);
        }
        Ok(DrawList::within_limits(alloc, target, draws)?)
    }

    /// The draw list of these draws on this target, which are within the limits.
    pub fn within_limits(
        alloc: Global,
        target: Target,
        draws: Vec<Draw>,
    ) -> Result<DrawList, OutOfMemory>
        requires { IsListingWithinLimits (listing_on target draws.items) }
        ensures { IfOk result (λ list. list ≡ scene_of (listing_on target draws.items)) }
    {
        let starts = starts_of(alloc, &draws)?;
        let rows = rows_of(alloc, &draws)?;
        let owners = owners_of(alloc, &starts, rows.len())?;
        Ok(DrawList {
            target,
            draws,
            starts,
            owners,
            rows,
        })
    }

    /// The width of the picture, in pixels.
    pub fn width(&self) -> u32
        ensures value { result ≡ self.now.width }
        ensures least { 1 ≤ result }
        ensures greatest { result ≤ 4096 }
    {
        self.target.width
    }

    /// The height of the picture, in pixels.
    pub fn height(&self) -> u32
        ensures value { result ≡ self.now.height }
        ensures least { 1 ≤ result }
        ensures greatest { result ≤ 4096 }
    {
        self.target.height
    }

    /// The number of samples of a pixel.
    pub fn count(&self) -> SampleCount
        ensures { result ≡ self.now.count }
    {
        self.target.count
    }

    /// The colour and depth that each sample begins with.
    pub fn clear(&self) -> Sample
        ensures { result ≡ self.now.clear }
    {
        self.target.clear
    }

    /// What the picture shows.
    pub fn output(&self) -> Output
        ensures { result ≡ self.now.output }
    {
        self.target.output
    }

    /// The number of triangles of all draws together.
    pub fn triangles(&self) -> usize
        ensures value { result ≡ length self.now.triangles }
        ensures greatest { result ≤ 65536 }
    {
        self.rows.len()
    }

    /// The triangle of this number in draw order: draw by draw, and in a draw as its primitives are listed.
    pub fn triangle(&self, number: usize) -> Placed
        requires { number < length self.now.triangles }
        ensures { slice_get self.now.triangles number ≡ Some result }
    {
        let draw = owner(&self.starts, &self.owners, number);
        self.draws[draw].triangle(number - self.starts[draw] as usize)
    }

    /// The draw of the triangle of this number, and its number in that draw.
    pub fn place(&self, number: usize) -> TrianglePlace
        requires { number < length self.now.triangles }
        ensures { IsPlace self.now number result }
    {
        let draw = owner(&self.starts, &self.owners, number);
        TrianglePlace {
            draw,
            triangle: number - self.starts[draw] as usize,
        }
    }

    /// The rows of pixels of the screen from that of the least y of this triangle's vertices to that of the greatest.
    /// The row of a y is y by 256, rounded down. The rows may begin and end below the picture, whose height does not
    /// cut them.
    pub fn rows(&self, number: usize) -> RowSpan
        requires { number < length self.now.triangles }
        ensures { IfSome (slice_get self.now.triangles number) (λ triangle. IsRowSpan triangle.tri result) }
    {
        self.rows[number]
    }
}
