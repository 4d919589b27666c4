//! The samples that a quad covers.
ghost use Rattle.std.specs.Prelude.{◌≡◌, ◌<◌, ◌^◌, pos};
ghost use Rattle.grid.specs.Quad.{IsStrictlyConvex};
ghost use Rattle.cover.specs.Masks.{AreMasksWhere, to_column, to_row};
ghost use Rattle.cover.specs.Quad.{AreMasksOfQuad, IsJoinedFrom};

use crate::edge::Edge;
use crate::masks::Masks;
use grid::{Quad, SampleCount};

/// The edges of a quad, each turned so that the quad lies where its edge function is positive.
#[derive(Drop)]
struct Sides {
    ab: Edge,
    bc: Edge,
    cd: Edge,
    da: Edge,
}

impl Sides {
    ghost use Rattle.cover.specs.Sides.{AreSidesOf, IsInsideAt};

    fn of(quad: &Quad) -> Sides
        ensures sides { AreSidesOf quad.now result }
        ensures convex { IsStrictlyConvex quad.now.a quad.now.b quad.now.c quad.now.d }
    {
        let (a, b, c, d) = quad.corners();
        if quad.is_clockwise() {
            Sides {
                ab: Edge::new(a, b),
                bc: Edge::new(b, c),
                cd: Edge::new(c, d),
                da: Edge::new(d, a),
            }
        } else {
            Sides {
                ab: Edge::new(b, a),
                bc: Edge::new(c, b),
                cd: Edge::new(d, c),
                da: Edge::new(a, d),
            }
        }
    }

    /// The samples of a block inside all four edges, by where the box round the block's samples begins on the screen.
    fn masks(&self, x: u32, y: u32, count: SampleCount) -> Masks
        requires x { x < 2 ^ 20 }
        requires y { y < 2 ^ 20 }
        ensures { AreMasksWhere 8 (λ s row column. IsInsideAt self.now x y (to_column count s column)
            (to_row count s row)) count 0 result }
    {
        self.ab
            .masks::<8>(self.ab.on_screen(x, y), 0, count)
            .both(self.bc.masks::<8>(self.bc.on_screen(x, y), 0, count))
            .both(self.cd.masks::<8>(self.cd.on_screen(x, y), 0, count))
            .both(self.da.masks::<8>(self.da.on_screen(x, y), 0, count))
    }
}

/// Which samples of block (bx, by) the quad covers, by the top-left rule at its four edges; the block's first pixel is
/// (8 * bx, 8 * by). With one sample the words 1 to 3 are zero. These are the samples that the two triangles of either
/// diagonal cover, and no sample is covered by both. Of more than four samples of a pixel they are the first four.
pub fn quad_masks(quad: &Quad, bx: u32, by: u32, count: SampleCount) -> Masks
    requires column { bx < 512 }
    requires row { by < 512 }
    ensures covered { AreMasksOfQuad quad.now bx by count result }
    ensures first_diagonal { IsJoinedFrom (record { a = quad.now.a; b = quad.now.b; c = quad.now.c })
        (record { a = quad.now.c; b = quad.now.d; c = quad.now.a }) bx by count result }
    ensures second_diagonal { IsJoinedFrom (record { a = quad.now.b; b = quad.now.c; c = quad.now.d })
        (record { a = quad.now.d; b = quad.now.a; c = quad.now.b }) bx by count result }
{
    let x = 2048 * bx + count.box_start();
    let y = 2048 * by + count.box_start();
    Sides::of(quad).masks(x, y, count)
}
