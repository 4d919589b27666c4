//! Triangles that are drawn in their ids in place of their colours.
ghost use Rattle.std.specs.Prelude.{◌≡◌, ◌↔◌, ◌+◌, ◌<◌, ◌≤◌, length, IsSome, IfSome};
ghost use Rattle.canvas.specs.Ids.{colour_of_id as colour_of, replacing as replacing_of, with_id as with_id_of, with_ids};

use shade::{Blend, Equation, Merge, Placed, State, Triangles};

/// How many ids there are: one for each colour of 24 bits.
const ID_COUNT: usize = 16_777_216;

/// An id as red, green, blue and alpha: red is its lowest byte, and alpha is opaque.
pub fn colour_of_id(id: usize) -> [u8; 4]
    ensures { result ≡ colour_of id }
{
    [
        (id % 256) as u8,
        (id / 256 % 256) as u8,
        (id / 65536 % 256) as u8,
        255,
    ]
}

/// The state in which a colour replaces what is stored without blending, in red, green and blue, and in alpha if the
/// draw writes it.
pub fn replacing(state: &State) -> State
    ensures { result ≡ replacing_of state.now }
{
    State {
        merge: Merge {
            test: state.merge.test,
            depth_write: state.merge.depth_write,
            write: [true; 3],
            blend: Blend {
                colour: Equation::REPLACE,
                alpha: Equation::REPLACE,
                constant: [0; 4],
                write_alpha: state.merge.blend.write_alpha,
            },
        },
        cull: state.cull,
        sample_mask: state.sample_mask,
        scissor: state.scissor,
    }
}

/// The triangle in the colour of its id, which replaces what is stored.
fn with_id(triangle: &Placed, id: usize) -> Placed
    ensures { result ≡ with_id_of triangle.now id }
{
    Placed {
        tri: triangle.tri,
        z: triangle.z,
        rgba: [colour_of_id(id); 3],
        state: replacing(&triangle.state),
    }
}

/// The triangles of a source in the colours of their ids, which are counted from the first one on. They replace what is
/// stored, without blending: id n is red n % 256, green n / 256 % 256 and blue n / 65536 % 256. So each sample at which
/// they are drawn keeps the id of the last one that passed there (`tells_last`), and its depth.
#[derive(Drop)]
pub struct Ids<'a, S: Triangles> {
    source: &'a S,
    first: usize,
    ghost few: { first + length (S.listed source.now) ≤ 16777216 },
}

impl<'a, S: Triangles> Ids<'a, S> {
    /// The triangles of the source, of which the first has this id, or `None` if an id would be above 16,777,215.
    pub fn new(source: &'a S, first: u32) -> Option<Ids<'a, S>>
        ensures some { IsSome result ↔ (first + length (S.listed source.now) ≤ 16777216) }
        ensures listed { IfSome result (λ ids. ⟦<Ids<'a, S> as Triangles>⟧.listed ids ≡
            with_ids (S.listed source.now) first) }
    {
        let first = first as usize;
        if ID_COUNT < first || ID_COUNT - first < source.count() {
            return None;
        }
        Some(Ids { source, first })
    }
}

impl<S: Triangles> Triangles for Ids<'_, S> {
    ghost listed = { λ s. with_ids (S.listed s.source.now) s.first };

    #[inline(always)]
    fn count(&self) -> usize {
        self.source.count()
    }

    #[inline]
    fn triangle(&self, number: usize) -> Placed {
        with_id(&self.source.triangle(number), self.first + number)
    }
}
