//! Polygons in a caller's arrays, drawn one after another.
ghost use Rattle.std.specs.Prelude.{◌≡◌, ◌+◌, ◌<◌, ◌≤◌, length, slice_index};
ghost use Rattle.polygons.specs.declared.rule.Rule.TheVariants.{NonZero};
ghost use Rattle.polygons.specs.Cells.{AreZeros};
ghost use Rattle.fills.specs.Batches.{AreFit, HasColours, HasCornersInBand, shape_in, shapes_of};
ghost use Rattle.fills.specs.Painting.{ArePainted, IsOriginInBand, shape_of};
ghost use Rattle.fills.specs.Parts.{flag_columns_of, counter_columns_of};

use crate::group::{Group, run_of};
use crate::polygon::Polygon;
use canvas::{Origin, Piece, colour_of_id, replacing};
use polygons::{Counters, Flags, Polygons, Rule, Runs};
use shade::State;

/// How polygons are drawn: by which rule, each in which colour and at which depth, and in which state.
#[derive(Clone, Copy, Debug)]
pub struct Style<'a> {
    /// Which points are inside.
    pub rule: Rule,
    /// Red, green, blue and alpha of each polygon. They are not read where ids are drawn.
    pub colours: &'a [[u8; 4]],
    /// The depth of each polygon. A polygon without one has the depth 0.
    pub depths: &'a [u16],
    /// The id of the first polygon, if each is drawn in the colour of its id, which replaces what is stored.
    pub ids: Option<u32>,
    /// How they are drawn. A polygon may run either way round: `cull` is not looked at.
    pub state: State,
}

/// The depth of this number, or 0 if there is none.
fn depth_of(depths: &[u16], number: usize) -> u16
    ensures { result ≡ slice_index depths.now number }
{
    match depths.get(number) {
        None => 0,
        Some(depth) => *depth,
    }
}

impl Style<'_> {
    /// The polygon of this number as it is drawn.
    #[inline(always)]
    pub(crate) fn polygon<'a>(&self, polygons: &Polygons<'a>, number: usize) -> Polygon<'a>
        requires number { number < length polygons.now.polygon_ends.now }
        requires seen { HasCornersInBand polygons.now number }
        requires colours { HasColours self.now.ids self.now.colours.now (length polygons.now.polygon_ends.now) }
        ensures { shape_of result ≡ shape_in polygons.now self.now number }
    {
        let (rgba, state) = match self.ids {
            None => (self.colours[number], self.state),
            Some(first) => (
                colour_of_id(first as usize + number),
                replacing(&self.state),
            ),
        };
        Polygon {
            rings: polygons.rings(number),
            rule: self.rule,
            rgba,
            z: depth_of(self.depths, number),
            state,
        }
    }
}

/// Draws polygons, one after another, at each sample of these tile rows of a canvas whose upper left pixel is `origin`
/// on the screen: what stood there is what each is merged with. There are at least `flag_columns` columns of flags, which
/// are zeros, and are zeros again afterwards, and for the nonzero rule `counter_columns` columns of counters, whatever is
/// in them. By boxes that are not those of the polygons some are left out.
pub fn draw_polygons(
    piece: &mut Piece<'_>,
    polygons: &Polygons<'_>,
    style: &Style<'_>,
    origin: &Origin,
    flags: &mut [Flags],
    counters: &mut [Counters],
)
    requires colours { HasColours style.now.ids style.now.colours.now (length polygons.now.polygon_ends.now) }
    requires origin { IsOriginInBand origin.now }
    requires columns { flag_columns_of style.now.rule piece.old.rows.canvas ≤ length flags.old }
    requires flags { AreZeros flags.old }
    requires counted { style.now.rule ≡ NonZero → counter_columns_of piece.old.rows.canvas ≤ length counters.old }
    ensures painted { AreFit polygons.now → ArePainted (shapes_of polygons.now style.now) origin.now piece.old.rows.canvas
        piece.old.rows.first piece.old.rows.end piece.old.planes.now piece.new.planes.now }
    ensures rows { piece.new.rows ≡ piece.old.rows }
    ensures same { piece.new.planes.ghost_name ≡ piece.old.planes.ghost_name }
    ensures flags { AreZeros flags.new }
{
    let mut runs = Runs::none();
    let mut group = Group::none();
    let mut first = 0;
    while first < polygons.count() {
        let (end, is_beside) = run_of(polygons, first, origin, &piece.rows.canvas);
        if is_beside {
            first = end;
            continue;
        }
        group.take(polygons, origin, &piece.rows.canvas, first);
        group.paint(
            &piece.rows,
            polygons,
            style,
            origin,
            &mut runs,
            flags,
            counters,
            piece.planes,
        );
        first = group.end;
    }
}
