//! The calls of a line, and whether they give what the line says.
use crate::answer::Answer;
use crate::words::Words;
use crate::{blocks, points, polygon, values};

/// What the call with this name gives, or `None` if there is no such call with these words.
fn given(name: &str, words: &mut Words<'_>) -> Option<Answer> {
    match name {
        "point" => points::point_of(words),
        "sample" => points::sample_of(words),
        "count" => points::count_of(words),
        "parts" => points::parts_of(words),
        "tile" => points::tile_of(words),
        "has" => points::has_of(words),
        "side" => points::side_of(words),
        "area2" => points::area2_of(words),
        "covers" => points::covers_of(words),
        "covers_at_seam" => points::covers_at_seam_of(words),
        "drops" => points::drops_of(words),
        "quad_covers" => points::quad_covers_of(words),
        "is_clockwise" => points::is_clockwise_of(words),
        "turned" => points::turned_of(words),
        "reversed" => points::reversed_of(words),
        "ring" => polygon::ring_of(words),
        "rings" => polygon::rings_of(words),
        "covering" => polygon::covering_of(words),
        "strip" => polygon::strip_of(words),
        _ => given_of_values(name, words),
    }
}

fn given_of_values(name: &str, words: &mut Words<'_>) -> Option<Answer> {
    match name {
        "value" => values::value_of(words),
        "weighted" => values::weighted_of(words),
        "channel" => values::channel_of(words),
        "row" => values::row_of(words),
        "uniform_row" => values::uniform_row_of(words),
        "passes" => values::passes_of(words),
        "over" => values::over_of(words),
        "blended" => values::blended_of(words),
        "mean" => values::mean_of(words),
        "resolved" => values::resolved_of(words),
        "apply" => values::apply_of(words),
        _ => given_of_blocks(name, words),
    }
}

fn given_of_blocks(name: &str, words: &mut Words<'_>) -> Option<Answer> {
    match name {
        "is_set_up" => blocks::is_set_up_of(words),
        "bounds" => blocks::bounds_of(words),
        "masks" => blocks::masks_of(words),
        "masks_of_part" => blocks::masks_of_part_of(words),
        "pair_masks" => blocks::pair_masks_of(words),
        "quad_masks" => blocks::quad_masks_of(words),
        "class" => blocks::class_of(words),
        "square" => blocks::square_of(words),
        "quarter" => blocks::quarter_of(words),
        "tiles" => blocks::tiles_of(words),
        "columns_and_rows" => blocks::columns_and_rows_of(words),
        "tiled_size" => blocks::size_of(words),
        "tiled_side" => blocks::side_of(words),
        "tile_rectangle" => blocks::tile_rectangle_of(words),
        "tile_at" => blocks::tile_at_of(words),
        _ => None,
    }
}

/// Whether the line is a call, an equals sign and what the call gives, and nothing else.
pub(crate) fn holds(line: &str) -> bool {
    let Some((call, result)) = line.split_once('=') else {
        return false;
    };
    let (mut words, mut results) = (Words::of(call), Words::of(result));
    let Some(name) = words.word() else {
        return false;
    };
    match given(name, &mut words) {
        Some(answer) => {
            words.word().is_none() && answer.is_said(&mut results) && results.word().is_none()
        }
        None => false,
    }
}
