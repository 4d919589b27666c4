//! Pictures of many triangles compared with the definition, drawn sample by sample: batches, pieces, formats, strides,
//! ids, and calls that do nothing.
use crate::fixtures::{
    CLEAR, CLEAR_ALPHA, Numbers, UNTOUCHED, cleared, piece, placed, small_canvas, stored,
    untouched, view,
};
use canvas::{Canvas, Ids, Indexed, Origin, Window};
use grid::{Cull, PixelBox, Point, SampleCount, Tri, sample_at};
use readout::{Format, Misfit, View, load};
use shade::{
    Blend, CanvasSample, DepthTest, MAX_SAMPLES, Merge, Placed, Sample, State, apply_on_canvas,
    resolved_colour,
};
use std::alloc::Global;
use std::process::Abort;
use std::test::Fail;
/// Whether pixel (i, j) is one of those that are compared, which are a fourth of all: the definition is slow.
fn is_compared(i: u32, j: u32) -> bool {
    i.wrapping_add(j) % 4 == 0
}

/// Sample `s` of pixel (i, j) of the screen after the triangle.
fn drawn(
    triangle: &Placed,
    count: SampleCount,
    i: u32,
    j: u32,
    s: u32,
    stored: CanvasSample,
) -> CanvasSample {
    let state = triangle.state;
    if i >= 4096 || j >= 4096 || s >= count.count() {
        return stored;
    }
    let covered = triangle.tri.covers(sample_at(i, j, s, count));
    let kept = !state.cull.drops(triangle.tri.area2()) && state.scissor.has(i, j);
    if !covered || !kept || s > 15 || (state.sample_mask >> s) % 2 == 0 {
        return stored;
    }
    let fragment = triangle.fragment(sample_at(i, j, s, count));
    apply_on_canvas(&state.merge, &fragment, stored)
}

/// Sample `s` of pixel (i, j) of the screen after all triangles, from the clear sample on.
fn end_at(triangles: &[Placed], count: SampleCount, i: u32, j: u32, s: u32) -> CanvasSample {
    let mut sample = CLEAR.with_alpha(CLEAR_ALPHA);
    for triangle in triangles {
        sample = drawn(triangle, count, i, j, s, sample);
    }
    sample
}

/// Whether each sample of a canvas at the origin, of the pixels that are compared and lie on the screen, is what the
/// triangles make of the clear sample there.
fn are_ends_from(origin: Origin, view: View<'_>, triangles: &[Placed]) -> bool {
    let canvas = view.rows.canvas;
    for j in 0..canvas.height {
        for i in 0..canvas.width {
            let place = (
                i.checked_add_signed(origin.x),
                j.checked_add_signed(origin.y),
            );
            let (Some(column), Some(row)) = place else {
                continue;
            };
            let samples_compared = if is_compared(i, j) {
                canvas.count.count()
            } else {
                0
            };
            for s in 0..samples_compared {
                let end = end_at(triangles, canvas.count, column, row, s);
                if view.sample(i, j, s) != Some(end) {
                    return false;
                }
            }
        }
    }
    true
}

/// The same of a canvas that has the screen's upper left corner.
fn are_ends(view: View<'_>, triangles: &[Placed]) -> bool {
    are_ends_from(Origin { x: 0, y: 0 }, view, triangles)
}

/// Whether the triangles, drawn in three batches of which the second is drawn by pieces, end as they are defined.
fn draws_batches(rt: &impl Abort, alloc: Global, count: SampleCount) -> Result<bool, Fail> {
    let rows = small_canvas(rt, count).all();
    let (upper, lower) = rows.split(1).expect(rt, "two rows of tiles");
    let triangles = Numbers { state: 1 }.triangles(rt, alloc, 110)?;
    let mut samples = cleared(alloc, &rows)?;
    let (first, others) = triangles.split_at(1.min(triangles.len()));
    let (second, third) = others.split_at(80.min(others.len()));
    piece(rt, &rows, &mut samples).draw(&stored(first));
    let middle = upper.planes().min(samples.len());
    let (above, below) = samples.split_at_mut(middle);
    piece(rt, &lower, below).draw(&stored(second));
    piece(rt, &upper, above).draw(&stored(second));
    piece(rt, &rows, &mut samples).draw(&stored(third));
    Ok(are_ends(view(rt, &rows, &samples), &triangles))
}

#[test]
fn draws_batches_over_samples_that_stay(rt: HostRuntime) -> Result<(), Fail> {
    assert!(rt; draws_batches(&rt, rt.alloc(), SampleCount::One)?);
    assert!(rt; draws_batches(&rt, rt.alloc(), SampleCount::Two)?);
    assert!(rt; draws_batches(&rt, rt.alloc(), SampleCount::Four)?);
    assert!(rt; draws_batches(&rt, rt.alloc(), SampleCount::Eight)?);
    assert!(rt; draws_batches(&rt, rt.alloc(), SampleCount::Sixteen)?);
    Ok(())
}

/// A triangle that covers all tiles of the picture but the last, in one colour and without blending.
fn covering(rt: &impl Abort) -> Placed {
    let near = Point::new(-30_000, -30_000).expect(rt, "inside of the guard band");
    let right = Point::new(90_000, -30_000).expect(rt, "inside of the guard band");
    let below = Point::new(-30_000, 90_000).expect(rt, "inside of the guard band");
    Placed {
        tri: Tri::new(near, right, below),
        z: [500, 40_000, 20_000],
        rgba: [[200, 150, 100, 50]; 3],
        state: State {
            merge: Merge {
                test: DepthTest::Always,
                depth_write: false,
                write: [true; 3],
                blend: Blend::NONE,
            },
            cull: Cull::None,
            sample_mask: u16::MAX,
            scissor: PixelBox {
                x0: 0,
                y0: 0,
                x1: 4096,
                y1: 4096,
            },
        },
    }
}

/// Whether a batch in which one triangle hides those before it ends as its triangles are defined. With `depths` one of
/// these writes depths, and with `alpha` the one that hides them writes alpha.
fn draws_hidden(
    rt: &impl Abort,
    alloc: Global,
    count: SampleCount,
    depths: bool,
    alpha: bool,
) -> Result<bool, Fail> {
    let rows = small_canvas(rt, count).all();
    let mut numbers = Numbers { state: 31 };
    let mut triangles = Vec::new(alloc);
    for k in 0..20 {
        let mut triangle = numbers.triangle(rt);
        triangle.state.merge.depth_write = depths && k == 7;
        triangles.push(triangle)?;
    }
    let mut over = covering(rt);
    over.state.merge.blend.write_alpha = alpha;
    triangles.push(over)?;
    for _ in 0..10 {
        triangles.push(numbers.triangle(rt))?;
    }
    let mut samples = cleared(alloc, &rows)?;
    piece(rt, &rows, &mut samples).draw(&stored(&triangles));
    Ok(are_ends(view(rt, &rows, &samples), &triangles))
}

#[test]
fn leaves_out_what_a_later_triangle_hides(rt: HostRuntime) -> Result<(), Fail> {
    for count in [SampleCount::One, SampleCount::Four, SampleCount::Eight] {
        assert!(rt; draws_hidden(&rt, rt.alloc(), count, false, false)?);
        assert!(rt; draws_hidden(&rt, rt.alloc(), count, false, true)?);
        assert!(rt; draws_hidden(&rt, rt.alloc(), count, true, false)?);
        assert!(rt; draws_hidden(&rt, rt.alloc(), count, true, true)?);
    }
    Ok(())
}

/// Whether a source of enough triangles for the largest chunk ends as they are defined.
fn draws_many(rt: &impl Abort, alloc: Global) -> Result<bool, Fail> {
    let rows = small_canvas(rt, SampleCount::One).all();
    let triangles = Numbers { state: 12 }.triangles(rt, alloc, 1100)?;
    let mut samples = cleared(alloc, &rows)?;
    piece(rt, &rows, &mut samples).draw(&stored(&triangles));
    Ok(are_ends(view(rt, &rows, &samples), &triangles))
}

#[test]
fn draws_many_triangles_of_a_source(rt: HostRuntime) -> Result<(), Fail> {
    assert!(rt; draws_many(&rt, rt.alloc())?);
    Ok(())
}

/// Whether a canvas at the origin is drawn as the screen's samples there are defined.
fn draws_window(rt: &impl Abort, alloc: Global, origin: Origin) -> Result<bool, Fail> {
    let rows = small_canvas(rt, SampleCount::Four).all();
    let triangles = Numbers { state: 9 }.triangles(rt, alloc, 70)?;
    let mut samples = cleared(alloc, &rows)?;
    let source = stored(&triangles);
    let window = Window::new(&source, origin).expect(rt, "inside of the guard band");
    piece(rt, &rows, &mut samples).draw(&window);
    Ok(are_ends_from(origin, view(rt, &rows, &samples), &triangles))
}

#[test]
fn draws_a_window_anywhere_on_the_screen(rt: HostRuntime) -> Result<(), Fail> {
    assert!(rt; draws_window(&rt, rt.alloc(), Origin { x: 21, y: 10 })?);
    assert!(rt; draws_window(&rt, rt.alloc(), Origin { x: -5, y: -9 })?);
    Ok(())
}

#[test]
fn has_no_window_that_leaves_the_guard_band(rt: HostRuntime) -> Result<(), Fail> {
    let triangles = Numbers { state: 10 }.triangles(&rt, rt.alloc(), 70)?;
    let source = stored(&triangles);
    let left = Origin { x: -32_700, y: 0 };
    let right = Origin {
        x: i32::MAX,
        y: i32::MIN,
    };
    for origin in [left, right] {
        assert!(rt; Window::new(&source, origin).is_none());
    }
    Ok(())
}

/// Red, green, blue and alpha of pixel (i, j) after the triangles, resolved from its samples.
fn colour_at(triangles: &[Placed], count: SampleCount, i: u32, j: u32) -> [u8; 4] {
    let mut colours = [CLEAR; MAX_SAMPLES];
    let mut alphas = [CLEAR; MAX_SAMPLES];
    for (s, (colour, alpha)) in (0..count.count()).zip(colours.iter_mut().zip(alphas.iter_mut())) {
        let end = end_at(triangles, count, i, j, s);
        *colour = end.colour_and_depth();
        *alpha = Sample {
            r: end.alpha,
            ..CLEAR
        };
    }
    let [r, g, b] = resolved_colour(&colours, count);
    let [a, _, _] = resolved_colour(&alphas, count);
    [r, g, b, a]
}

/// The byte of a channel of pixel (i, j), or the unchanged one after the end of a row.
fn byte_at(
    triangles: &[Placed],
    canvas: &Canvas,
    format: Format,
    i: u32,
    j: u32,
    channel: u32,
) -> u8 {
    if i >= canvas.width {
        return UNTOUCHED;
    }
    let [r, g, b, a] = colour_at(triangles, canvas.count, i, j);
    match (format, channel) {
        (Format::Rgb8, 0) | (Format::Rgba8, 0) | (Format::Bgra8, 2) => r,
        (Format::Rgb8, 1) | (Format::Rgba8, 1) | (Format::Bgra8, 1) => g,
        (Format::Rgb8, 2) | (Format::Rgba8, 2) | (Format::Bgra8, 0) => b,
        _ => a,
    }
}

/// Whether the bytes are the picture, row after row of 75 pixels, of which those to the right of the picture are
/// unchanged.
fn are_resolved(triangles: &[Placed], canvas: &Canvas, format: Format, bytes: &[u8]) -> bool {
    let mut rest = bytes.iter();
    for j in 0..canvas.height {
        for i in 0..75 {
            for channel in 0..format.pixel_bytes() as u32 {
                let byte = rest.next();
                let compared = i >= canvas.width || is_compared(i, j);
                if compared && byte != Some(&byte_at(triangles, canvas, format, i, j, channel)) {
                    return false;
                }
            }
        }
    }
    rest.next().is_none()
}

/// Whether a picture in the format is resolved as it is defined, and nothing outside of it is written; and whether a
/// canvas onto which that picture is loaded resolves to it.
fn resolves(
    rt: &impl Abort,
    alloc: Global,
    count: SampleCount,
    format: Format,
) -> Result<bool, Fail> {
    let canvas = small_canvas(rt, count);
    let rows = canvas.all();
    let triangles = Numbers { state: 4 }.triangles(rt, alloc, 40)?;
    let mut samples = cleared(alloc, &rows)?;
    piece(rt, &rows, &mut samples).draw(&stored(&triangles));
    let stride = 75 * format.pixel_bytes();
    let mut bytes = untouched(alloc, stride * 66)?;
    let resolved = view(rt, &rows, &samples).resolve(&mut bytes, format, stride);
    let mut other = cleared(alloc, &rows)?;
    let loaded = load(
        &mut piece(rt, &rows, &mut other),
        &bytes,
        format,
        stride,
        true,
    );
    let mut again = untouched(alloc, stride * 66)?;
    let returned = view(rt, &rows, &other).resolve(&mut again, format, stride);
    let done = resolved.is_ok() && loaded.is_ok() && returned.is_ok();
    Ok(done && are_resolved(&triangles, &canvas, format, &bytes) && again == bytes)
}

#[test]
fn resolves_and_loads_each_format_with_a_stride(rt: HostRuntime) -> Result<(), Fail> {
    assert!(rt; resolves(&rt, rt.alloc(), SampleCount::One, Format::Rgb8)?);
    assert!(rt; resolves(&rt, rt.alloc(), SampleCount::Four, Format::Rgba8)?);
    assert!(rt; resolves(&rt, rt.alloc(), SampleCount::Four, Format::Bgra8)?);
    assert!(rt; resolves(&rt, rt.alloc(), SampleCount::Two, Format::Rgb8)?);
    assert!(rt; resolves(&rt, rt.alloc(), SampleCount::Eight, Format::Rgb8)?);
    assert!(rt; resolves(&rt, rt.alloc(), SampleCount::Sixteen, Format::Rgba8)?);
    Ok(())
}

/// Whether the bytes of pieces, each of them written apart, are those of the whole canvas; the last row has no padding.
fn resolves_pieces(rt: &impl Abort, alloc: Global) -> Result<bool, Fail> {
    let rows = small_canvas(rt, SampleCount::Four).all();
    let (upper, lower) = rows.split(1).expect(rt, "two rows of tiles");
    let triangles = Numbers { state: 5 }.triangles(rt, alloc, 40)?;
    let mut samples = cleared(alloc, &rows)?;
    piece(rt, &rows, &mut samples).draw(&stored(&triangles));
    let size = 300 * 65 + 210;
    let mut whole = untouched(alloc, size)?;
    let one = view(rt, &rows, &samples).resolve(&mut whole, Format::Rgb8, 300);
    let mut parts = untouched(alloc, size)?;
    let (above, below) = samples.split_at(upper.planes().min(samples.len()));
    let middle = (300 * 64).min(parts.len());
    let (first, last) = parts.split_at_mut(middle);
    let two = view(rt, &upper, above).resolve(first, Format::Rgb8, 300);
    let three = view(rt, &lower, below).resolve(last, Format::Rgb8, 300);
    let done = one.is_ok() && two.is_ok() && three.is_ok();
    Ok(done && whole == parts)
}

#[test]
fn resolves_pieces_to_the_bytes_of_the_whole(rt: HostRuntime) -> Result<(), Fail> {
    assert!(rt; resolves_pieces(&rt, rt.alloc())?);
    Ok(())
}

/// The place in the list of the last triangle that changes the sample.
fn last_at(triangles: &[Placed], count: SampleCount, i: u32, j: u32, s: u32) -> Option<u32> {
    let (mut sample, mut last, mut place) = (CLEAR.with_alpha(CLEAR_ALPHA), None, 0u32);
    for triangle in triangles {
        let mut marked = *triangle;
        marked.state.merge = Merge {
            test: triangle.state.merge.test,
            depth_write: triangle.state.merge.depth_write,
            write: [true; 3],
            blend: Blend::NONE,
        };
        marked.rgba = [[255, 255, 255, 255]; 3];
        let before = CanvasSample {
            r: 0,
            g: 0,
            b: 0,
            alpha: 0,
            z: sample.z,
        };
        let after = drawn(&marked, count, i, j, s, before);
        if after.r == 255 {
            last = Some(place);
        }
        sample = drawn(triangle, count, i, j, s, sample);
        place = place.wrapping_add(1);
    }
    last
}

/// Whether the entries are the ids of the samples 2, counted from 70,000 on, and their depths.
fn are_ids(triangles: &[Placed], canvas: &Canvas, ids: &[u32], depths: &[u16]) -> bool {
    let (mut ids, mut depths) = (ids.iter(), depths.iter());
    let clear = 10 + 256 * 20 + 65536 * 30;
    for j in 0..canvas.height {
        for i in 0..canvas.width {
            let (id, entry) = (ids.next(), depths.next());
            if !is_compared(i, j) {
                continue;
            }
            let expected = match last_at(triangles, canvas.count, i, j, 2) {
                Some(place) => place.wrapping_add(70_000),
                None => clear,
            };
            let depth = end_at(triangles, canvas.count, i, j, 2).z;
            if id != Some(&expected) || entry != Some(&depth) {
                return false;
            }
        }
    }
    true
}

/// Whether a canvas drawn by ids has the ids and the depths as they are defined.
fn draws_ids(rt: &impl Abort, alloc: Global) -> Result<bool, Fail> {
    let canvas = small_canvas(rt, SampleCount::Four);
    let rows = canvas.all();
    let triangles = Numbers { state: 6 }.triangles(rt, alloc, 70)?;
    let mut samples = cleared(alloc, &rows)?;
    let source = stored(&triangles);
    let ids = Ids::new(&source, 70_000).expect(rt, "ids of 24 bits");
    piece(rt, &rows, &mut samples).draw(&ids);
    let (mut ids, mut depths) = (Vec::new(alloc), Vec::new(alloc));
    for _ in 0..70 * 66 {
        ids.push(0u32)?;
        depths.push(0u16)?;
    }
    let view = view(rt, &rows, &samples);
    let one = view.ids(2, &mut ids, 70);
    let two = view.depths(2, &mut depths, 70);
    let done = one.is_ok() && two.is_ok();
    Ok(done && are_ids(&triangles, &canvas, &ids, &depths))
}

#[test]
fn draws_ids_and_keeps_depths(rt: HostRuntime) -> Result<(), Fail> {
    assert!(rt; draws_ids(&rt, rt.alloc())?);
    Ok(())
}

#[test]
fn draws_by_indices_and_refuses_one_that_names_no_vertex(rt: HostRuntime) -> Result<(), Fail> {
    let rows = small_canvas(&rt, SampleCount::One).all();
    let mut numbers = Numbers { state: 7 };
    let (a, b, c) = (
        numbers.vertex(&rt),
        numbers.vertex(&rt),
        numbers.vertex(&rt),
    );
    let d = numbers.vertex(&rt);
    let state = numbers.state();
    let mut samples = cleared(rt.alloc(), &rows)?;
    let vertices = [a, b, c, d];
    assert!(rt; Indexed::new(&vertices, &[[0, 1, 2], [0, 4, 1]], state).is_none());
    let indexed = Indexed::new(&vertices, &[[0, 1, 2], [3, 2, 1]], state).expect(&rt, "4 vertices");
    piece(&rt, &rows, &mut samples).draw(&indexed);
    let triangles = [placed(&a, &b, &c, state), placed(&d, &c, &b, state)];
    assert!(rt; are_ends(view(&rt, &rows, &samples), &triangles));
    Ok(())
}

#[test]
fn clears_each_sample(rt: HostRuntime) -> Result<(), Fail> {
    let rows = small_canvas(&rt, SampleCount::Two).all();
    let mut samples = cleared(rt.alloc(), &rows)?;
    let sample = Sample {
        r: 1,
        g: 2,
        b: 3,
        z: 4,
    };
    piece(&rt, &rows, &mut samples).clear(sample, 5);
    assert!(rt; view(&rt, &rows, &samples).sample(69, 65, 1) == Some(sample.with_alpha(5)));
    Ok(())
}

#[test]
fn does_nothing_where_sizes_do_not_fit(rt: HostRuntime) -> Result<(), Fail> {
    let rows = small_canvas(&rt, SampleCount::One).all();
    let triangles = Numbers { state: 8 }.triangles(&rt, rt.alloc(), 2)?;
    let mut samples = cleared(rt.alloc(), &rows)?;
    let middle = 1.min(samples.len());
    let (_, short) = samples.split_at_mut(middle);
    assert!(rt; !rows.fits(short.len()));
    assert!(rt; Ids::new(&stored(&triangles), 16_777_215).is_none());
    let mut bytes = untouched(rt.alloc(), 210 * 66)?;
    let narrow = view(&rt, &rows, &samples).resolve(&mut bytes, Format::Rgb8, 209);
    assert_eq!(rt; narrow, Err(Misfit::Pixels));
    let long = view(&rt, &rows, &samples).resolve(&mut bytes, Format::Rgb8, 211);
    assert_eq!(rt; long, Err(Misfit::Pixels));
    let wide = load(
        &mut piece(&rt, &rows, &mut samples),
        &bytes,
        Format::Rgba8,
        280,
        true,
    );
    assert_eq!(rt; wide, Err(Misfit::Pixels));
    assert!(rt; bytes == untouched(rt.alloc(), 210 * 66)?);
    let view = view(&rt, &rows, &samples);
    let mut depths = [9u16; 4];
    assert_eq!(rt; view.depths(1, &mut depths, 70), Err(Misfit::Sample));
    assert_eq!(rt; view.depths(0, &mut depths, 70), Err(Misfit::Pixels));
    assert_eq!(rt; depths, [9; 4]);
    Ok(())
}

#[test]
fn has_a_canvas_of_1_to_4096_pixels_a_side(rt: HostRuntime) {
    assert!(rt; Canvas::new(0, 1, SampleCount::One).is_none());
    assert!(rt; Canvas::new(1, 4097, SampleCount::Four).is_none());
    let largest = Canvas::new(4096, 4096, SampleCount::Four).expect(&rt, "the largest canvas");
    assert_eq!(rt; largest.all().planes(), 1_069_056);
    let sixteen = Canvas::new(4096, 4096, SampleCount::Sixteen).expect(&rt, "sixteen samples");
    assert_eq!(rt; sixteen.all().planes(), 4_263_936);
    assert_eq!(rt; largest.column_count(), 64);
    assert_eq!(rt; largest.row_count(), 64);
    assert_eq!(rt; largest.planes_of_row(), 16_704);
    assert!(rt; largest.rows(3, 65).is_none());
    let rows = largest.rows(3, 5).expect(&rt, "rows of tiles");
    assert_eq!(rt; rows.planes(), 33_408);
}
