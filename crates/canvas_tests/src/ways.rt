//! Tiles whose blocks are kept in each way, compared with those whose blocks all have planes of their own.
use crate::fixtures::{CLEAR, CLEAR_ALPHA, Numbers, cleared, piece, stored, untouched, view};
use blocks::{
    FlatBlock, fill_block, fill_tile, has_pairs, is_cleared, make_single, pair_block,
    replace_samples, second_place, single_block,
};
use canvas::{Canvas, TileRows};
use grid::SampleCount;
use lanes::BlockSamples;
use readout::Format;
use shade::{CanvasSample, Sample};
use std::alloc::Global;
use std::process::Abort;
use std::test::Fail;

/// A canvas of one tile.
fn tile(rt: &impl Abort, count: SampleCount) -> Canvas {
    Canvas::new(64, 64, count).expect(rt, "1 to 4096 pixels a side")
}

/// Makes blocks 30 to 33 pairs, of a cleared and of a single block, if a pixel has four samples or more. Of the masks for
/// one pair and the next one part has all bits of the other, or both together have all.
fn in_pairs(
    rt: &impl Abort,
    count: SampleCount,
    plane: &BlockSamples,
    samples: &mut [BlockSamples],
) {
    let some = [0x00ff_1234_5678_9abc; 16];
    let more = [0x0fff_1234_5678_9abf; 16];
    let rest = [0xffff_edcb_a987_6543; 16];
    let apart = [1; 16];
    let has_pairs = count.count() >= 4;
    assert!(rt; samples.len() == 1 + 65 * count.count() as usize);
    assert!(rt; single_block(count, 31, samples));
    for k in 30..34 {
        assert!(rt; replace_samples(count, k, &some, plane, samples) == has_pairs);
    }
    let other = samples[1];
    assert!(rt; replace_samples(count, 32, &more, &other, samples) == has_pairs);
    assert!(rt; replace_samples(count, 33, &rest, &other, samples) == has_pairs);
    assert!(rt; !replace_samples(count, 30, &apart, &other, samples));
    assert!(rt; pair_block(count, 35, &some, samples) == has_pairs);
    assert!(rt; !pair_block(count, 30, &some, samples));
    if has_pairs {
        let place = second_place(count, 35);
        samples[place] = *plane;
    }
}

/// Makes block 40 flat, and blocks 41 to 44 ones of two samples, if a pixel has four samples or more. Block 43 is single
/// then, and block 44 has planes of its own.
fn in_samples(
    rt: &impl Abort,
    count: SampleCount,
    other: CanvasSample,
    samples: &mut [BlockSamples],
) {
    assert!(rt; samples.len() == 1 + 65 * count.count() as usize);
    if !has_pairs(count) {
        return;
    }
    let some = [0x00ff_1234_5678_9abc; 16];
    let block = FlatBlock::of(count, 40, samples).expect(rt, "one sample of a cleared block");
    assert!(rt; FlatBlock::of(count, 20, samples).is_none());
    let two = block
        .replaced(count, &some, other, other)
        .expect(rt, "two samples");
    for k in 41..44 {
        two.store(count, k, samples);
    }
    let read = FlatBlock::of(count, 41, samples).expect(rt, "two samples");
    assert!(rt;
        read.first == two.first && read.second == two.second && read.masks[3] == two.masks[3]
    );
    let all = two
        .replaced(count, &[u64::MAX; 16], other, other)
        .expect(rt, "one sample");
    all.store(count, 40, samples);
    all.store(count, 43, samples);
    assert!(rt; single_block(count, 43, samples));
    assert!(rt; FlatBlock::of(count, 43, samples).expect(rt, "one sample") == all);
    assert!(rt; !single_block(count, 42, samples));
    two.store(count, 44, samples);
    fill_block(count, 44, samples);
    assert!(rt; FlatBlock::of(count, 44, samples).is_none());
}

/// The planes of the tile, cleared, with blocks 3 and 12 in one plane each and block 20 in planes of its own.
fn in_each_way(rt: &impl Abort, alloc: Global, canvas: &Canvas) -> Result<Vec<BlockSamples>, Fail> {
    let (count, rows) = (canvas.count, canvas.all());
    let mut samples = cleared(alloc, &rows)?;
    piece(rt, &rows, &mut samples).clear(CLEAR, CLEAR_ALPHA);
    assert!(rt; samples.len() == canvas.planes_of_tile());
    assert!(rt; is_cleared(&samples));
    assert!(rt; single_block(count, 3, &mut samples));
    let other = Sample {
        r: 90,
        g: 80,
        b: 70,
        z: 600,
    };
    make_single(count, 12, &BlockSamples::filled(other, 200), &mut samples);
    fill_block(count, 20, &mut samples);
    in_pairs(rt, count, &BlockSamples::filled(other, 100), &mut samples);
    in_samples(rt, count, other.with_alpha(150), &mut samples);
    assert!(rt; single_block(count, 12, &mut samples));
    assert!(rt; !single_block(count, 20, &mut samples));
    assert!(rt; !is_cleared(&samples));
    Ok(samples)
}

/// The same planes, all blocks with planes of their own.
fn filled(
    rt: &impl Abort,
    canvas: &Canvas,
    samples: &Vec<BlockSamples>,
) -> Result<Vec<BlockSamples>, Fail> {
    let mut planes = samples.clone()?;
    assert!(rt; planes.len() == canvas.planes_of_tile());
    fill_tile(canvas.count, &mut planes);
    assert!(rt; !single_block(canvas.count, 3, &mut planes));
    Ok(planes)
}

/// The bytes, depths and ids that are read out of a tile: all colours, and what the last sample of each pixel has.
fn read_out(
    rt: &impl Abort,
    alloc: Global,
    rows: &TileRows,
    samples: &[BlockSamples],
) -> Result<(Vec<u8>, Vec<u8>, Vec<u32>), Fail> {
    let view = view(rt, rows, samples);
    let last = rows.canvas.count.count() - 1;
    let mut colours = untouched(alloc, 256 * 64)?;
    assert!(rt; view.resolve(&mut colours, Format::Rgba8, 256).is_ok());
    let mut samples_of_one = untouched(alloc, 256 * 64)?;
    assert!(rt;
        view.colors(last, &mut samples_of_one, Format::Bgra8, 256)
            .is_ok()
    );
    let mut ids = Vec::new(alloc);
    for _ in 0..65_536 {
        ids.push(0u32)?;
    }
    assert!(rt; view.tile_ids(0, 0, &mut ids).is_ok());
    Ok((colours, samples_of_one, ids))
}

/// Stores a picture in place of the colours of the first sample of each pixel.
fn store(rt: &impl Abort, rows: &TileRows, picture: &[u8], samples: &mut [BlockSamples]) {
    let stored = readout::store(
        &mut piece(rt, rows, samples),
        0,
        picture,
        Format::Bgra8,
        256,
        true,
    );
    assert!(rt; stored.is_ok());
}

/// Whether a tile in each way is read out, stored and drawn as one whose blocks have planes of their own.
fn is_kept(rt: &impl Abort, alloc: Global, count: SampleCount) -> Result<bool, Fail> {
    let canvas = tile(rt, count);
    let rows = canvas.all();
    let mut samples = in_each_way(rt, alloc, &canvas)?;
    let mut own = filled(rt, &canvas, &samples)?;
    let before = read_out(rt, alloc, &rows, &samples)?;
    if before != read_out(rt, alloc, &rows, &own)? {
        return Ok(false);
    }
    let (picture, _, _) = before;
    store(rt, &rows, &picture, &mut samples);
    store(rt, &rows, &picture, &mut own);
    if read_out(rt, alloc, &rows, &samples)? != read_out(rt, alloc, &rows, &own)? {
        return Ok(false);
    }
    let triangles = Numbers { state: 3 }.triangles(rt, alloc, 3)?;
    piece(rt, &rows, &mut samples).draw(&stored(&triangles));
    piece(rt, &rows, &mut own).draw(&stored(&triangles));
    Ok(read_out(rt, alloc, &rows, &samples)? == read_out(rt, alloc, &rows, &own)?)
}

#[test]
fn keeps_blocks_in_each_way(rt: HostRuntime) -> Result<(), Fail> {
    for count in [SampleCount::One, SampleCount::Four, SampleCount::Sixteen] {
        assert!(rt; is_kept(&rt, rt.alloc(), count)?);
    }
    Ok(())
}
