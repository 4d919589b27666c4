//! The file of a list's picture: the header, and then tile row after tile row, from the top.
ghost use Rattle.std.specs.Prelude.{◌≡◌, ◌↔◌, ◌<◌, ◌≤◌, ℕ, OnOk, IfOk, IfErr, IsErrOf};
ghost use Rattle.grid.specs.Pixels.{side_of};
ghost use Rattle.engine.specs.Picture.{EndsRows, ExplainsPicture, fault_of};
ghost use Rattle.engine.specs.Runs.{WritesAll, WritesFile};
ghost use Rattle.engine.specs.declared.picture.PictureFault.TheVariants as picture;

use crate::fault::Fault;
use crate::options::Options;
use crate::picture_bytes::bytes_of_rows;
use bins::Bins;
use draw_list::DrawList;
use picture_file::{Counted, WriteFault, ppm_rows, write_header};
use pool::Gate;
use std::alloc::Global;
use std::io::Write;
use std::sync::Wait;
use std::thread::Threads;
use tile_rows::{Beside, InFlight, TileRows, rows_together};
use tiling::Tiling;

/// Why a picture's file was not written whole.
#[derive(Clone, Copy, Debug, PartialEq, Eq)]
pub enum PictureFault {
    /// The bytes of tile rows could not be allocated. Nothing was written.
    NotBegun,
    /// Memory ran out. The header and all tile rows before the one of this number, counted from the top, were written,
    /// each whole, and nothing else.
    OutOfMemory(u32),
    /// The writer failed after this many bytes of the file.
    WriteFailed(u64),
}

impl From<WriteFault> for PictureFault {
    ghost from_gives = { λ write fault. fault ≡ picture.WriteFailed write.written };

    fn from(fault: WriteFault) -> PictureFault {
        PictureFault::WriteFailed(fault.written)
    }
}

impl From<PictureFault> for Fault {
    ghost from_gives = { λ unwritten fault. fault ≡ fault_of unwritten };

    fn from(fault: PictureFault) -> Fault {
        match fault {
            PictureFault::NotBegun | PictureFault::OutOfMemory(_) => Fault::OutOfMemory,
            PictureFault::WriteFailed(written) => Fault::WriteFailed(written),
        }
    }
}

/// Draws tile rows on the calling thread, in one store, and writes each of them before the next one is drawn. `before`
/// bytes of the file were written earlier; returns how many are written after the call. Each row's bytes take the place
/// of those in `bytes`.
fn write_alone<W: Write, G: Gate>(
    alloc: Global,
    rows: TileRows,
    gate: &G,
    bytes: &mut Vec<u8>,
    before: u64,
    output: &mut Counted<W>,
) -> Result<u64, PictureFault>
    requires before { before ≤ 50331667 }
    requires some { rows.first < rows.end }
    requires failures { output.old.failures < u64.MAX }
    ensures { EndsRows rows.entry.list.now rows.entry.tiling.now.side rows.entry.first rows.entry.end before result
        (W.contents output.old.inner) (W.contents output.new.inner) output.old.failures output.new.failures }
{
    let Ok(mut store) = rows.store(alloc) else {
        return Err(PictureFault::OutOfMemory(rows.first()));
    };
    let mut bins = Bins::none(alloc);
    let mut written = before;
    for row in rows.first()..rows.end() {
        bytes.clear();
        let Ok(()) = rows
            .others(row, rows.end())
            .push_first(alloc, &mut store, &mut bins, gate, bytes)
        else {
            return Err(PictureFault::OutOfMemory(row));
        };
        written = ppm_rows(bytes, written, output)?;
    }
    Ok(written)
}

/// Draws tile rows by several workers, a batch of them at a time, and writes them. While a batch is drawn, the calling
/// thread puts the one above together, which is written then, and makes the bins of the one below. A batch for which an
/// allocation fails or a worker is not started is drawn by the calling thread.
fn write_together<R: Threads + Wait + Sync, W: Write, G: Gate>(
    rt: &R,
    alloc: Global,
    rows: TileRows,
    together: u32,
    workers: u32,
    gate: &G,
    mut bytes: Vec<u8>,
    before: u64,
    output: &mut Counted<W>,
) -> Result<u64, PictureFault>
    requires workers { (1 ≤ workers) × (workers ≤ 16) }
    requires together { (1 ≤ together) × (together ≤ 512) }
    requires before { before ≤ 19 }
    requires failures { output.old.failures < u64.MAX }
    ensures { EndsRows rows.entry.list.now rows.entry.tiling.now.side rows.entry.first rows.entry.end before result
        (W.contents output.old.inner) (W.contents output.new.inner) output.old.failures output.new.failures }
{
    // The tile rows before `above` are written, and those from there to before `first` are drawn.
    let mut above = rows.first();
    let mut first = rows.first();
    let mut tiles = Vec::new(alloc);
    let mut bins = None;
    let mut written = before;
    while first < rows.end() {
        let batch = rows.batch(first, together);
        let below = rows.batch(batch.end(), together);
        let in_flight = InFlight {
            above,
            tiles,
            bytes,
            bins,
        };
        let (drawn, Beside { joined, bins: next }) = batch.draw(
            rt,
            alloc,
            workers,
            gate,
            in_flight,
            below.end(),
        );
        let Ok(joined) = joined else {
            return Err(PictureFault::OutOfMemory(above));
        };
        written = ppm_rows(&joined, written, output)?;
        bytes = joined;
        // The batch above is written now, whatever came of this one.
        if let Ok(drawn) = drawn {
            tiles = drawn;
            above = first;
        } else {
            written = write_alone(alloc, batch, gate, &mut bytes, written, output)?;
            tiles = Vec::new(alloc);
            above = batch.end();
        }
        first = batch.end();
        bins = next;
    }
    let Ok(last) = rows.others(above, first).joined(tiles, bytes) else {
        return Err(PictureFault::OutOfMemory(above));
    };
    Ok(ppm_rows(&last, written, output)?)
}

/// Writes the header and all tile rows, and returns how many bytes they are.
fn write_rows<R: Threads + Wait + Sync, W: Write, G: Gate>(
    rt: &R,
    alloc: Global,
    list: &DrawList,
    options: Options,
    gate: &G,
    output: &mut Counted<W>,
) -> Result<u64, PictureFault>
    requires workers { (1 ≤ options.workers) × (options.workers ≤ 16) }
    requires failures { output.old.failures < u64.MAX }
    ensures file { IfOk result (λ count. WritesAll list.now count (W.contents output.old.inner)
        (W.contents output.new.inner)) }
    ensures fault { IfErr result (λ e. ExplainsPicture list.now options.tile e (W.contents output.old.inner)
        (W.contents output.new.inner)) }
    ensures write_failed { ((count : ℕ) × IsErrOf result (PictureFault.WriteFailed count)) ↔
        (output.old.failures < output.new.failures) }
    ensures same_failures { OnOk result (output.new.failures ≡ output.old.failures) }
{
    let tiling = Tiling::new(list.width(), list.height(), options.tile);
    let together = if options.workers == 1 {
        1
    } else {
        rows_together(&tiling)
    };
    let most_bytes = bytes_of_rows(list, options.tile, 0, together.min(tiling.rows()));
    let Ok(mut bytes) = Vec::with_capacity(alloc, most_bytes as usize) else {
        return Err(PictureFault::NotBegun);
    };
    let header = write_header(list.output(), list.width(), list.height(), output)?;
    let rows = TileRows::new(list, &tiling, 0, tiling.rows());
    // With one worker, or with a batch of one tile, nothing would be drawn concurrently.
    if options.workers == 1 || tiling.columns() * together == 1 {
        write_alone(alloc, rows, gate, &mut bytes, header, output)
    } else {
        write_together(
            rt,
            alloc,
            rows,
            together,
            options.workers,
            gate,
            bytes,
            header,
            output,
        )
    }
}

/// Draws a list's picture, writes its file, and flushes the output. Each worker passes through the gate before it draws
/// a tile. `run_with` is this after reading the list; a program that has a list, or draws one several times, calls
/// this.
pub fn write_picture<R: Threads + Wait + Sync, W: Write, G: Gate>(
    rt: &R,
    alloc: Global,
    list: &DrawList,
    options: Options,
    gate: &G,
    output: &mut Counted<W>,
) -> Result<(), PictureFault>
    requires workers { (1 ≤ options.workers) × (options.workers ≤ 16) }
    requires failures { output.old.failures < u64.MAX }
    ensures file { OnOk result (WritesFile list.now (W.contents output.old.inner) (W.contents output.new.inner)) }
    ensures fault { IfErr result (λ e. ExplainsPicture list.now options.tile e (W.contents output.old.inner)
        (W.contents output.new.inner)) }
    ensures write_failed { ((count : ℕ) × IsErrOf result (PictureFault.WriteFailed count)) ↔
        (output.old.failures < output.new.failures) }
{
    let length = write_rows(rt, alloc, list, options, gate, output)?;
    match output.flush() {
        Ok(()) => Ok(()),
        Err(_) => Err(PictureFault::WriteFailed(length)),
    }
}
