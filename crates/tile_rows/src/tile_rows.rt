//! Tile rows that are drawn together, by several workers or on the calling thread, and put together.
ghost use Rattle.std.specs.Prelude.{◌≡◌, ◌+◌, ◌-◌, ◌*◌, ◌<◌, ◌≤◌, min, IfOk, OnOk, IfErr, IfSome, IsTrue};
ghost use Rattle.tiling.specs.Grid.{rows_of};

use bins::Bins;
use draw_list::DrawList;
use grid::OutOfMemory;
use pool::{Desks, Gate, Job, PoolFault, run_beside};
use std::alloc::Global;
use std::sync::Wait;
use std::thread::Threads;
use tile::{Store, render};
use tiling::{TilePixels, TileRow, Tiling};

/// The most pixels in a batch of more than one tile row: as many as one tile row of the widest picture has with the
/// largest tiles.
const MAX_PIXELS: u32 = 262_144;

/// The most tile rows that one thread draws from bins that were made together.
const MOST_ROWS: u32 = 4;

/// The least number of batches of a picture that has as many tile rows, so that the whole of it never stands in memory.
const MIN_BATCHES: u32 = 8;

/// How many tile rows several workers draw together. Threads are started and joined for each batch, so a batch of a
/// narrow picture has more than one tile row.
pub fn rows_together(tiling: &Tiling) -> u32
    ensures least { 1 ≤ result }
    ensures greatest { result ≤ 512 }
{
    let row = tiling.width() * tiling.side().pixels();
    let most = (tiling.rows() / MIN_BATCHES).max(1);
    (MAX_PIXELS / row).clamp(1, most)
}

/// The tile rows of a picture from `first` to before `end`, counted from the top; none if the two are equal.
#[derive(Clone, Copy)]
pub struct TileRows<'a> {
    /// The draw list whose picture they are of.
    pub list: &'a DrawList,
    /// The tiles of the picture.
    pub tiling: &'a Tiling,
    /// The first tile row, counted from the top.
    pub first: u32,
    /// The tile row behind the last one.
    pub end: u32,
    pub ghost width: { tiling.now.width ≡ list.now.width },
    pub ghost height: { tiling.now.height ≡ list.now.height },
    pub ghost size: { (list.now.width ≤ 4096) × (list.now.height ≤ 4096) },
    pub ghost order: { first ≤ end },
    pub ghost within: { end ≤ rows_of tiling.now },
    pub ghost few: { end ≤ 512 },
}

/// The tiles of tile rows as numbered work: they are counted row by row, and a tile may begin once a worker has entered
/// the gate for it.
#[derive(Drop)]
struct TileJob<'a, G> {
    rows: &'a TileRows<'a>,
    bins: &'a Bins,
    gate: &'a G,
}

impl<G: Gate> Job for TileJob<'_, G> {
    type Out = TilePixels;

    type Scratch = Store;

    ghost use Rattle.std.specs.Prelude.{ℕ};
    ghost use Rattle.tiling.specs.Tiles.{IsTileIn};
    ghost use Rattle.tile_rows.specs.TileRows.{HaveBinsOf, tiles_in};

    ghost right = { λ job n pixels. IsTileIn job.rows.now.list.now job.rows.now.tiling.now job.rows.now.first n pixels };

    ghost fits = { λ job store. store ≡
        record { side = job.rows.now.tiling.now.side; count = job.rows.now.list.now.count } };

    ghost can_work = { λ job n. (n < tiles_in job.rows.now) × HaveBinsOf job.rows.now job.bins.now ×
        ((worker : ℕ) × G.entered job.gate.now worker n) };

    fn scratch(&self, alloc: Global) -> Result<Store, OutOfMemory> {
        self.rows.store(alloc)
    }

    fn work(&self, alloc: Global, n: u32, store: &mut Store) -> Result<TilePixels, OutOfMemory> {
        let rows = self.rows;
        let k = rows.first * rows.tiling.columns() + n;
        render(alloc, rows.list, rows.tiling, self.bins, k, store)
    }
}

/// What moves from one batch of tile rows to the next.
#[derive(Drop)]
pub struct InFlight {
    /// The first tile row of which nothing is written. From there on to the batch all are drawn.
    pub above: u32,
    /// The tiles of these tile rows.
    pub tiles: Vec<TilePixels>,
    /// Bytes that are no longer needed, in whose place those of these tile rows come.
    pub bytes: Vec<u8>,
    /// The bins of the batch, if they are made.
    pub bins: Option<Bins>,
}

/// What the calling thread made while tile rows were drawn.
#[derive(Drop)]
pub struct Beside {
    /// The bytes of the tile rows above.
    pub joined: Result<Vec<u8>, OutOfMemory>,
    /// The bins of the tile rows below, if there are some and no allocation failed.
    pub bins: Option<Bins>,
}

impl<'a> TileRows<'a> {
    ghost use Rattle.tiling.specs.TileRow.{AddsTileRows};
    ghost use Rattle.tiling.specs.Tiles.{AreTiles};
    ghost use Rattle.bins.specs.Bin.{AreBinsFrom, AreOfTiles};
    ghost use Rattle.tile_rows.specs.TileRows.{AreBinsOf, AreBytesOf, AreTilesOf, HaveBins, HaveBinsOf, IsBeside, tiles_in};

    /// The tile rows of this list's picture from `first` to before `end`.
    pub fn new(list: &'a DrawList, tiling: &'a Tiling, first: u32, end: u32) -> TileRows<'a>
        requires width { tiling.now.width ≡ list.now.width }
        requires height { tiling.now.height ≡ list.now.height }
        requires size { (list.now.width ≤ 4096) × (list.now.height ≤ 4096) }
        requires order { first ≤ end }
        requires within { end ≤ rows_of tiling.now }
        requires few { end ≤ 512 }
        ensures { (result.list.now ≡ list.now) × (result.tiling.now ≡ tiling.now) × (result.first ≡ first) ×
            (result.end ≡ end) }
    {
        TileRows {
            list,
            tiling,
            first,
            end,
        }
    }

    /// The tile rows of the same picture from `first` to before `end`.
    pub fn others(&self, first: u32, end: u32) -> TileRows<'a>
        requires order { first ≤ end }
        requires within { end ≤ rows_of self.now.tiling.now }
        ensures { (result.list.now ≡ self.now.list.now) × (result.tiling.now ≡ self.now.tiling.now) ×
            (result.first ≡ first) × (result.end ≡ end) }
    {
        TileRows::new(self.list, self.tiling, first, end)
    }

    /// The next `most` of them from `first` on, or all that are left.
    pub fn batch(&self, first: u32, most: u32) -> TileRows<'a>
        requires first { first ≤ self.now.end }
        requires most { most ≤ 512 }
        ensures { (result.list.now ≡ self.now.list.now) × (result.tiling.now ≡ self.now.tiling.now) ×
            (result.first ≡ first) × (result.end ≡ min self.now.end (first + most)) }
    {
        self.others(first, self.end.min(first + most))
    }

    /// The first of them.
    pub fn first(&self) -> u32
        ensures { result ≡ self.now.first }
    {
        self.first
    }

    /// The tile row behind the last of them.
    pub fn end(&self) -> u32
        ensures { result ≡ self.now.end }
    {
        self.end
    }

    /// How many they are.
    fn rows(&self) -> u32
        ensures { result ≡ self.now.end - self.now.first }
    {
        self.end - self.first
    }

    /// How many tiles they have.
    fn tiles(&self) -> u32
        ensures value { result ≡ tiles_in self.now }
        ensures greatest { result ≤ 262144 }
    {
        self.rows() * self.tiling.columns()
    }

    /// A store for one tile.
    pub fn store(&self, alloc: Global) -> Result<Store, OutOfMemory>
        ensures { IfOk result (λ store. store ≡
            record { side = self.now.tiling.now.side; count = self.now.list.now.count }) }
    {
        Store::new(alloc, self.tiling.side(), self.list.count())
    }

    /// The bins of their tiles.
    fn bins(&self, alloc: Global) -> Result<Bins, OutOfMemory>
        ensures { IfOk result (AreBinsOf self.now) }
    {
        Bins::build(alloc, self.list, self.tiling, self.first, self.rows())
    }

    /// Puts the tiles together, row by row, behind the bytes that are there.
    fn join(&self, tiles: &[TilePixels], bytes: &mut Vec<u8>) -> Result<(), OutOfMemory>
        requires { AreTilesOf self.now tiles.now }
        ensures bytes { OnOk result (AddsTileRows self.now.list.now self.now.tiling.now.side self.now.first self.now.end
            bytes.old.items bytes.new.items) }
        ensures refused { IfErr result (λ _. self.now.first < self.now.end) }
    {
        let columns = self.tiling.columns() as usize;
        for row in self.first..self.end {
            let start = (row - self.first) as usize * columns;
            let tile_row = TileRow::new(self.list, self.tiling, row);
            tile_row.join(&tiles[start..start + columns], bytes)?;
        }
        Ok(())
    }

    /// The bytes of the rows of pixels that these tiles make, in place of the bytes that are given.
    pub fn joined(&self, tiles: Vec<TilePixels>, mut bytes: Vec<u8>) -> Result<Vec<u8>, OutOfMemory>
        requires { AreTilesOf self.now tiles.items }
        ensures bytes { IfOk result (λ bytes. AreBytesOf self.now bytes.items) }
        ensures refused { IfErr result (λ _. self.now.first < self.now.end) }
    {
        bytes.clear();
        self.join(&tiles, &mut bytes)?;
        Ok(bytes)
    }

    /// What the calling thread does while workers draw these tile rows. It puts the tiles of those above, from `above`
    /// on, together in place of the bytes that are given, and makes the bins of those below, to before `below`. If
    /// these bins cannot be allocated, they are made when their turn comes.
    fn beside(
        &self,
        alloc: Global,
        above: u32,
        tiles: Vec<TilePixels>,
        bytes: Vec<u8>,
        below: u32,
    ) -> Beside
        requires above { above ≤ self.now.first }
        requires tiles { AreTiles self.now.list.now self.now.tiling.now above self.now.first tiles.items }
        requires below { (self.now.end ≤ below) × (below ≤ rows_of self.now.tiling.now) }
        ensures { IsBeside self.now above below result }
    {
        Beside {
            joined: self.others(above, self.first).joined(tiles, bytes),
            bins: if self.end < below {
                self.others(self.end, below).bins(alloc).ok()
            } else {
                None
            },
        }
    }

    /// Has the tiles drawn by this many workers, or by one for each tile if there are fewer tiles. Their bins are made
    /// if they are not given. Meanwhile, and also if an allocation fails or a worker is not started, the calling thread
    /// does the work of `beside`.
    pub fn draw<R: Threads + Wait + Sync, G: Gate>(
        &self,
        rt: &R,
        alloc: Global,
        workers: u32,
        gate: &G,
        in_flight: InFlight,
        below: u32,
    ) -> (Result<Vec<TilePixels>, PoolFault>, Beside)
        requires workers { (1 ≤ workers) × (workers ≤ 16) }
        requires bins { IfSome in_flight.bins (AreBinsOf self.now) }
        requires above { in_flight.above ≤ self.now.first }
        requires tiles { AreTiles self.now.list.now self.now.tiling.now in_flight.above self.now.first
            in_flight.tiles.items }
        requires below { (self.now.end ≤ below) × (below ≤ rows_of self.now.tiling.now) }
        ensures tiles { IfOk result.0 (λ tiles. AreTilesOf self.now tiles.items) }
        ensures beside { IsBeside self.now in_flight.above below result.1 }
    {
        let InFlight {
            above,
            tiles,
            bytes,
            bins,
        } = in_flight;
        let bins = match bins {
            Some(bins) => bins,
            None => match self.bins(alloc) {
                Ok(bins) => bins,
                Err(OutOfMemory) => {
                    let beside = self.beside(alloc, above, tiles, bytes, below);
                    return (Err(PoolFault::OutOfMemory), beside);
                }
            },
        };
        let job = TileJob {
            rows: &*self,
            bins: &bins,
            gate: &*gate,
        };
        // A worker without a tile would be a thread started for nothing.
        let workers = workers.min(self.tiles()).max(1);
        let (list, tiling, first, end) = (self.list, self.tiling, self.first, self.end);
        let beside = || TileRows::new(list, tiling, first, end).beside(
            alloc, above, tiles, bytes, below,
        );
        run_beside::<_, Desks, _, _, _, _>(rt, alloc, self.tiles(), workers, &job, gate, beside)
    }

    /// Draws the tiles one after another on the calling thread, in this store. It passes through the gate as the worker
    /// with number 0 would.
    fn draw_alone<G: Gate>(
        &self,
        alloc: Global,
        store: &mut Store,
        gate: &G,
        bins: &Bins,
    ) -> Result<Vec<TilePixels>, OutOfMemory>
        requires store { store.old ≡ record { side = self.now.tiling.now.side; count = self.now.list.now.count } }
        requires bins { HaveBinsOf self.now bins.now }
        ensures tiles { IfOk result (λ tiles. AreTilesOf self.now tiles.items) }
        ensures store { store.new ≡ store.old }
    {
        let job = TileJob {
            rows: &*self,
            bins: &*bins,
            gate: &*gate,
        };
        let count = self.tiles();
        let mut tiles = Vec::with_capacity(alloc, count as usize)?;
        for n in 0..count {
            gate.enter(0, n);
            tiles.push_reserved(job.work(alloc, n, store)?);
        }
        Ok(tiles)
    }

    /// Whether each tile of the first of them has a bin there.
    fn has_first(&self, bins: &Bins) -> bool
        requires some { self.now.first < self.now.end }
        requires bins { AreOfTiles self.now.list.now self.now.tiling.now bins.now }
        ensures { IsTrue result →
            HaveBins self.now.list.now self.now.tiling.now self.now.first (self.now.first + 1) bins.now }
    {
        let columns = self.tiling.columns();
        let first = self.first * columns;
        bins.has(first) && bins.has(first + (columns - 1))
    }

    /// The bins of the first of them, and of some that follow if there is memory for these.
    fn first_bins(&self, alloc: Global) -> Result<Bins, OutOfMemory>
        requires { self.now.first < self.now.end }
        ensures { IfOk result (AreBinsFrom self.now.list.now self.now.tiling.now self.now.first) }
    {
        let rows = self.rows().min(MOST_ROWS);
        match Bins::build_some(alloc, self.list, self.tiling, self.first, rows) {
            Ok(bins) => Ok(bins),
            Err(OutOfMemory) => Bins::build_some(alloc, self.list, self.tiling, self.first, 1),
        }
    }

    /// Sees to it that the first of them has its bins. Those that were made for the tile rows before are kept if they
    /// have them; else they are freed, and others take their place.
    fn make_ready(&self, alloc: Global, bins: &mut Bins) -> Result<(), OutOfMemory>
        requires some { self.now.first < self.now.end }
        requires bins { AreOfTiles self.now.list.now self.now.tiling.now bins.old }
        ensures first { OnOk result
            (HaveBins self.now.list.now self.now.tiling.now self.now.first (self.now.first + 1) bins.new) }
        ensures bins { AreOfTiles self.now.list.now self.now.tiling.now bins.new }
    {
        if self.has_first(bins) {
            return Ok(());
        }
        // Memory never holds both.
        *bins = Bins::none(alloc);
        *bins = self.first_bins(alloc)?;
        Ok(())
    }

    /// Draws the tiles of the first of them on the calling thread, in this store, and appends the bytes of its rows of
    /// pixels. The bins are none, or those with which the tile row before was drawn. If they are not those of this tile
    /// row, others are made in their place, which may be those of some that follow too.
    pub fn push_first<G: Gate>(
        &self,
        alloc: Global,
        store: &mut Store,
        bins: &mut Bins,
        gate: &G,
        bytes: &mut Vec<u8>,
    ) -> Result<(), OutOfMemory>
        requires some { self.now.first < self.now.end }
        requires store { store.old ≡ record { side = self.now.tiling.now.side; count = self.now.list.now.count } }
        requires bins { AreOfTiles self.now.list.now self.now.tiling.now bins.old }
        ensures bytes { OnOk result (AddsTileRows self.now.list.now self.now.tiling.now.side self.now.first
            (self.now.first + 1) bytes.old.items bytes.new.items) }
        ensures store { store.new ≡ store.old }
        ensures bins { AreOfTiles self.now.list.now self.now.tiling.now bins.new }
    {
        self.make_ready(alloc, bins)?;
        let row = self.others(self.first, self.first + 1);
        let tiles = row.draw_alone(alloc, store, gate, bins)?;
        row.join(&tiles, bytes)?;
        Ok(())
    }
}
