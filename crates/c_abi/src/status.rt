ghost use Rattle.std.specs.Prelude.{◌≡◌, ◌↔◌, ◌<◌, ◌≤◌, length, IsOk, IfSome, MatchResult};
ghost use Rattle.c_abi.specs.Statuses.{status_number, status_text};

use grid::OutOfMemory;

/// Why a call failed, by its number in C. A number never changes its meaning. A call that succeeds has the status 0.
#[derive(Clone, Copy, Debug, PartialEq, Eq)]
pub enum Status {
    // generated: statuses
    /// The text is no draw list: `cause` and `draw` of the error say why and where.
    BadList = 1,
    /// The draw list has more than 67,108,864 bytes.
    InputTooLong = 2,
    /// `malloc` or `realloc` returned NULL.
    OutOfMemory = 3,
    /// The buffer has fewer bytes than the call would write, or its rows are too short.
    BufferTooSmall = 4,
    /// The tile size is none of 8, 16, 32 and 64.
    BadTileSize = 5,
    /// The picture or the canvas has no such tile rows: the call says which it takes.
    BadTileRows = 6,
    /// A size member is neither 0 nor the library's own.
    BadStructSize = 7,
    /// No such canvas: the members of `trirast_canvas` say which sides, samples and channels it has.
    BadCanvas = 8,
    /// The memory of the samples is not of the size that the tile rows need, NULL or misaligned, or the canvas was
    /// never initialized.
    BadMemory = 9,
    /// The number is not that of a format.
    BadFormat = 10,
    /// A pixel has no sample of this index: 0 to its samples less 1.
    BadSample = 11,
    /// A position is outside of -8388608 to 8388607 in 1/256 pixel, or an origin outside of -32768 to 28672 pixels.
    BadPosition = 12,
    /// The picture has no such pixel.
    BadPixel = 13,
    /// The list has no such draw, or the draw no such triangle.
    BadTriangle = 14,
    /// The batch cannot be drawn: `cause`, `draw` and `element` of the error say why and where.
    BadBatch = 15,
    /// A stride is too short, too long or no multiple of 4 bytes or of an entry, as the call says; 0 is always right.
    BadStride = 16,
    /// The tile rows have no such tile.
    BadTile = 17,
    /// An index has none of these sizes: 2 or 4 bytes.
    BadIndexSize = 18,
    // end of statuses
}

impl Status {
    /// Its number.
    pub fn number(self) -> u32
        ensures value { result ≡ status_number self }
        ensures some { 0 < result }
    {
        self as u32
    }

    /// The status with this number.
    pub fn of_number(number: u32) -> Option<Status>
        ensures { IfSome result (λ status. status_number status ≡ number) }
    {
        let status = match number {
            // generated: numbers
            1 => Status::BadList,
            2 => Status::InputTooLong,
            3 => Status::OutOfMemory,
            4 => Status::BufferTooSmall,
            5 => Status::BadTileSize,
            6 => Status::BadTileRows,
            7 => Status::BadStructSize,
            8 => Status::BadCanvas,
            9 => Status::BadMemory,
            10 => Status::BadFormat,
            11 => Status::BadSample,
            12 => Status::BadPosition,
            13 => Status::BadPixel,
            14 => Status::BadTriangle,
            15 => Status::BadBatch,
            16 => Status::BadStride,
            17 => Status::BadTile,
            18 => Status::BadIndexSize,
            // end of numbers
            _ => return None,
        };
        Some(status)
    }

    /// What it says, as the header and the bindings have it too.
    pub fn text(self) -> &'static str
        ensures value { result.now ≡ status_text self }
        ensures short { length result.now ≤ 32 }
    {
        match self {
            // generated: texts
            Status::BadList => "not a draw list",
            Status::InputTooLong => "input too long",
            Status::OutOfMemory => "out of memory",
            Status::BufferTooSmall => "buffer too small",
            Status::BadTileSize => "no such tile size",
            Status::BadTileRows => "no such tile rows",
            Status::BadStructSize => "wrong struct size",
            Status::BadCanvas => "no such canvas",
            Status::BadMemory => "wrong memory",
            Status::BadFormat => "no such format",
            Status::BadSample => "no such sample",
            Status::BadPosition => "position out of range",
            Status::BadPixel => "no such pixel",
            Status::BadTriangle => "no such triangle",
            Status::BadBatch => "wrong batch",
            Status::BadStride => "wrong stride",
            Status::BadTile => "no such tile",
            Status::BadIndexSize => "no such index size",
            // end of texts
        }
    }
}

impl From<OutOfMemory> for Status {
    ghost use Rattle.std.specs.Prelude.{◌≡◌};
    ghost use Rattle.c_abi.specs.declared.status.Status.TheVariants as all;

    ghost from_gives = { λ _ status. status ≡ all.OutOfMemory };

    fn from(_refused: OutOfMemory) -> Status {
        Status::OutOfMemory
    }
}

/// The status of a call that ended so: 0 if it succeeded.
pub fn status_of(ended: Result<(), Status>) -> u32
    ensures ended { MatchResult ended (λ done. result ≡ 0) (λ failed. result ≡ status_number failed) }
    ensures done { result ≡ 0 ↔ IsOk ended }
{
    match ended {
        Ok(()) => 0,
        Err(failed) => failed.number(),
    }
}
