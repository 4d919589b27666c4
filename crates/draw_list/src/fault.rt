use grid::OutOfMemory;
use std::alloc::AllocError;

/// What is wrong with a draw list.
#[derive(Clone, Copy, Debug, PartialEq, Eq)]
pub enum ReadKind {
    /// The bytes are no UTF-8 or no JSON text that `serde_json` reads.
    NotJson,
    /// An object has a key that the format does not know.
    UnknownKey,
    /// An object lacks a key that it must have.
    MissingKey,
    /// A value is of another kind than its key asks for, or an array of another length.
    WrongKind,
    /// A number is outside of its range, or a string is none of the words.
    OutOfRange,
    /// A primitive names a vertex that its draw does not have.
    BadIndex,
    /// There are more draws, vertices or triangles than a draw list may have.
    TooMany,
    /// An allocation failed.
    OutOfMemory,
    /// A draw has more than one list of primitives.
    TwoLists,
    /// A quad is not strictly convex.
    NotConvex,
}

impl ReadKind {
    ghost use Rattle.std.specs.Prelude.{◌≡◌};
    ghost use Rattle.draw_list.specs.Fault.{kind_number, name_of};

    /// The fault's number, from 1.
    pub fn number(self) -> u32
        ensures { result ≡ kind_number self }
    {
        match self {
            ReadKind::NotJson => 1,
            ReadKind::UnknownKey => 2,
            ReadKind::MissingKey => 3,
            ReadKind::WrongKind => 4,
            ReadKind::OutOfRange => 5,
            ReadKind::BadIndex => 6,
            ReadKind::TooMany => 7,
            ReadKind::OutOfMemory => 8,
            ReadKind::TwoLists => 9,
            ReadKind::NotConvex => 10,
        }
    }

    /// The fault's name.
    pub fn name(self) -> &'static str
        ensures { result.now ≡ name_of self }
    {
        match self {
            ReadKind::NotJson => "NotJson",
            ReadKind::UnknownKey => "UnknownKey",
            ReadKind::MissingKey => "MissingKey",
            ReadKind::WrongKind => "WrongKind",
            ReadKind::OutOfRange => "OutOfRange",
            ReadKind::BadIndex => "BadIndex",
            ReadKind::TooMany => "TooMany",
            ReadKind::OutOfMemory => "OutOfMemory",
            ReadKind::TwoLists => "TwoLists",
            ReadKind::NotConvex => "NotConvex",
        }
    }
}

/// What is wrong with a draw list, and in which draw. A fault outside of the draws names none.
#[derive(Clone, Copy, Debug, PartialEq, Eq)]
pub struct ReadFault {
    /// What is wrong.
    pub kind: ReadKind,
    /// The draw's number in the list, from 0.
    pub draw: Option<u32>,
}

impl From<AllocError> for ReadKind {
    ghost use Rattle.std.specs.Prelude.{◌≡◌};
    ghost use Rattle.draw_list.specs.declared.fault.ReadKind.TheVariants.{OutOfMemory};

    ghost from_gives = { λ _ kind. kind ≡ OutOfMemory };

    fn from(_refused: AllocError) -> ReadKind {
        ReadKind::OutOfMemory
    }
}

impl From<ReadKind> for ReadFault {
    ghost use Rattle.std.specs.Prelude.{◌≡◌};
    ghost use Rattle.draw_list.specs.Fault.{outside as fault_outside};

    ghost from_gives = { λ kind fault. fault ≡ fault_outside kind };

    fn from(kind: ReadKind) -> ReadFault {
        ReadFault::outside(kind)
    }
}

impl From<OutOfMemory> for ReadFault {
    ghost use Rattle.std.specs.Prelude.{◌≡◌};
    ghost use Rattle.draw_list.specs.Fault.{outside as fault_outside};
    ghost use Rattle.draw_list.specs.declared.fault.ReadKind.TheVariants.{OutOfMemory};

    ghost from_gives = { λ _ fault. fault ≡ fault_outside OutOfMemory };

    fn from(_refused: OutOfMemory) -> ReadFault {
        ReadFault::outside(ReadKind::OutOfMemory)
    }
}

impl ReadFault {
    ghost use Rattle.std.specs.Prelude.{◌≡◌};
    ghost use Rattle.draw_list.specs.Fault.{outside as fault_outside, fault_in_draw};

    /// A fault of the list, outside of its draws.
    pub fn outside(kind: ReadKind) -> ReadFault
        ensures { result ≡ fault_outside kind }
    {
        ReadFault { kind, draw: None }
    }

    /// A fault of the draw of this number.
    pub fn in_draw(kind: ReadKind, number: u32) -> ReadFault
        ensures { result ≡ fault_in_draw number kind }
    {
        ReadFault {
            kind,
            draw: Some(number),
        }
    }
}
