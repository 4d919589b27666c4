use crate::fault::Fault;
use crate::status::Status;
use draw_list::{ReadFault, ReadKind};
use grid::OutOfMemory;

/// Why a call failed: its status, and of what is no draw list or no batch the first error in it.
#[derive(Clone, Copy, Debug, PartialEq, Eq)]
pub struct CallError {
    /// The status.
    pub status: Status,
    /// The error of the list or batch if the status is `BadList` or `BadBatch`, else none.
    pub fault: Option<Fault>,
}

impl CallError {
    ghost use Rattle.std.specs.Prelude.{◌≡◌};
    ghost use Rattle.c_abi.specs.Errors.{of_list, of_batch};

    /// The error of what is no list.
    pub fn of_list(fault: ReadFault) -> CallError
        ensures { result ≡ of_list fault }
    {
        CallError {
            status: Status::BadList,
            fault: Some(Fault::of_list(fault)),
        }
    }

    /// The error of a batch that cannot be drawn.
    pub fn of_batch(fault: Fault) -> CallError
        ensures { result ≡ of_batch fault }
    {
        CallError {
            status: Status::BadBatch,
            fault: Some(fault),
        }
    }
}

impl From<Status> for CallError {
    ghost use Rattle.std.specs.Prelude.{◌≡◌};
    ghost use Rattle.c_abi.specs.Errors.{of_status};

    ghost from_gives = { λ status error. error ≡ of_status status };

    fn from(status: Status) -> CallError {
        CallError {
            status,
            fault: None,
        }
    }
}

impl From<ReadFault> for CallError {
    ghost use Rattle.c_abi.specs.Errors.{IsOfFault};

    ghost from_gives = { IsOfFault };

    fn from(fault: ReadFault) -> CallError {
        match fault.kind {
            ReadKind::OutOfMemory => CallError::from(Status::OutOfMemory),
            _ => CallError::of_list(fault),
        }
    }
}

impl From<OutOfMemory> for CallError {
    ghost use Rattle.std.specs.Prelude.{◌≡◌};
    ghost use Rattle.c_abi.specs.declared.status.Status.TheVariants.{OutOfMemory};
    ghost use Rattle.c_abi.specs.Errors.{of_status};

    ghost from_gives = { λ _ error. error ≡ of_status OutOfMemory };

    fn from(_refused: OutOfMemory) -> CallError {
        CallError::from(Status::OutOfMemory)
    }
}
