ghost use Rattle.std.specs.Prelude.{◌≡◌, ◌↔◌, IsOk, Option, ℕ};
ghost use Rattle.c_abi.specs.Errors.{alone, index_or_none, error_of};
ghost use Rattle.c_abi.specs.Calls.{IsReported};

use crate::call_error::CallError;

/// The index that stands for none.
pub const NONE: usize = usize::MAX;

/// Why a call failed, laid out as in C.
#[repr(C)]
#[derive(Clone, Copy, Debug, PartialEq, Eq)]
pub struct Error {
    /// The status of the call.
    pub status: u32,
    /// If the status is that of a list or of a batch, the number of its error, from 1; else 0.
    pub cause: u32,
    /// The index of the draw in which the error is, or `NONE`.
    pub draw: usize,
    /// Which one of the draw's indices, vertices or quads it is, or `NONE`.
    pub element: usize,
    /// If it is an index, its value, else `NONE`.
    pub value: usize,
}

/// The index, or the number that stands for none.
fn index_of(index: Option<usize>) -> usize
    ensures { result ≡ index_or_none index }
{
    match index {
        None => NONE,
        Some(index) => index,
    }
}

impl Error {
    /// An error of which the status says all; with the status 0 none.
    fn alone(status: u32) -> Error
        ensures { result ≡ alone status }
    {
        Error {
            status,
            cause: 0,
            draw: NONE,
            element: NONE,
            value: NONE,
        }
    }

    /// The error as the caller gets it.
    pub fn of(error: CallError) -> Error
        ensures { result ≡ error_of error }
    {
        let status = error.status.number();
        match error.fault {
            None => Error::alone(status),
            Some(fault) => Error {
                status,
                cause: fault.cause,
                draw: index_of(fault.draw),
                element: index_of(fault.element),
                value: index_of(fault.value),
            },
        }
    }
}

/// Writes how a call ended into the caller's error. Returns the status.
pub fn report(ended: Result<(), CallError>, error: &mut Error) -> u32
    ensures reported { IsReported ended result error.new }
    ensures done { result ≡ 0 ↔ IsOk ended }
{
    *error = match ended {
        Ok(()) => Error::alone(0),
        Err(failed) => Error::of(failed),
    };
    error.status
}
