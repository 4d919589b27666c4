use draw_list::ReadFault;

/// What is wrong with a list or a batch, and where, by numbers.
#[derive(Clone, Copy, Debug, PartialEq, Eq)]
pub struct Fault {
    /// The number of the cause, as the status counts them.
    pub cause: u32,
    /// The index of the draw in which it is, or `None`.
    pub draw: Option<usize>,
    /// Which one of the draw's indices, vertices or quads it is, or `None`.
    pub element: Option<usize>,
    /// If it is an index, its value, else `None`.
    pub value: Option<usize>,
}

impl Fault {
    ghost use Rattle.std.specs.Prelude.{◌≡◌};
    ghost use Rattle.c_abi.specs.Errors.{list_fault};

    /// What is wrong with a list.
    pub(crate) fn of_list(fault: ReadFault) -> Fault
        ensures { result ≡ list_fault fault }
    {
        Fault {
            cause: fault.kind.number(),
            draw: match fault.draw {
                None => None,
                Some(draw) => Some(draw as usize),
            },
            element: None,
            value: None,
        }
    }
}
