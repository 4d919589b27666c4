//! From the bytes of a draw list to the bytes of its picture: the engine, and the program.
#![tactic(auto)]

mod program;

pub use engine::{
    Fault, Options, PictureFault, draw, draw_rows, read_input, read_list, run, run_with,
    write_picture,
};
pub use picture_file::{
    Counted, HEADER_BYTES, WriteFault, file_header, pgm_header, ppm_header, ppm_rows, write_ppm,
};
pub use program::{USAGE, command};
pub use program_input::{
    FaultLine, LINE_BYTES, LineFault, as_slices, fault_line, options, own_arguments, refuse_with,
    run_program,
};
