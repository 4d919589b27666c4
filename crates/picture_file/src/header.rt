//! The headers of picture files.
ghost use Rattle.std.specs.Prelude.{◌≡◌, ◌+◌, ◌<◌, ◌≤◌, ◌++◌, length, decimal, codes, IfOk};
ghost use Rattle.arrayvec.specs.ArrayVec.{array_vec_len};
ghost use Rattle.picture_file.specs.File.{ppm_header as header_of_colours, pgm_header as header_of_depths, header_of};
ghost use Rattle.picture_file.specs.Writes.{WritesBytes};

use crate::counted::Counted;
use crate::write_all::WriteFault;
use arrayvec::ArrayVec;
use draw_list::{DrawList, Output};
use std::io::Write;

/// The length of the longest header, that of depths of 4096 by 4096, in bytes.
pub const HEADER_BYTES: usize = 19;

/// Appends a number in digits.
#[tactic(auto, using(std::proofs::lemmas::Fmt::decimal_digit))]
fn push_decimal(number: u32, text: &mut ArrayVec<u8, HEADER_BYTES>)
    requires { array_vec_len text.old + length (decimal number) ≤ 19 }
    ensures items { text.new.items ≡ text.old.items ++ decimal number }
    ensures len { array_vec_len text.new ≡ array_vec_len text.old + length (decimal number) }
{
    if number < 10 {
        text.push(b'0' + number as u8);
    } else {
        push_decimal(number / 10, text);
        text.push(b'0' + (number % 10) as u8);
    }
}

/// Appends a string.
fn push_text(more: &[u8], text: &mut ArrayVec<u8, HEADER_BYTES>)
    requires { array_vec_len text.old + length more.now ≤ 19 }
    ensures items { text.new.items ≡ text.old.items ++ more.now }
    ensures len { array_vec_len text.new ≡ array_vec_len text.old + length more.now }
{
    for byte in more {
        text.push(*byte);
    }
}

/// A header from the line with the magic number to the one with the greatest value.
#[tactic(auto, using(crate::proofs::Beginnings::decimal_short))]
fn header_text(magic: &[u8], width: u32, height: u32, greatest: &[u8]) -> ArrayVec<u8, HEADER_BYTES>
    requires size { (width ≤ 4096) × (height ≤ 4096) }
    requires magic { length magic.now ≤ 3 }
    requires greatest { length greatest.now ≤ 7 }
    ensures { result.items ≡ magic.now ++ decimal width ++ codes " " ++ decimal height ++ greatest.now }
{
    let mut text = ArrayVec::new();
    push_text(magic, &mut text);
    push_decimal(width, &mut text);
    push_text(b" ", &mut text);
    push_decimal(height, &mut text);
    push_text(greatest, &mut text);
    text
}

/// The header of a picture of this size that shows colours or depths.
fn picture_header(output: Output, width: u32, height: u32) -> ArrayVec<u8, HEADER_BYTES>
    requires { (width ≤ 4096) × (height ≤ 4096) }
    ensures { result.items ≡ header_of output width height }
{
    match output {
        Output::Color => header_text(b"P6\n", width, height, b"\n255\n"),
        Output::Depth => header_text(b"P5\n", width, height, b"\n65535\n"),
    }
}

/// The header of the file of a list's picture.
pub fn file_header(list: &DrawList) -> ArrayVec<u8, HEADER_BYTES>
    ensures { result.items ≡ header_of list.now.output list.now.width list.now.height }
{
    picture_header(list.output(), list.width(), list.height())
}

/// Writes the header of a picture that shows colours or depths, and returns its length.
pub fn write_header<W: Write>(
    output: Output,
    width: u32,
    height: u32,
    out: &mut Counted<W>,
) -> Result<u64, WriteFault>
    requires size { (1 ≤ width) × (width ≤ 4096) × (1 ≤ height) × (height ≤ 4096) }
    requires failures { out.old.failures < u64.MAX }
    ensures count { IfOk result (λ n. n ≡ length (header_of output width height)) }
    ensures short { IfOk result (λ n. n ≤ 19) }
    ensures bytes { WritesBytes (header_of output width height) 0 result (W.contents out.old.inner)
        (W.contents out.new.inner) out.old.failures out.new.failures }
{
    let header = picture_header(output, width, height);
    out.write_all(header.as_slice(), 0)
}

/// Writes the header of a picture of colours (binary PPM: Netpbm, ppm(5)), and returns its length.
pub fn ppm_header<W: Write>(
    width: u32,
    height: u32,
    out: &mut Counted<W>,
) -> Result<u64, WriteFault>
    requires size { (1 ≤ width) × (width ≤ 4096) × (1 ≤ height) × (height ≤ 4096) }
    requires failures { out.old.failures < u64.MAX }
    ensures count { IfOk result (λ n. n ≡ length (header_of_colours width height)) }
    ensures short { IfOk result (λ n. n ≤ 17) }
    ensures bytes { WritesBytes (header_of_colours width height) 0 result (W.contents out.old.inner)
        (W.contents out.new.inner) out.old.failures out.new.failures }
{
    write_header(Output::Color, width, height, out)
}

/// Writes the header of a picture of depths (binary PGM: Netpbm, pgm(5)), and returns its length.
pub fn pgm_header<W: Write>(
    width: u32,
    height: u32,
    out: &mut Counted<W>,
) -> Result<u64, WriteFault>
    requires size { (1 ≤ width) × (width ≤ 4096) × (1 ≤ height) × (height ≤ 4096) }
    requires failures { out.old.failures < u64.MAX }
    ensures count { IfOk result (λ n. n ≡ length (header_of_depths width height)) }
    ensures short { IfOk result (λ n. n ≤ 19) }
    ensures bytes { WritesBytes (header_of_depths width height) 0 result (W.contents out.old.inner)
        (W.contents out.new.inner) out.old.failures out.new.failures }
{
    write_header(Output::Depth, width, height, out)
}
