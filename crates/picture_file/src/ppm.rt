//! The picture file.
ghost use Rattle.std.specs.Prelude.{◌≡◌, ◌+◌, ◌*◌, ◌^◌, ◌<◌, ◌≤◌, length, IfOk};
ghost use Rattle.picture_file.specs.File.{ppm_file as file_of};
ghost use Rattle.picture_file.specs.Writes.{WritesBytes};

use crate::counted::Counted;
use crate::header::ppm_header;
use crate::write_all::WriteFault;
use std::io::Write;

/// Writes the bytes of rows of pixels, of colours or of depths. `before` bytes of the file were written earlier, and
/// the result is how many are written after the call.
pub fn ppm_rows<W: Write>(
    bytes: &[u8],
    before: u64,
    out: &mut Counted<W>,
) -> Result<u64, WriteFault>
    requires failures { out.old.failures < u64.MAX }
    requires before { before < 2 ^ 62 }
    ensures count { IfOk result (λ n. n ≡ before + length bytes.now) }
    ensures bytes { WritesBytes bytes.now before result (W.contents out.old.inner) (W.contents out.new.inner)
        out.old.failures out.new.failures }
{
    out.write_all(bytes, before)
}

/// Writes the file of a picture of colours.
pub fn write_ppm<W: Write>(
    width: u32,
    height: u32,
    pixels: &[u8],
    out: &mut Counted<W>,
) -> Result<(), WriteFault>
    requires size { (1 ≤ width) × (width ≤ 4096) × (1 ≤ height) × (height ≤ 4096) }
    requires pixels { length pixels.now ≡ 3 * (height * width) }
    requires failures { out.old.failures < u64.MAX }
    ensures { WritesBytes (file_of width height pixels.now) 0 result (W.contents out.old.inner)
        (W.contents out.new.inner) out.old.failures out.new.failures }
{
    let header = ppm_header(width, height, out)?;
    ppm_rows(pixels, header, out)?;
    Ok(())
}
