//! All of some bytes, by as many writes as it takes.
ghost use Rattle.std.specs.Prelude.{◌≡◌, ◌+◌, ◌^◌, ◌<◌, length, IfOk};
ghost use Rattle.picture_file.specs.Writes.{WritesBytes};

use crate::counted::Counted;
use std::io::Write;

/// A write failed. `written` is how many bytes of the file were written before it.
#[derive(Clone, Copy, Debug, PartialEq, Eq)]
pub struct WriteFault {
    pub written: u64,
}

impl<W: Write> Counted<W> {
    /// Writes all bytes. `before` bytes of the file were written earlier, and the result is how many are written after
    /// the call. After a write that failed, no other is made.
    pub fn write_all(&mut self, bytes: &[u8], before: u64) -> Result<u64, WriteFault>
        requires failures { self.old.failures < u64.MAX }
        requires before { before < 2 ^ 62 }
        ensures count { IfOk result (λ n. n ≡ before + length bytes.now) }
        ensures bytes { WritesBytes bytes.now before result (W.contents self.old.inner) (W.contents self.new.inner)
            self.old.failures self.new.failures }
    {
        let mut sent = 0;
        while sent < bytes.len() {
            match self.write(&bytes[sent..]) {
                Ok(count) if count > 0 => sent += count,
                _ => {
                    return Err(WriteFault {
                        written: before + sent as u64,
                    });
                }
            }
        }
        Ok(before + sent as u64)
    }
}
