//! A reader or a writer, with how often it failed.
ghost use Rattle.std.specs.Prelude.{◌≡◌, ◌+◌, ◌<◌};
ghost use Rattle.std.specs.Io.{ReadsAtMost, WritesAtMost};
ghost use Rattle.std.specs.Io.KnownBytes.{Keeps, ReadConsumes, WriteAppends};
ghost use Rattle.picture_file.specs.Counted.{failed_call, failed_write};

use std::io;
use std::io::{Read, Write};
use std::marker::Model;

/// A reader or a writer, and how many of its calls failed.
#[derive(Drop)]
pub struct Counted<T> {
    inner: T,
    failures: u64,
}

impl<T> Model for Counted<T> {
    ghost use Rattle.picture_file.specs.Device.{Device};

    ghost Value = { Device T };

    ghost view = { λ c. record { inner = c.inner; failures = c.failures } };
}

impl<T> Counted<T> {
    pub fn new(inner: T) -> Counted<T>
        ensures inner { result.inner ≡ inner }
        ensures failures { result.failures ≡ 0 }
    {
        Counted { inner, failures: 0 }
    }

    pub fn into_inner(self) -> T
        ensures { result ≡ self.inner }
    {
        let Counted { inner, failures: _ } = self;
        inner
    }

    pub fn failures(&self) -> u64
        ensures { result ≡ self.now.failures }
    {
        self.failures
    }
}

impl<R: Read> Counted<R> {
    /// Reads from the reader. A failure is an error of the reader.
    pub fn read(&mut self, buffer: &mut [u8]) -> io::Result<usize>
        requires { self.old.failures < u64.MAX }
        ensures bound { ReadsAtMost result buffer.new }
        ensures bytes { ReadConsumes (R.remaining self.old.inner) (R.remaining self.new.inner) result buffer.new }
        ensures failures { self.new.failures ≡ self.old.failures + failed_call result }
    {
        let result = self.inner.read(buffer);
        if result.is_err() {
            self.failures += 1;
        }
        result
    }
}

impl<W: Write> Counted<W> {
    /// Writes to the writer. A failure is an error of the writer, or that it takes none of at least one byte.
    pub fn write(&mut self, bytes: &[u8]) -> io::Result<usize>
        requires { self.old.failures < u64.MAX }
        ensures bound { WritesAtMost result bytes.now }
        ensures bytes { WriteAppends (W.contents self.old.inner) (W.contents self.new.inner) result bytes.now }
        ensures failures { self.new.failures ≡ self.old.failures + failed_write result bytes.now }
    {
        let result = self.inner.write(bytes);
        match &result {
            Ok(0) if !bytes.is_empty() => self.failures += 1,
            Ok(_) => {}
            Err(_) => self.failures += 1,
        }
        result
    }

    /// Flushes the writer. A failure is an error of the writer.
    pub fn flush(&mut self) -> io::Result<()>
        requires { self.old.failures < u64.MAX }
        ensures bytes { Keeps (W.contents self.old.inner) (W.contents self.new.inner) }
        ensures failures { self.new.failures ≡ self.old.failures + failed_call result }
    {
        let result = self.inner.flush();
        if result.is_err() {
            self.failures += 1;
        }
        result
    }
}
