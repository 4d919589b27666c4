//! A reader and a writer over memory that move few bytes a call, and fail.
use std::alloc::Global;
use std::io;
use std::io::{ErrorKind, Read, Write};

/// How a reader gives its text: at most this many bytes a call, and after so many calls each further one is an error.
#[derive(Clone, Copy, Debug)]
pub(crate) struct Reading {
    pub(crate) bytes_a_call: usize,
    pub(crate) calls: u64,
}

/// What a writer does if it has no room left.
#[derive(Clone, Copy, Debug)]
pub(crate) enum Full {
    Fails,
    TakesNothing,
}

/// How a writer takes bytes: at most this many a call, as long as it has room. It can be flushed, or not.
#[derive(Clone, Copy, Debug)]
pub(crate) struct Writing {
    pub(crate) bytes_a_call: usize,
    pub(crate) room: usize,
    pub(crate) full: Full,
    pub(crate) can_flush: bool,
}

/// A reader of a text.
#[derive(Drop)]
pub(crate) struct Source<'a> {
    text: &'a [u8],
    reading: Reading,
    has_failed: bool,
    /// How often it was called after it had failed.
    pub(crate) late_calls: u64,
}

impl<'a> Source<'a> {
    pub(crate) fn new(text: &'a [u8], reading: Reading) -> Source<'a> {
        Source {
            text,
            reading,
            has_failed: false,
            late_calls: 0,
        }
    }
}

impl Read for Source<'_> {
    fn read(&mut self, buffer: &mut [u8]) -> io::Result<usize> {
        if self.has_failed {
            self.late_calls = self.late_calls.wrapping_add(1);
        }
        if self.reading.calls == 0 {
            self.has_failed = true;
            // The kind that std's own loops call again.
            return Err(io::Error::from(ErrorKind::Interrupted));
        }
        self.reading.calls -= 1;
        let text = self.text;
        let count = buffer.len().min(self.reading.bytes_a_call).min(text.len());
        buffer[..count].copy_from_slice(&text[..count]);
        self.text = &text[count..];
        Ok(count)
    }
}

/// A writer that keeps what it takes.
#[derive(Drop)]
pub(crate) struct Sink {
    pub(crate) taken: Vec<u8>,
    writing: Writing,
    /// How often it was flushed.
    pub(crate) flushes: u64,
    has_failed: bool,
    /// How often it was called after it had failed or had taken nothing.
    pub(crate) late_calls: u64,
}

impl Sink {
    pub(crate) fn new(alloc: Global, writing: Writing) -> Sink {
        Sink {
            taken: Vec::new(alloc),
            writing,
            flushes: 0,
            has_failed: false,
            late_calls: 0,
        }
    }

    /// Counts a call that comes too late.
    fn count_call(&mut self) {
        if self.has_failed {
            self.late_calls = self.late_calls.wrapping_add(1);
        }
    }
}

impl Write for Sink {
    fn write(&mut self, bytes: &[u8]) -> io::Result<usize> {
        self.count_call();
        let left = self.writing.room.saturating_sub(self.taken.len());
        let count = bytes.len().min(self.writing.bytes_a_call).min(left);
        if count == 0 {
            self.has_failed = true;
            return match self.writing.full {
                Full::Fails => Err(io::Error::from(ErrorKind::Interrupted)),
                Full::TakesNothing => Ok(0),
            };
        }
        self.taken.extend_from_slice(&bytes[..count])?;
        Ok(count)
    }

    fn flush(&mut self) -> io::Result<()> {
        self.count_call();
        self.flushes = self.flushes.wrapping_add(1);
        if self.writing.can_flush {
            return Ok(());
        }
        self.has_failed = true;
        Err(io::Error::from(ErrorKind::Interrupted))
    }
}
