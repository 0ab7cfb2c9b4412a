//! Any reader as a source, and any writer as a sink.
ghost use Rattle.std.specs.Prelude.{◌≡◌};
ghost use Rattle.byte_ends.specs.Adapters.{source_over, sink_over};

use crate::ends::{IoFail, Sink, Source};
use std::io::{ErrorKind, Read, Write};

/// A reader as a source. It tells the bytes that it has left if the reader does.
#[derive(Drop)]
pub struct FromReader<R: Read + Drop> {
    inner: R,
    failures: u64,
}

impl<R: Read + Drop> FromReader<R> {
    /// A source over this reader, which hasn't failed. A read that is interrupted is tried again.
    pub fn new(inner: R) -> FromReader<R>
        ensures { result ≡ source_over inner }
    {
        FromReader { inner, failures: 0 }
    }
}

impl<R: Read + Drop> Source for FromReader<R> {
    ghost left = { λ s. R.remaining s.inner };

    ghost failed = { λ s. s.failures };

    fn pull(&mut self, into: &mut [u8]) -> Result<usize, IoFail> {
        for _ in 0..u64::MAX {
            match self.inner.read(into) {
                Ok(count) => return Ok(count),
                Err(error) if error.kind() == ErrorKind::Interrupted => {}
                Err(_) => break,
            }
        }
        self.failures += 1;
        Err(IoFail)
    }

    fn failures(&self) -> u64 {
        self.failures
    }
}

/// A writer as a sink. It tells the bytes that it has taken if the writer does.
#[derive(Drop)]
pub struct FromWriter<W: Write + Drop> {
    inner: W,
    failures: u64,
}

impl<W: Write + Drop> FromWriter<W> {
    /// A sink over this writer, which hasn't failed. A write that is interrupted is tried again, and one
    /// that takes none of some bytes is a failure.
    pub fn new(inner: W) -> FromWriter<W>
        ensures { result ≡ sink_over inner }
    {
        FromWriter { inner, failures: 0 }
    }
}

impl<W: Write + Drop> Sink for FromWriter<W> {
    ghost taken = { λ s. W.contents s.inner };

    ghost failed = { λ s. s.failures };

    fn push(&mut self, bytes: &[u8]) -> Result<usize, IoFail> {
        for _ in 0..u64::MAX {
            match self.inner.write(bytes) {
                Ok(count) if count > 0 || bytes.is_empty() => return Ok(count),
                Err(error) if error.kind() == ErrorKind::Interrupted => {}
                _ => break,
            }
        }
        self.failures += 1;
        Err(IoFail)
    }

    fn flush(&mut self) -> Result<(), IoFail> {
        match self.inner.flush() {
            Ok(()) => Ok(()),
            Err(_) => {
                self.failures += 1;
                Err(IoFail)
            }
        }
    }

    fn failures(&self) -> u64 {
        self.failures
    }
}
