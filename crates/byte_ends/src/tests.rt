//! Ends that give and take little at a time, that are interrupted, and that fail.
use super::*;
use std::io::{self, ErrorKind, Read, Write};
use std::test::Fail;

// Memory gives as many bytes at a pull as it was told, fails at the pull that it was told, and loses none.
#[test]
fn memory_as_a_source(rt: HostRuntime) -> Result<(), Fail> {
    let mut source = MemSource::new("abcde".as_bytes(), 2, Some(2));
    let mut into = [0; 4];
    assert_eq!(rt; source.pull(&mut into), Ok(2));
    assert_eq!(rt; &into[..2], "ab".as_bytes());
    assert_eq!(rt; source.pull(&mut into), Err(IoFail));
    assert_eq!(rt; source.pull(&mut into), Ok(2));
    assert_eq!(rt; &into[..2], "cd".as_bytes());
    assert_eq!(rt; source.pull(&mut into), Ok(1));
    assert_eq!(rt; &into[..1], "e".as_bytes());
    assert_eq!(rt; source.pull(&mut into), Ok(0));
    assert_eq!(rt; source.failures(), 1);
    Ok(())
}

// Memory takes as many bytes at a push as it was told, and fails once it is full.
#[test]
fn memory_as_a_sink(rt: HostRuntime) -> Result<(), Fail> {
    let mut sink = MemSink::new(rt.alloc(), 3, 2, false)?;
    assert_eq!(rt; sink.push("abcd".as_bytes()), Ok(2));
    assert_eq!(rt; sink.push("cd".as_bytes()), Ok(1));
    assert_eq!(rt; sink.push("d".as_bytes()), Err(IoFail));
    assert_eq!(rt; sink.push("".as_bytes()), Ok(0));
    assert_eq!(rt; sink.flush(), Ok(()));
    assert_eq!(rt; sink.taken(), "abc".as_bytes());
    assert_eq!(rt; sink.failures(), 1);
    Ok(())
}

// Memory that is told to fails at its flush.
#[test]
fn memory_that_fails_at_a_flush(rt: HostRuntime) -> Result<(), Fail> {
    let mut sink = MemSink::new(rt.alloc(), 1, 1, true)?;
    assert_eq!(rt; sink.flush(), Err(IoFail));
    assert_eq!(rt; sink.failures(), 1);
    Ok(())
}

// How often a read or a write is interrupted before it succeeds.
const INTERRUPTS: u32 = 1000;

// Interrupts each read and write so often.
#[derive(Drop)]
struct Interrupting<T: Drop> {
    inner: T,
    interrupts: u32,
}

impl<R: Read + Drop> Read for Interrupting<R> {
    fn read(&mut self, buf: &mut [u8]) -> io::Result<usize> {
        if self.interrupts < INTERRUPTS {
            self.interrupts += 1;
            return Err(io::Error::from(ErrorKind::Interrupted));
        }
        self.interrupts = 0;
        self.inner.read(buf)
    }
}

impl<W: Write + Drop> Write for Interrupting<W> {
    fn write(&mut self, buf: &[u8]) -> io::Result<usize> {
        if self.interrupts < INTERRUPTS {
            self.interrupts += 1;
            return Err(io::Error::from(ErrorKind::Interrupted));
        }
        self.interrupts = 0;
        self.inner.write(buf)
    }

    fn flush(&mut self) -> io::Result<()> {
        self.inner.flush()
    }
}

// A read that is interrupted is tried again, and is no failure.
#[test]
fn interrupted_reader(rt: HostRuntime) -> Result<(), Fail> {
    let mut source = FromReader::new(Interrupting {
        inner: "abc".as_bytes(),
        interrupts: 0,
    });
    let mut into = [0; 4];
    assert_eq!(rt; source.pull(&mut into), Ok(3));
    assert_eq!(rt; &into[..3], "abc".as_bytes());
    assert_eq!(rt; source.pull(&mut into), Ok(0));
    assert_eq!(rt; source.failures(), 0);
    Ok(())
}

// A write that is interrupted is tried again, and is no failure.
#[test]
fn interrupted_writer(rt: HostRuntime) -> Result<(), Fail> {
    let mut sink = FromWriter::new(Interrupting {
        inner: Vec::<u8>::new(rt.alloc()),
        interrupts: 0,
    });
    assert_eq!(rt; sink.push("abc".as_bytes()), Ok(3));
    assert_eq!(rt; sink.flush(), Ok(()));
    assert_eq!(rt; sink.failures(), 0);
    Ok(())
}

// Nothing pulled and nothing pushed is no failure.
#[test]
fn nothing_is_no_failure(rt: HostRuntime) -> Result<(), Fail> {
    let mut source = FromReader::new("abc".as_bytes());
    let mut nothing = [0; 0];
    assert_eq!(rt; source.pull(&mut nothing), Ok(0));
    assert_eq!(rt; source.failures(), 0);
    let mut sink = FromWriter::new(Vec::<u8>::new(rt.alloc()));
    assert_eq!(rt; sink.push("".as_bytes()), Ok(0));
    assert_eq!(rt; sink.failures(), 0);
    Ok(())
}

// Fails at its first read or write, and at no other.
#[derive(Drop)]
struct FailsOnce<T: Drop> {
    inner: T,
    failed: bool,
}

impl<R: Read + Drop> Read for FailsOnce<R> {
    fn read(&mut self, buf: &mut [u8]) -> io::Result<usize> {
        if !self.failed {
            self.failed = true;
            return Err(io::Error::from(ErrorKind::Other));
        }
        self.inner.read(buf)
    }
}

impl<W: Write + Drop> Write for FailsOnce<W> {
    fn write(&mut self, buf: &[u8]) -> io::Result<usize> {
        if !self.failed {
            self.failed = true;
            return Err(io::Error::from(ErrorKind::Other));
        }
        self.inner.write(buf)
    }

    fn flush(&mut self) -> io::Result<()> {
        self.inner.flush()
    }
}

// A read that fails isn't tried again: it is a failure, and the next pull is another read.
#[test]
fn failed_read(rt: HostRuntime) -> Result<(), Fail> {
    let mut source = FromReader::new(FailsOnce {
        inner: "abc".as_bytes(),
        failed: false,
    });
    let mut into = [0; 4];
    assert_eq!(rt; source.pull(&mut into), Err(IoFail));
    assert_eq!(rt; source.pull(&mut into), Ok(3));
    assert_eq!(rt; source.failures(), 1);
    Ok(())
}

// A write that fails isn't tried again either.
#[test]
fn failed_write(rt: HostRuntime) -> Result<(), Fail> {
    let mut sink = FromWriter::new(FailsOnce {
        inner: Vec::<u8>::new(rt.alloc()),
        failed: false,
    });
    assert_eq!(rt; sink.push("abc".as_bytes()), Err(IoFail));
    assert_eq!(rt; sink.push("abc".as_bytes()), Ok(3));
    assert_eq!(rt; sink.failures(), 1);
    Ok(())
}

// Takes at most a given number of bytes at a write, and says whether a flush succeeds.
#[derive(Drop)]
struct Limited {
    takes: usize,
    flushes: bool,
}

impl Write for Limited {
    fn write(&mut self, buf: &[u8]) -> io::Result<usize> {
        Ok(self.takes.min(buf.len()))
    }

    fn flush(&mut self) -> io::Result<()> {
        if self.flushes {
            return Ok(());
        }
        Err(io::Error::from(ErrorKind::Other))
    }
}

// A writer that takes nothing is a sink that fails, and so is one whose flush fails.
#[test]
fn failing_writer(rt: HostRuntime) -> Result<(), Fail> {
    for (takes, flushes, pushed, flushed, failures) in [
        (1, true, Ok(1), Ok(()), 0),
        (0, true, Err(IoFail), Ok(()), 1),
        (1, false, Ok(1), Err(IoFail), 1),
    ] {
        let mut sink = FromWriter::new(Limited { takes, flushes });
        assert_eq!(rt; sink.push("ab".as_bytes()), pushed, "{takes} {flushes}");
        assert_eq!(rt; sink.flush(), flushed, "{takes} {flushes}");
        assert_eq!(rt; sink.failures(), failures, "{takes} {flushes}");
    }
    Ok(())
}

// Answers each call with one kind of error, and counts the calls.
#[derive(Drop)]
struct Refusing {
    kind: ErrorKind,
    calls: u32,
}

impl Read for &mut Refusing {
    fn read(&mut self, _buf: &mut [u8]) -> io::Result<usize> {
        self.calls = self.calls.saturating_add(1);
        Err(io::Error::from(self.kind))
    }
}

impl Write for &mut Refusing {
    fn write(&mut self, _buf: &[u8]) -> io::Result<usize> {
        self.calls = self.calls.saturating_add(1);
        Err(io::Error::from(self.kind))
    }

    fn flush(&mut self) -> io::Result<()> {
        self.calls = self.calls.saturating_add(1);
        Err(io::Error::from(self.kind))
    }
}

// An end that would have to be waited for has failed: it is asked once, and not again.
#[test]
fn ends_that_would_wait(rt: HostRuntime) -> Result<(), Fail> {
    let mut end = Refusing {
        kind: ErrorKind::WouldBlock,
        calls: 0,
    };
    let mut into = [0; 4];
    assert_eq!(rt; FromReader::new(&mut end).pull(&mut into), Err(IoFail));
    assert_eq!(rt; end.calls, 1);
    assert_eq!(rt;
        FromWriter::new(&mut end).push("abc".as_bytes()),
        Err(IoFail)
    );
    assert_eq!(rt; end.calls, 2);
    Ok(())
}

// A flush is passed on after an earlier failure too, and one that is interrupted is a failure.
#[test]
fn flushes_that_fail(rt: HostRuntime) -> Result<(), Fail> {
    let mut end = Refusing {
        kind: ErrorKind::Interrupted,
        calls: 0,
    };
    let mut sink = FromWriter::new(&mut end);
    assert_eq!(rt; sink.flush(), Err(IoFail));
    assert_eq!(rt; sink.flush(), Err(IoFail));
    assert_eq!(rt; sink.failures(), 2);
    assert_eq!(rt; end.calls, 2);
    Ok(())
}

// Takes nothing, and counts the writes.
#[derive(Drop)]
struct TakesNothing {
    writes: u32,
}

impl Write for &mut TakesNothing {
    fn write(&mut self, _buf: &[u8]) -> io::Result<usize> {
        self.writes = self.writes.saturating_add(1);
        Ok(0)
    }

    fn flush(&mut self) -> io::Result<()> {
        Ok(())
    }
}

// A write that takes nothing isn't tried again, not even after an earlier failure.
#[test]
fn writes_of_nothing(rt: HostRuntime) -> Result<(), Fail> {
    let mut end = TakesNothing { writes: 0 };
    let mut sink = FromWriter::new(&mut end);
    assert_eq!(rt; sink.push("abc".as_bytes()), Err(IoFail));
    assert_eq!(rt; sink.push("abc".as_bytes()), Err(IoFail));
    assert_eq!(rt; sink.failures(), 2);
    assert_eq!(rt; end.writes, 2);
    Ok(())
}
