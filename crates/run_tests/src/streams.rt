//! Readers and writers that are interrupted and that fail.

use std::io;
use std::io::{ErrorKind, Read, Write};

/// Is interrupted some times, then gives its bytes in pieces, and fails at one read.
#[derive(Drop)]
pub struct Pieces<'a> {
    pub bytes: &'a [u8],
    pub size: usize,
    pub interruptions: u32,
    pub reads_before_failure: u32,
}

impl<'a> Pieces<'a> {
    /// Pieces of at most so many bytes, and no failure.
    pub fn new(bytes: &'a [u8], size: usize) -> Self {
        Pieces {
            bytes,
            size,
            interruptions: 0,
            reads_before_failure: u32::MAX,
        }
    }
}

impl Read for Pieces<'_> {
    fn read(&mut self, buf: &mut [u8]) -> io::Result<usize> {
        if self.reads_before_failure == 0 {
            return Err(io::Error::from(ErrorKind::Other));
        }
        self.reads_before_failure -= 1;
        if self.interruptions > 0 {
            self.interruptions -= 1;
            return Err(io::Error::from(ErrorKind::Interrupted));
        }
        let n = self.size.min(buf.len()).min(self.bytes.len());
        let (now, later) = self.bytes.split_at(n);
        buf[..n].copy_from_slice(now);
        self.bytes = later;
        Ok(n)
    }
}

/// Gives its first bytes, and then the same ones again and again. It never ends.
#[derive(Drop)]
pub struct Endless<'a> {
    pub rest: &'a [u8],
    pub again: &'a [u8],
}

impl Read for Endless<'_> {
    fn read(&mut self, buf: &mut [u8]) -> io::Result<usize> {
        if self.rest.is_empty() {
            self.rest = self.again;
        }
        let n = buf.len().min(self.rest.len());
        let (now, later) = self.rest.split_at(n);
        buf[..n].copy_from_slice(now);
        self.rest = later;
        Ok(n)
    }
}

/// Takes so many bytes, and then fails, or takes nothing where it has no failure.
#[derive(Drop)]
pub struct Sink {
    pub taken: Vec<u8>,
    pub room: usize,
    pub failure: Option<ErrorKind>,
}

impl Write for Sink {
    fn write(&mut self, buf: &[u8]) -> io::Result<usize> {
        if self.room == 0 {
            return match self.failure {
                None => Ok(0),
                Some(kind) => Err(io::Error::from(kind)),
            };
        }
        let n = self.room.min(buf.len());
        self.taken.extend_from_slice(&buf[..n])?;
        self.room -= n;
        Ok(n)
    }

    fn flush(&mut self) -> io::Result<()> {
        Ok(())
    }
}
