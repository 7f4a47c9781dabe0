//! The trace to be judged.

use command_line::STANDARD;
use std::io;
use std::io::{ErrorKind, Read};
use std::rt::Files;

/// A file, standard input, or a file that could not be opened, whose reads fail.
#[derive(Drop)]
pub enum Trace<F, I> {
    Open(F),
    Input(I),
    /// What each read answers.
    Failed(ErrorKind),
}

impl<F, I> Trace<F, I> {
    /// The file at this path, or standard input for `-`.
    pub fn open<R: Files<File = F> + Input<Reader = I>>(rt: &R, path: &str) -> Trace<F, I> {
        if path == STANDARD {
            return Trace::Input(rt.reader());
        }
        match std::fs::open(rt, path) {
            Ok(file) => Trace::Open(file),
            Err(e) => Trace::Failed(e.kind()),
        }
    }
}

impl<F: Read, I: Read> Read for Trace<F, I> {
    fn read(&mut self, buf: &mut [u8]) -> io::Result<usize> {
        match self {
            Trace::Open(file) => file.read(buf),
            Trace::Input(input) => input.read(buf),
            Trace::Failed(kind) => Err(io::Error::from(*kind)),
        }
    }
}

/// How many bytes the file at this path has, where it is a regular one.
pub fn size_of_file<R: Files>(files: &R, path: &str) -> Option<u64> {
    if path == STANDARD {
        return None;
    }
    let metadata = std::fs::metadata(files, path).ok()?;
    if metadata.is_file() {
        Some(metadata.len())
    } else {
        None
    }
}
