//! How far the reading of a trace is, on standard error: one line that is written over and over where that is a
//! terminal, and a line for each part elsewhere.

ghost use Rattle.std.specs.Prelude.{◌≡◌};

use crate::ending::Ending;
use crate::trace::{Trace, size_of_file};
use std::io::{ErrorKind, Read, Write};
use std::rt::Files;
use std::{fmt, io};

/// Where the size of the trace is known, a line comes each time that this part of it was read.
const PARTS: u64 = 20;

/// Where it is not, a line comes each time that so many bytes were read.
const STRIDE: u64 = 64 << 20;

/// A shorter trace is read within a moment. Nothing is told of it where that was not asked for.
const LONG: u64 = 4 << 20;

/// What a line says: this was done with so many bytes, of so many.
#[derive(Clone, Copy)]
struct Reading {
    done: &'static str,
    read: u64,
    /// All bytes that there are, where that is known.
    size: Option<u64>,
}

impl fmt::Display for Reading {
    fn fmt<W: fmt::Write>(&self, f: &mut fmt::Formatter<W>) -> fmt::Result {
        let Reading { done, read, size } = *self;
        match size {
            Some(size) if size > 0 => {
                let percent = u128::from(read) * 100 / u128::from(size);
                write!(f, "{done} {read} of {size} bytes, {percent}%")
            }
            _ => write!(f, "{done} {read} bytes"),
        }
    }
}

/// Clears the line that is written over.
pub fn clear<P: Eprint>(rt: &P) {
    let _ = eprint!(rt; "\r\x1b[K");
}

/// A reader that tells how many bytes it gave.
#[derive(Drop)]
pub struct Progress<'a, P, R> {
    rt: &'a P,
    reader: R,
    reading: Reading,
    /// So many bytes are read between two lines. Without it there are no lines.
    stride: Option<u64>,
    on_terminal: bool,
    /// The bytes that the last line told.
    told: u64,
}

impl<'a, P: Eprint, R> Progress<'a, P, R> {
    /// A reader that tells nothing.
    pub fn silent(rt: &'a P, reader: R) -> Progress<'a, P, R> {
        Progress {
            rt,
            reader,
            reading: Reading {
                done: "read",
                read: 0,
                size: None,
            },
            stride: None,
            on_terminal: false,
            told: 0,
        }
    }

    /// A reader that tells how much of these bytes it gave, and what is done with them.
    pub fn telling(
        rt: &'a P,
        reader: R,
        done: &'static str,
        size: Option<u64>,
        on_terminal: bool,
    ) -> Progress<'a, P, R> {
        let stride = match size {
            Some(size) => size / PARTS,
            None => STRIDE,
        };
        Progress {
            rt,
            reader,
            reading: Reading {
                done,
                read: 0,
                size,
            },
            stride: Some(stride),
            on_terminal,
            told: 0,
        }
    }

    /// Tells a line where one is due: a part was read, or the end came. A line that cannot be written is left out.
    fn tell(&mut self, count: usize)
        ensures { self.new.reader ≡ self.old.reader }
    {
        let Some(stride) = self.stride else {
            return;
        };
        let read = self.reading.read.saturating_add(count as u64);
        self.reading.read = read;
        let untold = read.saturating_sub(self.told);
        if untold > 0 && (untold >= stride || count == 0) {
            self.told = read;
            self.print();
        }
    }

    fn print(&self) {
        let reading = self.reading;
        let _ = if self.on_terminal {
            eprint!(self.rt; "\r{reading}\x1b[K")
        } else {
            eprintln!(self.rt; "{reading}")
        };
    }
}

/// The bytes that are left are those of the reader below, so what is proved of that one holds of this one.
impl<P: Eprint, R: Read> Read for Progress<'_, P, R> {
    ghost remaining = { λ p. R.remaining p.reader };

    fn read(&mut self, buf: &mut [u8]) -> io::Result<usize> {
        let count = self.reader.read(buf)?;
        self.tell(count);
        Ok(count)
    }
}

/// The reader of the trace at this path, which tells how far it is where that is asked for.
pub fn reader_of<'a, T: Eprint + Input + Files>(
    rt: &'a T,
    trace: &str,
    progress: bool,
    on_terminal: bool,
) -> Progress<'a, T, Trace<T::File, T::Reader>> {
    let reader = Trace::open(rt, trace);
    if progress {
        Progress::telling(rt, reader, "read", size_of_file(rt, trace), on_terminal)
    } else {
        Progress::silent(rt, reader)
    }
}

/// Whether a terminal is told of the reading of a file that has so many bytes without being asked for.
pub fn tells_by_itself(size: Option<u64>, on_terminal: bool) -> bool {
    match size {
        Some(size) => on_terminal && size >= LONG,
        None => false,
    }
}

/// The reader of a regular file, which tells what is done with the bytes, and how far it is, where standard error is a
/// terminal and the file is long.
pub fn reader_by_itself<'a, T: Eprint + Input + Files>(
    rt: &'a T,
    trace: &str,
    done: &'static str,
    on_terminal: bool,
) -> Progress<'a, T, Trace<T::File, T::Reader>> {
    let reader = Trace::open(rt, trace);
    let size = size_of_file(rt, trace);
    if tells_by_itself(size, on_terminal) {
        Progress::telling(rt, reader, done, size, true)
    } else {
        Progress::silent(rt, reader)
    }
}

/// Writes an answer. Where the terminal shows how far the reading is, that line is cleared first.
#[derive(Drop)]
pub struct Answer<'a, P, W> {
    rt: &'a P,
    writer: W,
    clears: bool,
    /// Why the last write failed that did.
    failure: Option<io::Error>,
}

impl<'a, P: Eprint, W> Answer<'a, P, W> {
    pub fn new(rt: &'a P, writer: W, clears: bool) -> Answer<'a, P, W> {
        Answer {
            rt,
            writer,
            clears,
            failure: None,
        }
    }

    /// How a command ends that wrote this answer: so, where it could be written.
    pub fn ending(&self, ending: Ending) -> io::Result<Ending> {
        match self.failure {
            Some(why) => Err(why),
            None => Ok(ending),
        }
    }
}

/// What was written is what the writer below has.
impl<P: Eprint, W: Write> Write for Answer<'_, P, W> {
    ghost contents = { λ a. W.contents a.writer };

    fn write(&mut self, buf: &[u8]) -> io::Result<usize> {
        if self.clears {
            self.clears = false;
            clear(self.rt);
        }
        let written = self.writer.write(buf);
        if let Err(why) = &written {
            // an interrupted write is made again
            if why.kind() != ErrorKind::Interrupted {
                self.failure = Some(*why);
            }
        }
        written
    }

    fn flush(&mut self) -> io::Result<()> {
        self.writer.flush()
    }
}
