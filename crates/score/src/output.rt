//! The file that a command writes, and where its line goes.

use crate::ending::Ending;
use command_line::STANDARD;
use run_engine::{InputFault, Line};
use std::alloc::AllocError;
use std::fmt::Display;
use std::fs::File;
use std::io;
use std::io::{ErrorKind, Write};
use std::rt::Files;

/// A file that is written is named so, behind its own name, until it is whole.
const PART: &str = ".part";

/// So many names are tried for it.
const MOST_PARTS: u32 = 1000;

/// What a path to write to stands for.
#[derive(Clone, Copy)]
pub enum Target {
    StandardOutput,
    /// What is there is no regular file, as a device or a pipe. It is written to.
    Special,
    /// A regular file, or none yet. It is written beside its place and then renamed, so that the old one stays until
    /// the new one is whole.
    File,
}

/// What this path stands for.
pub fn target_of<T: Files>(rt: &T, out: &str) -> Target {
    if out == STANDARD {
        return Target::StandardOutput;
    }
    match std::fs::metadata(rt, out) {
        Ok(metadata) if !metadata.is_file() => Target::Special,
        _ => Target::File,
    }
}

/// Prints a line to standard output, or to standard error where the file goes to standard output.
pub fn tell<T: Print + Eprint>(rt: &T, out: &str, line: impl Display + Drop) -> io::Result<()> {
    if out == STANDARD {
        eprintln!(rt; "{line}")
    } else {
        println!(rt; "{line}")
    }
}

/// Tells why nothing was written, as `tell` does.
pub fn refuse<T: Print + Eprint>(
    rt: &T,
    out: &str,
    line: impl Display + Drop,
) -> io::Result<Ending> {
    tell(rt, out, line)?;
    Ok(Ending::Refused)
}

/// Tells that the file was not written, as `tell` does.
pub fn refuse_write<T: Print + Eprint>(rt: &T, out: &str, why: io::Error) -> io::Result<Ending> {
    if why.kind() == ErrorKind::OutOfMemory {
        return refuse(rt, out, Line::Refused(InputFault::Memory));
    }
    tell(rt, out, "refused write")?;
    Ok(Ending::Unwritten(why))
}

/// A file until it is whole, under a name of its own.
#[derive(Drop)]
pub struct Part<F> {
    pub name: String,
    pub file: F,
}

fn part_name<T: AllocGlobal>(rt: &T, out: &str, place: u32) -> Result<String, AllocError> {
    if place == 0 {
        format!(in rt.alloc(); "{out}{PART}")
    } else {
        format!(in rt.alloc(); "{out}.{place}{PART}")
    }
}

/// Makes a file beside this one. It was not there before, so nothing else writes to it.
pub fn create_part<T: Files + AllocGlobal>(rt: &T, out: &str) -> io::Result<Part<T::File>>
where
    T::File: Drop,
{
    for place in 0..MOST_PARTS {
        let name = part_name(rt, out, place)?;
        match File::create_new(rt, name.as_str()) {
            Ok(file) => return Ok(Part { name, file }),
            Err(e) if e.kind() == ErrorKind::AlreadyExists => {}
            Err(e) => return Err(e),
        }
    }
    Err(io::Error::from(ErrorKind::AlreadyExists))
}

/// Renames a file that was written under this name, or removes it where it is not whole.
pub fn finish<T: Files>(rt: &T, part: &str, out: &str, written: io::Result<()>) -> io::Result<()> {
    let done = written.and_then(|()| std::fs::rename(rt, part, out));
    if done.is_err() {
        let _ = std::fs::remove_file(rt, part);
    }
    done
}

/// Writes the bytes to standard output for `-`, and else to the file at this path.
pub fn put<T: Print + Files + AllocGlobal>(rt: &T, out: &str, bytes: &[u8]) -> io::Result<()>
where
    T::File: Drop,
{
    match target_of(rt, out) {
        Target::StandardOutput => io::writer(rt).write_all(bytes),
        Target::Special => std::fs::write(rt, out, bytes),
        Target::File => {
            let mut part = create_part(rt, out)?;
            let written = part.file.write_all(bytes);
            finish(rt, part.name.as_str(), out, written)
        }
    }
}
