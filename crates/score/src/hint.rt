//! What a person is told of a refusal, or of an answer that could not be written: one line on standard error, where
//! that is a terminal.

use crate::ending::Ending;
use command_line::{Request, STANDARD, UsageFault};
use std::io;
use std::io::{ErrorKind, Read};
use std::rt::Files;

/// The first two bytes of a file of gzip.
const GZIP: u32 = 0x1f8b;

/// The first four bytes of a file of zstd.
const ZSTD: u32 = 0x28b5_2ffd;

/// Why a file is no input.
#[derive(Clone, Copy)]
enum InputTrouble {
    /// It cannot be read.
    Unread(io::Error),
    /// It is packed by this tool.
    Packed(&'static str),
}

/// By which tool a file is packed that begins so.
fn packer_of(first: [u8; 4]) -> Option<InputTrouble> {
    let first = u32::from_be_bytes(first);
    if first >> 16 == GZIP {
        Some(InputTrouble::Packed("gzip"))
    } else if first == ZSTD {
        Some(InputTrouble::Packed("zstd"))
    } else {
        None
    }
}

/// Why the file at this path is no input. Only a file or a folder is tried, since a pipe may wait.
fn trouble_with<T: Files>(rt: &T, path: &str) -> Option<InputTrouble>
where
    T::File: Drop,
{
    if path == STANDARD {
        return None;
    }
    match std::fs::metadata(rt, path) {
        Ok(metadata) if metadata.is_file() || metadata.is_dir() => {}
        Ok(_) => return None,
        Err(e) => return Some(InputTrouble::Unread(e)),
    }
    match std::fs::open(rt, path) {
        Ok(mut file) => {
            let mut first = [0u8; 4];
            match file.read(first.as_mut_slice()) {
                Ok(_) => packer_of(first),
                Err(e) => Some(InputTrouble::Unread(e)),
            }
        }
        Err(e) => Some(InputTrouble::Unread(e)),
    }
}

/// Tells why the file at this path is no input. Whether it did is the answer.
pub fn hint_of_input<T: Eprint + Files>(rt: &T, path: &str) -> io::Result<bool>
where
    T::File: Drop,
{
    match trouble_with(rt, path) {
        Some(InputTrouble::Unread(why)) => eprintln!(rt; "score: {path}: {why}")?,
        Some(InputTrouble::Packed(tool)) => {
            eprintln!(rt;
                "score: {path}: packed by {tool}; unpack it by {tool} -dc, and give - here"
            )?
        }
        None => return Ok(false),
    }
    Ok(true)
}

/// Tells of the first file that cannot be read or is packed, or which help has each answer.
fn hint_of_refusal<T: Eprint + Files>(rt: &T, request: &Request<'_>) -> io::Result<()>
where
    T::File: Drop,
{
    for input in &request.inputs() {
        let Some(path) = *input else {
            continue;
        };
        if hint_of_input(rt, path)? {
            return Ok(());
        }
    }
    let name = request.name();
    eprintln!(rt; "score: see score help {name}")
}

/// Tells why nothing was written to this path. Nothing is told of a pipe whose reader has ended: it has what it wants.
pub fn hint_of_writing<T: Eprint>(rt: &T, out: &str, why: io::Error) -> io::Result<()> {
    match why.kind() {
        ErrorKind::BrokenPipe => Ok(()),
        _ if out == STANDARD => eprintln!(rt; "score: standard output: {why}"),
        ErrorKind::Other => eprintln!(rt; "score: {out} is not written"),
        _ => eprintln!(rt; "score: {out}: {why}"),
    }
}

/// Tells what was wrong, where something was.
pub fn hint<T: Eprint + Files>(rt: &T, request: &Request<'_>, ending: &Ending) -> io::Result<()>
where
    T::File: Drop,
{
    match ending {
        Ending::Done | Ending::No => Ok(()),
        Ending::Refused => hint_of_refusal(rt, request),
        Ending::Unwritten(why) => {
            hint_of_writing(rt, request.output().unwrap_or(STANDARD), *why)
        }
    }
}

/// Tells what is wrong with these words.
pub fn hint_of_words<T: Eprint + AllocGlobal>(
    rt: &T,
    fault: &UsageFault,
    words: &[String],
) -> io::Result<()> {
    let line = fault.line(rt.alloc(), words)?;
    eprintln!(rt; "score: {line}")
}
