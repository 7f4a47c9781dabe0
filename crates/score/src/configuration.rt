//! The file of the configuration and its text.

ghost use Rattle.std.specs.Prelude.{◌≤◌, IfOk, vec_len};

use command_line::STANDARD;
use run_engine::InputFault;
use std::alloc::Global;
use std::io;
use std::io::{ErrorKind, Read};
use std::rt::Files;

/// The most bytes that a configuration may have. All that one can say takes some hundreds, the rest is
/// room for comments.
pub const MOST_BYTES: u32 = 1 << 20;

/// All bytes of the reader where these are at most so many, and an error where there are more. One
/// byte above is read and no further, so a reader that never ends is refused too.
pub fn bytes_within<R: Read + Drop>(alloc: Global, reader: R, most: u32) -> io::Result<Vec<u8>>
    ensures short { IfOk result (λ bytes. vec_len bytes ≤ most) }
{
    let mut bytes = Vec::new(alloc);
    let mut front = reader.take(u64::from(most) + 1);
    front.read_to_end(&mut bytes)?;
    if bytes.len() > most as usize {
        return Err(io::Error::from(ErrorKind::FileTooLarge));
    }
    Ok(bytes)
}

/// The bytes of the configuration at this path, or of standard input for `-`.
pub fn bytes_at<T: Input + Files + AllocGlobal>(rt: &T, path: &str) -> io::Result<Vec<u8>>
where
    T::File: Drop,
{
    if path == STANDARD {
        return bytes_within(rt.alloc(), rt.reader(), MOST_BYTES);
    }
    bytes_within(rt.alloc(), std::fs::open(rt, path)?, MOST_BYTES)
}

/// The text that was read, or what is told where there is none: the file cannot be read or is too long, memory
/// ran out, or the bytes are not UTF-8.
pub fn text_in(read: &io::Result<Vec<u8>>) -> Result<&str, InputFault> {
    match read {
        Ok(bytes) => std::str::from_utf8(bytes.as_slice()).map_err(|_| InputFault::NotToml),
        Err(e) if e.kind() == ErrorKind::OutOfMemory => Err(InputFault::Memory),
        Err(_) => Err(InputFault::ReadConfig),
    }
}
