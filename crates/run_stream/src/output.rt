//! Writes bytes whole.

ghost use Rattle.std.specs.Prelude.{◌≡◌, ◌<◌, ◌↔◌, ℕ, take, OnOk, OnErr, IsErr};
ghost use Rattle.run_stream.specs.Account.{WentOut};
ghost use Rattle.run_stream.specs.Counted.{failures_of, account_of};

use crate::counted::Counted;
use std::io::Write;
use thiserror::Error;

/// A write failed, or took nothing.
#[derive(Clone, Copy, Debug, PartialEq, Eq, Error)]
#[error("the bytes could not be written")]
pub struct NotWritten;

/// Writes all of the bytes. A write that is interrupted is a failed one too.
pub fn put<W: Write>(writer: &mut Counted<W>, bytes: &[u8]) -> Result<(), NotWritten>
    requires { failures_of writer.old ≡ 0 }
    ensures whole { OnOk result
        (WentOut (account_of W.contents writer.old) (account_of W.contents writer.new) bytes.now) }
    ensures failed { IsErr result ↔ (0 < failures_of writer.new) }
    ensures prefix { OnErr result ((n : ℕ) ×
        WentOut (account_of W.contents writer.old) (account_of W.contents writer.new) (take n bytes.now)) }
{
    let mut rest = bytes;
    while !rest.is_empty() {
        match writer.write(rest) {
            Ok(0) => return Err(NotWritten),
            Ok(n) => rest = &rest[n..],
            Err(_) => return Err(NotWritten),
        }
    }
    Ok(())
}
