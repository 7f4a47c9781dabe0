//! What a stream of bytes is read from.

ghost use Rattle.std.specs.Io.{ReadsAtMost};
ghost use Rattle.run_stream.specs.Account.{Account, IsRead};
ghost use Rattle.run_stream.specs.Counted.{account_of};

use crate::counted::Counted;
use std::io;
use std::io::Read;

/// A reader with an account of its calls, for contracts alone.
///
/// Code over any such reader sees the account through this call alone, so what is proved of it holds for each account
/// that a reader may keep.
pub trait Source {
    ghost account: { Self → Account };

    /// Reads once, as `Read::read` does.
    fn pull(&mut self, buffer: &mut [u8]) -> io::Result<usize>
        ensures bound { ReadsAtMost result buffer.new }
        ensures read { IsRead (account self.old) (account self.new) result buffer.new };
}

impl<R: Read> Source for Counted<R> {
    ghost account = { account_of R.remaining };

    fn pull(&mut self, buffer: &mut [u8]) -> io::Result<usize> {
        self.read(buffer)
    }
}
