//! A reader or a writer, with an account of the calls that were made on it.

ghost use Rattle.std.specs.Prelude.{◌≡◌, []};
ghost use Rattle.std.specs.Io.{ReadsAtMost, WritesAtMost};
ghost use Rattle.std.specs.Io.KnownBytes.{ReadConsumes, WriteAppends, Keeps};
ghost use Rattle.run_stream.specs.Account.{one_more, Moves, CountsRead, CountsWrite, CountsFlush};
ghost use Rattle.run_stream.specs.Counted.{calls_of, failures_of, pieces_of, inner_of};

use crate::pieces::Pieces;
use std::io;
use std::io::{ErrorKind, Read, Write};

/// Hands each call on to the inner value once, and answers what that answered. Both counts are 0
/// at first, and stay at the last number of their type. For contracts alone it remembers what each call
/// moved.
#[derive(Drop)]
pub struct Counted<T> {
    inner: T,
    calls: u64,
    failures: u64,
    pieces: Pieces,
}

impl<T> Counted<T> {
    /// No call was made yet.
    pub fn new(inner: T) -> Self
        ensures inner { inner_of result ≡ inner }
        ensures calls { calls_of result ≡ 0 }
        ensures failures { failures_of result ≡ 0 }
        ensures pieces { pieces_of result ≡ [] }
    {
        Counted {
            inner,
            calls: 0,
            failures: 0,
            pieces: Pieces::new(),
        }
    }

    /// How many calls were made.
    pub fn calls(&self) -> u64
        ensures { result ≡ calls_of self.now }
    {
        self.calls
    }

    /// How many of them failed: by an error other than an interrupted read, or by a write that took nothing.
    pub fn failures(&self) -> u64
        ensures { result ≡ failures_of self.now }
    {
        self.failures
    }

    /// The reader or the writer that the calls went to.
    pub fn inner(&self) -> &T
        ensures { result.now ≡ inner_of self.now }
    {
        &self.inner
    }

    fn count_call(&mut self)
        ensures { self.new ≡ record self.old { calls = one_more (calls_of self.old) } }
    {
        self.calls = next(self.calls);
    }

    fn count_failure(&mut self)
        ensures { self.new ≡ record self.old { failures = one_more (failures_of self.old) } }
    {
        self.failures = next(self.failures);
    }
}

/// One more, up to the last number.
fn next(count: u64) -> u64
    ensures { result ≡ one_more count }
{
    count.saturating_add(1)
}

impl<R: Read> Read for Counted<R> {
    ghost remaining = { λ c. R.remaining (inner_of c) };

    fn read(&mut self, buf: &mut [u8]) -> io::Result<usize>
        ensures bound { ReadsAtMost result buf.new }
        ensures bytes { ReadConsumes (R.remaining (inner_of self.old)) (R.remaining (inner_of self.new))
            result buf.new }
        ensures calls { calls_of self.new ≡ one_more (calls_of self.old) }
        ensures failures { CountsRead (failures_of self.old) (failures_of self.new) result }
        ensures answered { Moves (pieces_of self.old) (pieces_of self.new) result buf.new }
    {
        self.count_call();
        let answer = self.inner.read(buf);
        match &answer {
            Ok(n) => self.pieces.add(&buf[..*n]),
            Err(e) => {
                if e.kind() != ErrorKind::Interrupted {
                    self.count_failure();
                }
            }
        }
        answer
    }
}

impl<W: Write> Write for Counted<W> {
    ghost contents = { λ c. W.contents (inner_of c) };

    fn write(&mut self, buf: &[u8]) -> io::Result<usize>
        ensures bound { WritesAtMost result buf.now }
        ensures bytes { WriteAppends (W.contents (inner_of self.old)) (W.contents (inner_of self.new)) result buf.now }
        ensures calls { calls_of self.new ≡ one_more (calls_of self.old) }
        ensures failures { CountsWrite (failures_of self.old) (failures_of self.new) result }
        ensures taken { Moves (pieces_of self.old) (pieces_of self.new) result buf.now }
    {
        self.count_call();
        let answer = self.inner.write(buf);
        match &answer {
            Ok(n) => {
                self.pieces.add(&buf[..*n]);
                if *n == 0 {
                    self.count_failure();
                }
            }
            Err(_) => self.count_failure(),
        }
        answer
    }

    fn flush(&mut self) -> io::Result<()>
        ensures bytes { Keeps (W.contents (inner_of self.old)) (W.contents (inner_of self.new)) }
        ensures calls { calls_of self.new ≡ one_more (calls_of self.old) }
        ensures failures { CountsFlush (failures_of self.old) (failures_of self.new) result }
        ensures taken { pieces_of self.new ≡ pieces_of self.old }
    {
        self.count_call();
        let answer = self.inner.flush();
        if answer.is_err() {
            self.count_failure();
        }
        answer
    }
}
