//! Reads a stream piece by piece.

ghost use Rattle.std.specs.Prelude.{◌≡◌, ◌≤◌, ◌<◌, ◌↔◌, ◌++◌, ℕ, List, [], length};
ghost use Rattle.std.specs.Prelude.{IfOk, IfErr, OnOk, OnErr, IsErrOf, IsTrue};
ghost use Rattle.run_stream.specs.Account.{Account};
ghost use Rattle.run_stream.specs.Gathered.{IsPartRead, IsAllRead, GoesOn, GoesOnToLast, OfReading};
ghost use Rattle.run_stream.specs.declared.gathering.Stop.{Stop};

use crate::source::Source;
use std::io::ErrorKind;

/// Why the bytes of a stream are not all there.
#[derive(Clone, Copy, Debug, PartialEq, Eq)]
pub enum Stop<E> {
    /// A read failed.
    Read,
    /// All turns were used up, and one more read was needed.
    Turns,
    /// The sink took no more.
    Sink(E),
}

/// What is fed the pieces of a stream, one after another.
pub trait Sink {
    /// What stays while it is fed.
    type Setting;
    /// Why it takes no more.
    type Fault;

    ghost setting: { Self → Self.Setting };

    // It was fed these bytes and no others.
    ghost fed: { Self → List ℕ → Type 0 };

    // Under this setting no more are wanted after these bytes.
    ghost has_enough: { Self.Setting → List ℕ → Type 0 };

    /// Takes one more piece, and tells whether what it was fed is enough.
    fn feed(&mut self, piece: &[u8]) -> Result<bool, Self::Fault>
        ensures setting { setting self.new ≡ setting self.old }
        ensures fed { (bytes : List ℕ) → fed self.old bytes → OnOk result (fed self.new (bytes ++ piece.now)) }
        ensures enough { (bytes : List ℕ) → fed self.old bytes → IfOk result (λ enough.
            IsTrue enough ↔ has_enough (setting self.old) (bytes ++ piece.now)) };
}

/// Reads pieces, each at most as long as the buffer, and feeds them to the sink, until a read answers no
/// bytes or what was read is enough. Each read is a turn, also one that is interrupted, which is tried
/// again.
pub fn gather<S: Source, F: Sink>(
    source: &mut S,
    buffer: &mut [u8],
    sink: &mut F,
    turns: u32,
) -> Result<(), Stop<F::Fault>>
    requires calls { (S.account source.old).calls ≡ 0 }
    requires failures { (S.account source.old).failures ≡ 0 }
    requires room { 0 < length buffer.old }
    requires fresh { F.fed sink.old [] }
    requires wanted { ¬ F.has_enough (F.setting sink.old) [] }
    ensures reads { (S.account source.new).calls ≤ turns }
    ensures setting { F.setting sink.new ≡ F.setting sink.old }
    ensures all { OnOk result ((bytes : List ℕ) × F.fed sink.new bytes × IsAllRead
        (F.has_enough (F.setting sink.old)) (length buffer.old) (S.account source.old) (S.account source.new) bytes) }
    ensures part { IfErr result (λ e. OfReading e ((bytes : List ℕ) × F.fed sink.new bytes × IsPartRead
        (F.has_enough (F.setting sink.old)) (S.account source.old) (S.account source.new) bytes)) }
    ensures read { IsErrOf result Stop.Read ↔ (0 < (S.account source.new).failures) }
    ensures turns { IsErrOf result Stop.Turns → (S.account source.new).calls ≡ turns }
    // A read that answers no bytes is the last one, and then there is no fault.
    ensures once { OnOk result (GoesOnToLast (S.account source.old).pieces (S.account source.new).pieces) }
    ensures unended { OnErr result (GoesOn (S.account source.old).pieces (S.account source.new).pieces) }
{
    for _turn in 0..turns {
        match source.pull(buffer) {
            Ok(0) => return Ok(()),
            Ok(n) => match sink.feed(&buffer[..n]) {
                Ok(false) => {}
                Ok(true) => return Ok(()),
                Err(fault) => return Err(Stop::Sink(fault)),
            },
            Err(e) => {
                if e.kind() != ErrorKind::Interrupted {
                    return Err(Stop::Read);
                }
            }
        }
    }
    Err(Stop::Turns)
}
