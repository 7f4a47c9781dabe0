//! What a reader has to give.

ghost use Rattle.std.specs.Prelude.{◌≡◌, ◌<◌, ◌+◌, ◌^◌, ◌++◌, ◌↔◌, ℕ, List, [], length, string_bytes, OnOk, IfOk};
ghost use Rattle.std.specs.Prelude.{IsTrue};
ghost use Rattle.lf_rules.specs.Fits.{Bytes};
ghost use Rattle.lf_rules.specs.declared.event.Record.{Record};
ghost use Rattle.lf_codec.specs.Reader.{HasRead};
ghost use Rattle.text_dump.specs.Dump.{HasFault};
ghost use Rattle.wave_signals.specs.Wave.{drawn_after, wave_from};

use lf_codec::{CodecCause, Reader, fault_so_far};
use lf_rules::NoMemory;
use wave_order::Clock;
use wave_signals::Wave;

/// Hands the reader a piece, and tells whether a fault stands in what it was fed so far. `NoMemory` says
/// that a growth was refused.
pub fn feed(reader: &mut Reader, piece: &[u8]) -> Result<bool, NoMemory>
    ensures read { (bytes : List ℕ) (memory : List (ℕ × Bytes)) (records : List Record) →
        HasRead reader.old bytes memory records → OnOk result (HasRead reader.new (bytes ++ piece.now) memory records) }
    ensures enough { (bytes : List ℕ) (memory : List (ℕ × Bytes)) (records : List Record) →
        HasRead reader.old bytes memory records →
        IfOk result (λ enough. IsTrue enough ↔ HasFault (bytes ++ piece.now)) }
{
    fault_so_far();
    match reader.feed(piece) {
        Ok(()) => Ok(false),
        Err(told) => match told.fault().cause {
            CodecCause::NoMemory => Err(NoMemory),
            _ => Ok(true),
        },
    }
}

/// Lets all memory records go.
pub fn drop_memory(reader: &mut Reader)
    ensures { reader.new ≡ record reader.old { memory = [] } }
{
    'all: while let Some(_) = reader.take_memory() {}
}

/// Lets all event records go.
pub fn drop_records(reader: &mut Reader)
    ensures { reader.new ≡ record reader.old { records = [] } }
{
    'all: while let Some(_) = reader.take() {}
}

/// Takes all event records, and puts what is shown of them behind the text.
pub fn put_records(
    reader: &mut Reader,
    times: &Option<Clock>,
    wave: &mut Wave,
    text: &mut String,
) -> Result<(), NoMemory>
    requires { wave.old.place + length reader.old.records < 2 ^ 63 }
    ensures taken { OnOk result (reader.new ≡ record reader.old { records = [] }) }
    ensures shown { OnOk result (string_bytes text.new ≡ string_bytes text.old
        ++ wave_from times.now wave.old reader.old.records) }
    ensures wave { OnOk result (wave.new ≡ drawn_after wave.old reader.old.records) }
{
    while let Some(item) = reader.take() {
        wave.put(times, &item, text)?;
    }
    Ok(())
}
