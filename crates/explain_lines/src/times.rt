//! The times of records.

ghost use Rattle.std.specs.Prelude.{◌≡◌, ◌⊎◌, ℕ, Some, [], OnOk, IfOk, IfErr, if◌then◌else◌, ◌==◌, ◌&&◌};
ghost use Rattle.std.specs.Prelude.{string_bytes, None};
ghost use Rattle.std.specs.Option.{option_map};
ghost use Rattle.std.specs.Str.Lines.{lines};
ghost use Rattle.explain_lines.specs.declared.fault.MapCause.TheVariants.{OutOfMemory};
ghost use Rattle.explain_lines.specs.Map.{time_at, time_of, map_fault, fault_from, time_in, IsMapOf};
ghost use Rattle.explain_lines.specs.Steps.{Adds, texts};

use crate::fault::{MapCause, MapFault};
use crate::line::{Entry, read_line};
use std::alloc::{AllocError, Global};
use std::collections::BTreeMap;

/// The times of records, each under the number of its log and its place there.
type Entries = BTreeMap<(u8, u64), String>;

/// The times that a map tells.
#[derive(Drop)]
pub struct Times {
    entries: Entries,
}

/// Sets the time of the record at a place of a log.
fn put(times: &mut Entries, log: u8, place: u64, time: String) -> Result<(), MapCause>
    ensures ok { OnOk result ((n p : ℕ) → time_at times.new n p
        ≡ (if log == n && place == p then Some (string_bytes time) else time_at times.old n p)) }
    ensures err { IfErr result (λ cause. cause ≡ OutOfMemory) }
{
    let _ = times.insert((log, place), time)?;
    Ok(())
}

impl Times {
    /// No times.
    fn new(alloc: Global) -> Times
        ensures { (log : ℕ) (place : ℕ) → time_of result log place ≡ None }
    {
        Times {
            entries: BTreeMap::new(alloc),
        }
    }

    /// The time of the record at a place of a log, from 0 on, where the map tells it. The logs of a trace are numbered:
    /// those of the ports, then those of the banks.
    pub fn of(&self, log: u8, place: u64) -> Option<&str>
        ensures { option_map (λ time. time.now) result ≡ time_of self.now log place }
    {
        let time = self.entries.get(&(log, place))?;
        Some(time.as_str())
    }

    /// Sets the time of a record.
    fn set(&mut self, alloc: Global, entry: Entry<'_>) -> Result<(), MapCause>
        ensures ok { OnOk result ((log : ℕ) (place : ℕ) → time_of self.new log place
            ≡ (if entry.entry.log == log && entry.entry.place == place then Some entry.entry.time.now
            else time_of self.old log place)) }
        ensures err { IfErr result (λ cause. cause ≡ OutOfMemory) }
    {
        let time = String::from_str(alloc, entry.time)?;
        put(&mut self.entries, entry.log, entry.place, time)
    }

    /// Adds the time that a line tells.
    fn add(&mut self, alloc: Global, line: &str) -> Result<(), MapCause>
        ensures { Adds self.old self.new line.now result }
    {
        let Some(entry) = read_line(line)? else {
            return Ok(());
        };
        if self.of(entry.log, entry.place).is_some() {
            return Err(MapCause::Twice);
        }
        self.set(alloc, entry)
    }

    /// The times that these lines tell.
    fn of_lines(alloc: Global, lines: &[&str]) -> Result<Times, MapFault>
        ensures ok { IfOk result (λ times. let all = texts lines.now in
            (fault_from [] all ≡ None) × ((log : ℕ) (place : ℕ) → time_of times log place ≡ time_in all log place)) }
        ensures err { IfErr result (λ fault.
            (fault.cause ≡ OutOfMemory) ⊎ (fault_from [] (texts lines.now) ≡ Some fault)) }
    {
        let mut times = Times::new(alloc);
        for (at, line) in lines.iter().enumerate() {
            if let Err(cause) = times.add(alloc, line) {
                return Err(MapFault {
                    line: at as u64 + 1,
                    cause,
                });
            }
        }
        Ok(times)
    }

    /// The times that the lines of a text tell, or the first line that is refused.
    pub fn parse(alloc: Global, text: &str) -> Result<Times, MapFault>
        ensures ok { IfOk result (IsMapOf text.now) }
        ensures err { IfErr result (λ fault. (fault.cause ≡ OutOfMemory) ⊎ (map_fault text.now ≡ Some fault)) }
    {
        match lines_of(alloc, text) {
            Ok(lines) => Times::of_lines(alloc, lines.as_slice()),
            Err(_) => Err(MapFault {
                line: 0,
                cause: MapCause::OutOfMemory,
            }),
        }
    }
}

/// The lines of a text. `collect` would go on where one growth was refused.
fn lines_of(alloc: Global, text: &str) -> Result<Vec<&str>, AllocError>
    ensures { IfOk result (λ all. texts all.items ≡ lines text.now) }
{
    let mut all = Vec::new(alloc);
    for line in text.lines() {
        all.push(line)?;
    }
    Ok(all)
}
