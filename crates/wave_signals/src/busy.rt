//! The busy tags.

ghost use Rattle.std.specs.Prelude.{◌≡◌, ◌==◌, ◌++◌, ◌∷◌, [], filter, OnOk};
ghost use Rattle.wave_signals.specs.Wave.{is_other, outstanding, busy_after};

use lf_rules::{Event, Record};
use std::alloc::AllocError;

/// A tag of a port, from its issue to its reply.
#[derive(Clone, Copy, PartialEq, Eq)]
pub struct BusyTag {
    pub port: u8,
    pub tag: u8,
    /// What its issue asks for.
    pub address: u64,
}

fn free(busy: &mut Vec<BusyTag>, port: u8, tag: u8)
    ensures { busy.new.items ≡ filter (is_other port tag) busy.old.items }
{
    busy.retain(|b| b.port != port || b.tag != tag);
}

/// An issue makes its tag busy, and a reply frees it.
pub(crate) fn apply(busy: &mut Vec<BusyTag>, item: &Record) -> Result<(), AllocError>
    ensures { OnOk result (busy.new.items ≡ busy_after busy.old.items item.now) }
{
    match &item.event {
        Event::Issue { tag, address, .. } => {
            let entry = BusyTag {
                port: item.log,
                tag: *tag,
                address: *address,
            };
            free(busy, entry.port, entry.tag);
            busy.push(entry)?;
            Ok(())
        }
        Event::Reply { tag, .. } => {
            free(busy, item.log, *tag);
            Ok(())
        }
        _ => Ok(()),
    }
}

/// How many tags of the port are busy.
pub(crate) fn outstanding(busy: &[BusyTag], port: u8) -> u64
    ensures { result ≡ outstanding busy.now port }
{
    busy.iter().filter(|b| b.port == port).count() as u64
}
