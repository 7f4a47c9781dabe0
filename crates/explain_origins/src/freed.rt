//! The last record that ended something of a part of the state, and what it ended.

ghost use Rattle.std.specs.Prelude.{◌≡◌, ◌++◌, [], IfOk, OnOk};
ghost use Rattle.std.specs.List.{flat_map};
ghost use Rattle.lf_rules.specs.InRange.{IsShape};
ghost use Rattle.explain_origins.specs.Freed.{origin_if, origins_with, end_after, last_end};
ghost use Rattle.explain_origins.specs.Origins.{steps};
ghost use Rattle.explain_origins.specs.Requests.{none_waits};

use crate::parts::StatePart;
use crate::requests::Requests;
use crate::standing::{Begun, Origin, keep, origin_of};
use explain_history::{record_at, room};
use lf_codec::Packed;
use lf_rules::{NoMemory, Shape};
use std::alloc::Global;

/// It is told where it has the key.
fn put(all: &mut Vec<Origin>, key: u64, one: &Begun) -> Result<(), NoMemory>
    ensures { OnOk result (all.new.items ≡ all.old.items ++ origin_if key one.now) }
{
    if one.key == key {
        all.push(one.origin)?;
    }
    Ok(())
}

/// The records that began those with the key.
fn origins_of_key(alloc: Global, key: u64, kept: &[Begun]) -> Result<Vec<Origin>, NoMemory>
    ensures { IfOk result (λ all. all.items ≡ flat_map (origin_if key) kept.now) }
{
    let mut all = Vec::new(alloc);
    for one in kept {
        put(&mut all, key, one)?;
    }
    Ok(all)
}

/// The same where there is a key.
fn origins_with(alloc: Global, key: Option<u64>, kept: &[Begun]) -> Result<Vec<Origin>, NoMemory>
    ensures { IfOk result (λ all. all.items ≡ origins_with key kept.now) }
{
    match key {
        Some(key) => origins_of_key(alloc, key, kept),
        None => Ok(Vec::new(alloc)),
    }
}

/// These and the record that ends them; the former ones where it ends none.
fn end_after(
    last: Vec<Origin>,
    origin: Origin,
    mut ended: Vec<Origin>,
) -> Result<Vec<Origin>, NoMemory>
    ensures { IfOk result (λ now. now.items ≡ end_after last.items origin ended.items) }
{
    if ended.is_empty() {
        return Ok(last);
    }
    ended.push(origin)?;
    Ok(ended)
}

/// The last record that ended something of this part which a record before it began, of the records at these places,
/// behind the records that began what it ended.
pub(crate) fn last_end(
    alloc: Global,
    shape: &Shape,
    records: &Packed,
    before: &[Option<usize>],
    part: StatePart,
) -> Result<Vec<Origin>, NoMemory>
    requires { IsShape shape.now }
    ensures { IfOk result (λ last. last.items
        ≡ last_end shape.now part [] [] (steps shape.now none_waits records.now.records before.now)) }
{
    let mut requests = Requests::new(alloc)?;
    let mut open = Vec::new(alloc);
    let mut last = Vec::new(alloc);
    let mut room = room();
    for at in before {
        let Some(place) = *at else {
            continue;
        };
        let Some(item) = record_at(records, Some(place), &mut room) else {
            continue;
        };
        let request = requests.accepted_by(&item.event);
        let origin = origin_of(place, request);
        let begun = part.begun(shape, place, request, item);
        let ended = part.ended(request, item);
        last = end_after(last, origin, origins_with(alloc, ended, &open)?)?;
        keep(&mut open, origin, begun, ended)?;
        requests.note(shape, place, item)?;
    }
    Ok(last)
}
