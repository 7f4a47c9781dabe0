//! What stands of a part of the state after some records.

ghost use Rattle.std.specs.Prelude.{◌≡◌, IfOk, OnOk};
ghost use Rattle.lf_rules.specs.InRange.{IsShape};
ghost use Rattle.explain_origins.specs.Origins.{steps, standing};
ghost use Rattle.explain_origins.specs.Kept.{begun_by, without, kept_after};
ghost use Rattle.explain_origins.specs.Requests.{none_waits, origin_of};

use crate::parts::StatePart;
use crate::requests::{IssuedRequest, Requests};
use explain_history::{record_at, room};
use lf_codec::Packed;
use lf_rules::{NoMemory, Shape};
use std::alloc::Global;

/// A record that a part of the state comes from.
#[derive(Clone, Copy, PartialEq, Eq)]
pub struct Origin {
    pub place: usize,
    /// The place of the request that it accepts, where it accepts one.
    pub request: Option<usize>,
}

/// The record at the place, with the request that it accepts.
pub(crate) fn origin_of(place: usize, request: Option<IssuedRequest>) -> Origin
    ensures { result ≡ origin_of place request }
{
    let request = match request {
        Some(request) => Some(request.place),
        None => None,
    };
    Origin { place, request }
}

/// What a record began: the record, and the block, the tag or the place of a request.
#[derive(Clone, Copy)]
pub(crate) struct Begun {
    pub origin: Origin,
    pub key: u64,
}

/// The records that began these.
fn begun_by(alloc: Global, begun: &[Begun]) -> Result<Vec<Origin>, NoMemory>
    ensures { IfOk result (λ all. all.items ≡ begun_by begun.now) }
{
    let mut all = Vec::new(alloc);
    for one in begun {
        all.push(one.origin)?;
    }
    Ok(all)
}

/// Those with another key stay.
fn remove(begun: &mut Vec<Begun>, key: u64)
    ensures { begun.new.items ≡ without key begun.old.items }
{
    begun.retain(|one| one.key != key);
}

/// A record came that ends and begins this.
pub(crate) fn keep(
    standing: &mut Vec<Begun>,
    origin: Origin,
    begun: Option<u64>,
    ended: Option<u64>,
) -> Result<(), NoMemory>
    ensures { OnOk result (standing.new.items ≡ kept_after origin begun ended standing.old.items) }
{
    if let Some(key) = ended {
        remove(standing, key);
    }
    if let Some(key) = begun {
        standing.push(Begun { origin, key })?;
    }
    Ok(())
}

/// The records that begin what is in this part of the state and what no later record ends, of the records at these
/// places, each with the request that it accepts.
pub fn origins_standing(
    alloc: Global,
    shape: &Shape,
    records: &Packed,
    before: &[Option<usize>],
    part: StatePart,
) -> Result<Vec<Origin>, NoMemory>
    requires { IsShape shape.now }
    ensures { IfOk result (λ all. all.items
        ≡ standing shape.now part (steps shape.now none_waits records.now.records before.now)) }
{
    let mut requests = Requests::new(alloc)?;
    let mut open = Vec::new(alloc);
    let mut room = room();
    for at in before {
        let Some(place) = *at else {
            continue;
        };
        let Some(item) = record_at(records, Some(place), &mut room) else {
            continue;
        };
        let request = requests.accepted_by(&item.event);
        let origin = origin_of(place, request);
        let begun = part.begun(shape, place, request, item);
        let ended = part.ended(request, item);
        keep(&mut open, origin, begun, ended)?;
        requests.note(shape, place, item)?;
    }
    begun_by(alloc, &open)
}
