//! The last request of a port and tag.

ghost use Rattle.std.specs.Prelude.{◌≡◌, None, option_to_list};
ghost use Rattle.explain_history.specs.BankOrder.{records_at};
ghost use Rattle.explain_history.specs.Request.{address_by, last_address};
ghost use Rattle.explain_history.specs.Touching.{record_at};

use lf_codec::{Packed, room};
use lf_rules::{Event, Record};

/// The address that the record asks for, where it is a request of the port with this tag.
fn address_by(item: &Record, port: u8, tag: u8) -> Option<u64>
    ensures { result ≡ address_by port tag item.now.log item.now.event None }
{
    match &item.event {
        Event::Issue {
            tag: t,
            address,
            ..
        } => {
            if item.log == port && *t == tag {
                Some(*address)
            } else {
                None
            }
        }
        _ => None,
    }
}

/// The address that the record at the place asks for, where it is a request of the port with this tag. Such a request
/// stands in the port's log, so a record of another log is not built.
fn address_at(records: &Packed, place: Option<usize>, port: u8, tag: u8) -> Option<u64>
    ensures { result ≡ last_address (option_to_list (record_at records.now.records place)) port tag }
{
    let place = place?;
    if place >= records.len() || records.log(place) != port {
        return None;
    }
    let mut room = room();
    address_by(records.lend(place, &mut room), port, tag)
}

/// The address that the last request of the port with this tag asks for, among the records at these places.
pub fn last_address(records: &Packed, places: &[Option<usize>], port: u8, tag: u8) -> Option<u64>
    ensures { result ≡ last_address (records_at records.now.records places.now) port tag }
{
    let mut end = places.len();
    while end > 0 {
        end -= 1;
        if let Some(address) = address_at(records, places[end], port, tag) {
            return Some(address);
        }
    }
    None
}
