//! The order of a no.

ghost use Rattle.std.specs.Prelude.{◌≡◌, List, [], IfOk};
ghost use Rattle.lf_rules.specs.declared.event.Record.{Record};
ghost use Rattle.wave_order.specs.Left.{HasLeft};
ghost use Rattle.wave_order.specs.OrderTo.{IsOrderTo};

use crate::left::Left;
use crate::sought::Sought;
use explain_lines::Times;
use lf_rules::NoMemory;
use std::alloc::Global;

/// An order of records that goes as far as they do, or to the one that is sought.
#[derive(Drop)]
pub struct Front {
    /// The log whose next record comes at each place.
    pub logs: Vec<u8>,
    /// The last one is the one that is sought.
    pub reached: bool,
}

/// The order of these records: of those that may come, the next one is always that of the least number in front of its
/// time, and of several, or without times, that of the lowest log. It ends with the record that is sought, or where none
/// may come.
pub fn order_to(
    alloc: Global,
    left: Left,
    times: &Option<Times>,
    sought: Sought,
) -> Result<Front, NoMemory>
    ensures { (records : List Record) → HasLeft left [] records →
        IfOk result (λ front. IsOrderTo times.now sought records front.logs.items front.reached) }
{
    let mut left = left;
    let mut logs = Vec::new(alloc);
    let mut before = 0;
    while let Some(entry) = left.take(times) {
        logs.push(entry.log)?;
        if sought.is(before, entry) {
            return Ok(Front {
                logs,
                reached: true,
            });
        }
        if sought.counts(entry) {
            before += 1;
        }
    }
    Ok(Front {
        logs,
        reached: false,
    })
}
