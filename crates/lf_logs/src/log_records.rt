//! The records of a trace by their logs, however they are kept.

ghost use Rattle.std.specs.Prelude.{◌≡◌, ◌<◌, List, [], length, IsSome, Some, slice_index_or};
ghost use Rattle.lf_rules.specs.declared.event.Record.{Record};
ghost use Rattle.lf_rules.specs.Lists.{lists_of};
ghost use Rattle.lf_logs.specs.Places.{record_at, Names};

use crate::order::{Place, record_at};
use lf_rules::Logs;
use trace_views::RecordView;

/// The records of a trace by their logs, however they are kept.
pub trait LogRecords {
    /// The records of each log, in its own order.
    ghost lists: { Self → List (List Record) };

    /// How many logs there are.
    fn log_count(&self) -> usize
        ensures { result ≡ length (lists self.now) };

    /// How many records the log has.
    fn log_len(&self, log: usize) -> usize
        requires { log < length (lists self.now) }
        ensures { result ≡ length (slice_index_or (lists self.now) log []) };

    /// Bank and number of the record at the place. The record is not built for this.
    fn entry(&self, place: Place) -> (u8, u32)
        requires { IsSome (record_at (lists self.now) place) }
        ensures { Names (lists self.now) result.0 result.1 place };

    /// Lends the record at the place by `room`. No memory is taken.
    fn lend<'a>(&'a self, place: Place, room: &mut RecordView<'a>)
        requires { IsSome (record_at (lists self.now) place) }
        ensures { record_at (lists self.now) place ≡ Some room.new };
}

impl LogRecords for Logs {
    ghost lists = { lists_of };

    fn log_count(&self) -> usize {
        self.len()
    }

    fn log_len(&self, log: usize) -> usize {
        self[log].len()
    }

    fn entry(&self, place: Place) -> (u8, u32) {
        let item = record_at(self, place);
        (item.bank, item.number)
    }

    fn lend<'a>(&'a self, place: Place, room: &mut RecordView<'a>) {
        *room = RecordView::of(record_at(self, place));
    }
}
