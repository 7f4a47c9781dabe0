//! The law about logs that were recorded together. It only calls the laws from which it follows.

ghost use Rattle.lf_verdict.specs.Collected.{CollectedLogsAreInOrder, CollectedLogsAreInOrderFor};

use lf_codec::one_trace;
use lf_rules::collected_logs_are_free;

/// Logs with a common order, written in any mixture that keeps each log's order, are never told that
/// a bank's number is missing or double or that logs wait for one another.
pub fn collected_logs_are_in_order()
    ensures shape { CollectedLogsAreInOrder }
    ensures text { CollectedLogsAreInOrderFor }
{
    collected_logs_are_free();
    one_trace();
}
