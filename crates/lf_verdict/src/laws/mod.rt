//! The laws about verdicts. Each function only calls the laws from which its own follows.

ghost use Rattle.lf_verdict.specs.Final.{PartFaultsAreFinal, OtherHeadersAreFinal};
ghost use Rattle.lf_verdict.specs.Final.{OneIsEarliest, EarliestStays, NoneBreaksBehind};
ghost use Rattle.lf_verdict.specs.Named.{OneIsNamed};
ghost use Rattle.lf_verdict.specs.Laws.{YesIsLegal, NoHasNoRun, OneOutcome, VerdictsAreOne, VerdictsTellOutcomes};
ghost use Rattle.lf_verdict.specs.Laws.{WorkersAreAlike, MixturesHaveOneOutcome, MixturesAreAlike};

mod collected;
mod configured;

pub use collected::collected_logs_are_in_order;
pub use configured::{mixtures_are_alike_for, verdicts_for_are_one};
use lf_codec::{
    exact_reading, faultless_bytes, faults_stand, header_of_bytes, one_trace, read_so_far,
};
use lf_join::joins_are_one;
use lf_rules::{
    copies_are_flat, gaps_admit_none, interleavings_are_numbered, numbers_are_whole,
    orders_interleave, outcomes_are_one, rings_admit_none, runs_are_right, runs_by_parts,
    skeletons_follow,
};

/// Where each part of a trace runs, the trace is legal by each order of its logs that keeps the numbers.
pub fn yes_is_legal()
    ensures { YesIsLegal }
{
    runs_by_parts();
    runs_are_right();
    interleavings_are_numbered();
    numbers_are_whole();
    orders_interleave();
    skeletons_follow();
}

/// Where a part of a trace has a fault, or its logs wait for one another, no list of all its events
/// that keeps each log's order and the banks' numbers is a run, with or without copies.
pub fn no_has_no_run()
    ensures { NoHasNoRun }
{
    runs_by_parts();
    copies_are_flat();
    interleavings_are_numbered();
    numbers_are_whole();
    outcomes_are_one();
    gaps_admit_none();
    rings_admit_none();
    one_trace();
}

/// Bytes have one outcome, and one verdict.
pub fn verdicts_are_one()
    ensures outcome { OneOutcome }
    ensures verdict { VerdictsAreOne }
{
    numbers_are_whole();
    outcomes_are_one();
    rings_admit_none();
    orders_interleave();
    skeletons_follow();
    joins_are_one();
    one_trace();
    faultless_bytes();
}

/// So they have the same with any number of workers: what is told is the outcome of the bytes.
pub fn workers_are_alike()
    ensures outcome { VerdictsTellOutcomes }
    ensures verdict { WorkersAreAlike }
{
    verdicts_are_one();
}

/// How the logs are mixed in the bytes does not matter.
pub fn mixtures_are_alike()
    ensures outcome { MixturesHaveOneOutcome }
    ensures verdict { MixturesAreAlike }
{
    one_trace();
    faultless_bytes();
}

/// A port or a bank that broke a rule, and a number that came twice, are final: no bytes behind them lead to a
/// yes, nor to a fault that is named after it.
pub fn part_faults_are_final()
    ensures { PartFaultsAreFinal }
{
    exact_reading();
    header_of_bytes();
}

/// So is a header of another hierarchy: the bytes are no trace, or it is that field that is refused.
pub fn other_headers_are_final()
    ensures { OtherHeadersAreFinal }
{
    exact_reading();
    header_of_bytes();
}

/// What is named without a record depends on the bytes alone.
pub fn one_is_named()
    ensures { OneIsNamed }
{}

/// What is told of what broke first is one for the same bytes, and stays so whatever bytes follow. So it depends on the
/// bytes alone, and not on the pieces in which they came. Behind a fault of the format nothing breaks.
pub fn one_is_earliest()
    ensures one { OneIsEarliest }
    ensures stays { EarliestStays }
    ensures behind { NoneBreaksBehind }
{
    read_so_far();
    header_of_bytes();
    faults_stand();
}
