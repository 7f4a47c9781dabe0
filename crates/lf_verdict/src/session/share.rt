//! The parts of a trace in two shares, which are judged side by side.

ghost use Rattle.std.specs.Prelude.{◌≢◌, ◌<◌, ℕ, List, length, slice_index_or, IsTrue};
ghost use Rattle.lf_rules.specs.declared.event.Record.{Record};
ghost use Rattle.lf_rules.specs.declared.outcome.Outcome.{Outcome};
ghost use Rattle.lf_verdict.specs.declared.session.share.ShareKind.{ShareKind};
ghost use Rattle.lf_verdict.specs.declared.session.standing.Standing.{Standing};
ghost use Rattle.lf_verdict.specs.declared.session.standing.bank_judge.BankJudge.{BankJudge};
ghost use Rattle.lf_verdict.specs.inner.Shares.{CanTakeAll, TakesAll, CanAllTake, AllTake, CanTake, Takes};
ghost use Rattle.lf_verdict.specs.inner.Shares.{AreOfTheirKinds, IsShareAfter, MayFollow, IsJudged};

use crate::session::breaking::Watch;
use crate::session::standing::{BankJudge, Entries, Standing};
use lf_codec::Packed;
use lf_pool::Gate;
use lf_rules::{NoMemory, Outcome};
use std::thread::{Threads, for_each_mut};

/// Which share it is.
#[derive(Clone, Copy)]
pub enum ShareKind {
    Entries,
    Banks,
}

/// Some of the parts of a trace, as they stand.
#[derive(Drop)]
pub enum Share {
    /// The entries of the logs with the ports, and whether memory sufficed for them.
    Entries(Entries, Result<(), NoMemory>),
    /// All banks. Where memory ran out for one, its outcome says so.
    Banks(Vec<BankJudge>),
}

/// Each bank is judged on those of the records that are its own, in so many threads, each of which passes
/// the gate before each bank.
fn judge_banks<R: Threads + Sync, G: Gate + Sync>(
    rt: &R,
    threads: usize,
    gate: &G,
    records: &Packed,
    banks: &mut [BankJudge],
)
    requires threads { 0 < threads }
    requires each { CanAllTake records.now.records banks.old }
    ensures { AllTake records.now.records banks.old banks.new }
{
    for_each_mut(
        rt,
        banks,
        threads,
        &|bank: usize, judge: &mut BankJudge|
            requires { CanTakeAll bank records.now.records judge.now }
            ensures { TakesAll bank records.entry.now.records judge.entry.now judge.exit.now }
        {
            gate.enter(u32::try_from(bank).unwrap_or(u32::MAX));
            judge.take_all(bank, records)
        },
    );
}

/// Whether memory ran out for a bank.
fn ran_out(banks: &[BankJudge]) -> bool
    ensures { ¬ IsTrue result → (bank : ℕ) (d : BankJudge) → bank < length banks.now →
        (slice_index_or banks.now bank d).outcome ≢ Outcome.NoMemory }
{
    for judge in banks {
        if let Outcome::NoMemory = judge.outcome {
            return true;
        }
    }
    false
}

impl Share {
    /// Judges the share on the records of a batch: the banks in so many threads. Where memory ran out, nothing more
    /// is judged.
    fn take<R: Threads + Sync, G: Gate + Sync>(
        &mut self,
        rt: &R,
        threads: usize,
        gate: &G,
        records: &Packed,
    )
        requires threads { 0 < threads }
        requires can { CanTake records.now.records self.old }
        ensures { Takes records.now.records self.old self.new }
    {
        match self {
            Share::Entries(entries, result) => {
                if result.is_ok() {
                    *result = entries.enter_all(records);
                }
            }
            Share::Banks(banks) => judge_banks(rt, threads, gate, records, banks.as_mut_slice()),
        }
    }

    /// The share once it was judged on the records.
    pub fn after<R: Threads + Sync, G: Gate + Sync>(
        self,
        rt: &R,
        threads: usize,
        gate: &G,
        records: &Packed,
    ) -> Share
        requires threads { 0 < threads }
        requires can { CanTake records.now.records self }
        ensures { Takes records.now.records self result }
    {
        let mut share = self;
        share.take(rt, threads, gate, records);
        share
    }
}

/// The parts from both shares. It is not known upon which record one of them broke.
pub fn together(entries: Share, banks: Share) -> Result<Standing, NoMemory>
    requires { AreOfTheirKinds entries banks }
    ensures { (start : Standing) (records : List Record) → IsShareAfter start records ShareKind.Entries entries →
        IsShareAfter start records ShareKind.Banks banks → IsJudged start records result }
{
    let Share::Entries(entries, result) = entries else {
        unreachable!()
    };
    let Share::Banks(banks) = banks else {
        unreachable!()
    };
    result?;
    if ran_out(&banks) {
        return Err(NoMemory);
    }
    Ok(Standing {
        entries,
        banks,
        watch: Watch::Unknown,
    })
}

/// The parts once they are judged on the records: first the entries, and then the banks in so many threads.
pub fn judged<R: Threads + Sync, G: Gate + Sync>(
    rt: &R,
    threads: usize,
    gate: &G,
    standing: Standing,
    records: &Packed,
) -> Result<Standing, NoMemory>
    requires threads { 0 < threads }
    requires follow { MayFollow standing records.now.records }
    ensures { IsJudged standing records.now.records result }
{
    let Standing {
        entries,
        banks,
        watch: _,
    } = standing;
    let entries = Share::Entries(entries, Ok(())).after(rt, threads, gate, records);
    let banks = Share::Banks(banks).after(rt, threads, gate, records);
    together(entries, banks)
}
