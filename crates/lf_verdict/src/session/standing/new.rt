//! The parts of a trace before its first record.

ghost use Rattle.std.specs.Prelude.{◌≡◌, ◌+◌, ◌≤◌, ◌<◌, ℕ, [], IfOk, IsTrue, IsSome, length, replicate, slice_index_or};
ghost use Rattle.lf_rules.specs.declared.shape.Shape.{Shape};
ghost use Rattle.lf_rules.specs.Address.{FlatMemory, flat_memory};
ghost use Rattle.lf_rules.specs.InRange.{IsShape};
ghost use Rattle.lf_join.specs.Join.{skeleton_lists};
ghost use Rattle.lf_replay.specs.Bytes.{bank_part};
ghost use Rattle.lf_verdict.specs.declared.session.standing.port_judge.PortJudge.{PortJudge};
ghost use Rattle.lf_verdict.specs.declared.session.standing.bank_judge.BankJudge.{BankJudge};
ghost use Rattle.lf_verdict.specs.Standing.{Counts, IsWatch, IsKnown, IsPortJudged, IsBankSettled, StandsAfterAll};

use crate::session::asked::Asked;
use crate::session::breaking::Watch;
use crate::session::standing::Standing;
use crate::session::standing::bank_judge::BankJudge;
use crate::session::standing::log_entries::Entries;
use crate::session::standing::port_judge::PortJudge;
use lf_join::Progress;
use lf_rules::{Memory, NoMemory, Shape, Skeleton};
use std::alloc::Global;

fn empty_logs(alloc: Global, count: u32) -> Result<Vec<Skeleton>, NoMemory>
    ensures { IfOk result (λ logs. skeleton_lists logs.items ≡ replicate count []) }
{
    let mut logs = Vec::new(alloc);
    for _ in 0..count {
        logs.push(Vec::new(alloc))?;
    }
    Ok(logs)
}

fn port_judges(alloc: Global, shape: &Shape) -> Result<Vec<PortJudge>, NoMemory>
    requires { shape.now.ports ≤ 16 }
    ensures count { IfOk result (λ judges. length judges.items ≡ shape.now.ports) }
    ensures each { IfOk result (λ judges. (port : ℕ) (d : PortJudge) → port < shape.now.ports
        → IsPortJudged shape.now port [] (slice_index_or judges.items port d)) }
{
    let mut judges = Vec::new(alloc);
    for port in 0..shape.ports {
        judges.push(PortJudge::new(shape, port as u8))?;
    }
    Ok(judges)
}

fn bank_judges(
    alloc: Global,
    shape: &Shape,
    memory: &Memory,
    counted: bool,
) -> Result<Vec<BankJudge>, NoMemory>
    requires { IsShape shape.now }
    ensures count { IfOk result (λ judges. length judges.items ≡ shape.now.banks) }
    ensures each { IfOk result (λ judges. (bank : ℕ) (d : BankJudge) → bank < shape.now.banks
        → IsBankSettled shape.now (bank_part shape.now bank (flat_memory memory.now.items)) bank [] []
        (slice_index_or judges.items bank d)) }
    ensures counts { IsTrue counted → IfOk result (λ judges. (bank : ℕ) (d : BankJudge) → bank < length judges.items
        → IsSome (slice_index_or judges.items bank d).count) }
{
    let mut judges = Vec::new(alloc);
    for bank in 0..shape.banks {
        let judge = BankJudge::new(alloc, shape, memory, bank as u8, counted)?;
        judges.push(judge)?;
    }
    Ok(judges)
}

/// What is known before the first record, which begins at `start`.
fn first_watch(start: u64, watched: bool) -> Watch
    ensures watch { (shape : Shape) (memory : FlatMemory) → IsWatch start shape memory [] result }
    ensures known { IsTrue watched → IsKnown result }
{
    if watched {
        Watch::Whole { next: start }
    } else {
        Watch::Unknown
    }
}

impl Standing {
    /// No record has come. `memory` is the whole memory of the trace, and the first record begins at `start`. `asked`
    /// says whether it is noted upon which record a part breaks first, whether every entry is kept, and whether each
    /// bank counts. It is apart, since its frame is large, and the function that calls it is called for each memory
    /// record.
    #[inline(never)]
    pub fn new(
        alloc: Global,
        shape: &Shape,
        memory: &Memory,
        start: u64,
        asked: Asked,
    ) -> Result<Standing, NoMemory>
        requires { IsShape shape.now }
        ensures stands { IfOk result (StandsAfterAll shape.now (flat_memory memory.now.items) []) }
        ensures watched { IfOk result (λ s. IsWatch start shape.now (flat_memory memory.now.items) [] s.watch) }
        ensures known { IsTrue asked.watched → IfOk result (λ s. IsKnown s.watch) }
        ensures keeps { IfOk result (λ s. s.entries.keeps ≡ asked.ordered) }
        ensures counts { IsTrue asked.counted → IfOk result Counts }
    {
        let logs = empty_logs(alloc, shape.ports + shape.banks)?;
        let ports = port_judges(alloc, shape)?;
        let banks = bank_judges(alloc, shape, memory, asked.counted)?;
        let entries = Entries {
            logs,
            progress: Progress::new(),
            keeps: asked.ordered,
            ports,
        };
        Ok(Standing {
            entries,
            banks,
            watch: first_watch(start, asked.watched),
        })
    }
}
