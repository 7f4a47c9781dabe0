//! What a session answers when it ends.

ghost use Rattle.std.specs.Prelude.{◌≡◌, ℕ};
ghost use Rattle.lf_rules.specs.declared.shape.Shape.{Shape};
ghost use Rattle.lf_verdict.specs.declared.session.asked.Asked.{Asked};
ghost use Rattle.lf_verdict.specs.Conclusion.{IsConclusion, refused_after, without_memory, verdict_with, verdict_of};
ghost use Rattle.lf_verdict.specs.Laws.{IsRunlessNo};
ghost use Rattle.lf_verdict.specs.Verdict.{IsWorkerCount, IsVerdictOf, IsDecided, IsLegalYes};

use crate::answer::{Outcome, Refusal, Verdict};
use crate::fed::Fed;
use crate::session::breaking::Broken;
use lf_logs::Incomplete;
use lf_stats::Stats;

/// What a session answers when it ends.
#[derive(Drop)]
pub struct Conclusion {
    /// For contracts alone: the bytes that it is of.
    pub fed: Fed,
    pub outcome: Outcome,
    /// After a yes the least order of the events, where one was asked for.
    pub order: Option<Vec<u8>>,
    /// What broke first, where that was asked for and something did.
    pub broken: Option<Broken>,
    /// After a yes the lowest tag without a reply, of the lowest port that has one.
    pub incomplete: Option<Incomplete>,
    /// After a yes the statistics, where they were asked for.
    pub statistics: Option<Stats>,
}

/// The verdict of the outcome, with this order after a yes.
fn verdict_with(outcome: Outcome, order: Option<Vec<u8>>) -> Verdict
    ensures { result ≡ verdict_with outcome order }
{
    match outcome {
        Outcome::Yes { events } => match order {
            Some(order) => Verdict::Yes { events, order },
            None => Verdict::Refused(Refusal::Memory),
        },
        Outcome::No(fault) => Verdict::No(fault),
        Outcome::Refused(refusal) => Verdict::Refused(refusal),
    }
}

impl Conclusion {
    /// Where the bytes are refused, and this broke before.
    pub(crate) fn refused(fed: Fed, refusal: Refusal, broken: Option<Broken>) -> Conclusion
        ensures { result ≡ refused_after broken fed refusal }
    {
        Conclusion {
            fed,
            outcome: Outcome::Refused(refusal),
            order: None,
            broken,
            incomplete: None,
            statistics: None,
        }
    }

    /// Where memory ran out.
    pub fn without_memory(fed: Fed) -> Conclusion
        ensures { result ≡ without_memory fed }
    {
        Conclusion::refused(fed, Refusal::Memory, None)
    }

    /// The verdict. It is for a conclusion whose order was asked for: without one a yes is told as out of memory.
    pub fn into_verdict(self) -> Verdict
        ensures told { result ≡ verdict_of self }
        // What it means.
        ensures legal { (asked : Asked) (shape : Shape) → IsConclusion asked shape self
            → IsLegalYes shape self.fed.bytes result }
        ensures runless { (asked : Asked) (shape : Shape) → IsConclusion asked shape self
            → IsRunlessNo shape self.fed.bytes result }
        ensures verdict { (asked : Asked) (shape : Shape) (workers : ℕ) → IsWorkerCount workers
            → IsConclusion asked shape self → IsDecided result → IsVerdictOf shape workers self.fed.bytes result }
    {
        let Conclusion {
            fed: _,
            outcome,
            order,
            broken: _,
            incomplete: _,
            statistics: _,
        } = self;
        verdict_with(outcome, order)
    }
}
