//! Writes what a run came to.

ghost use Rattle.std.specs.Prelude.{◌≡◌, ◌≢◌, Ok, Err, Some, None, IfOk, true};
ghost use Rattle.lf_verdict.specs.declared.fed.Fed.{Fed};
ghost use Rattle.lf_rules.specs.InRange.{IsShape};
ghost use Rattle.lf_verdict.specs.Conclusion.{IsConclusion, refused};
ghost use Rattle.lf_verdict.specs.Outcome.{IsDecidedOutcome};
ghost use Rattle.run_stream.specs.Counted.{failures_of, account_of};
ghost use Rattle.run_engine.specs.declared.fault.RunFault.{RunFault};
ghost use Rattle.run_engine.specs.Run.{conclusion_in, IsTold};

use crate::ask::Ask;
use crate::fault::RunFault;
use crate::judging::Judged;
use lf_rules::Shape;
use lf_verdict::{Conclusion, Fed, Outcome, Refusal};
use run_stream::{Counted, put};
use std::alloc::Global;
use std::io::Write;

/// Writes the text that is due for what a run came to.
pub fn tell<A: Ask, W: Write>(
    alloc: Global,
    writer: &mut Counted<W>,
    ask: &A,
    shape: &Shape,
    came_to: Result<Judged, RunFault>,
) -> Result<Conclusion, RunFault>
    requires failures { failures_of writer.old ≡ 0 }
    requires no_write { came_to ≢ Err RunFault.Write }
    requires in_range { IsShape shape.now }
    requires concluded { IfOk came_to (λ j. IsConclusion (A.needs_of ask.now).asked shape.now j.conclusion) }
    requires kept { IfOk came_to (λ j. (A.needs_of ask.now).bytes ≡ true → IsDecidedOutcome j.conclusion.outcome →
        j.bytes.items ≡ j.conclusion.fed.bytes) }
    ensures { IsTold (account_of W.contents writer.old) (account_of W.contents writer.new) (conclusion_in came_to)
        (A.is_due ask.now (Some shape.now)) A.lost result }
{
    let Judged { conclusion, bytes } = match came_to {
        Ok(judged) => judged,
        Err(fault) => {
            put(writer, ask.not_read())?;
            return Err(fault);
        }
    };
    match ask.text(alloc, shape, bytes.as_slice(), &conclusion) {
        Ok(text) => {
            put(writer, text.as_bytes())?;
            Ok(conclusion)
        }
        Err(_) => {
            put(writer, ask.no_memory())?;
            Ok(Conclusion::without_memory(conclusion.fed))
        }
    }
}

/// Writes the text for a refusal that comes before the trace is asked for.
pub fn tell_refused<A: Ask, W: Write>(
    alloc: Global,
    writer: &mut Counted<W>,
    ask: &A,
    refusal: Refusal,
) -> Result<Conclusion, RunFault>
    requires { failures_of writer.old ≡ 0 }
    ensures { (fed : Fed) × IsTold (account_of W.contents writer.old) (account_of W.contents writer.new)
        (Ok (refused fed refusal)) (A.is_due ask.now None) A.lost result }
{
    let conclusion = Conclusion {
        fed: Fed::new(),
        outcome: Outcome::Refused(refusal),
        order: None,
        broken: None,
        incomplete: None,
        statistics: None,
    };
    match ask.refused(alloc, &conclusion) {
        Ok(text) => {
            put(writer, text.as_bytes())?;
            Ok(conclusion)
        }
        Err(_) => {
            put(writer, ask.no_memory())?;
            Ok(Conclusion::without_memory(conclusion.fed))
        }
    }
}
