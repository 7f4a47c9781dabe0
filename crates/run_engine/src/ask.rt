//! What can be asked of a trace.

ghost use Rattle.std.specs.Prelude.{◌≡◌, ℕ, List, Option, Some, None, true, IfOk, string_bytes};
ghost use Rattle.lf_verdict.specs.declared.fed.Fed.{Fed};
ghost use Rattle.lf_rules.specs.declared.shape.Shape.{Shape};
ghost use Rattle.lf_rules.specs.InRange.{IsShape};
ghost use Rattle.lf_verdict.specs.declared.session.conclusion.Conclusion.{Conclusion};
ghost use Rattle.lf_verdict.specs.Conclusion.{IsConclusion, without_memory};
ghost use Rattle.lf_verdict.specs.Outcome.{IsDecidedOutcome};
ghost use Rattle.run_engine.specs.declared.ask.Needs.{Needs};
ghost use Rattle.run_engine.specs.Needs.{verdict_needs, bytes_needs};

use lf_rules::{NoMemory, Shape};
use lf_verdict::{Asked, Conclusion};
use std::alloc::Global;

/// What an ask needs of a run.
#[derive(Clone, Copy)]
pub struct Needs {
    /// What is asked of the trace beside its verdict.
    pub asked: Asked,
    /// To read no further than to the piece with which something broke for good.
    pub early: bool,
    /// The bytes of the trace.
    pub bytes: bool,
}

impl Needs {
    /// The verdict, and where it is `ordered` the least order of a legal trace.
    pub fn verdict(ordered: bool) -> Needs
        ensures { result ≡ verdict_needs ordered }
    {
        Needs {
            asked: Asked {
                ordered,
                watched: false,
                counted: false,
            },
            early: false,
            bytes: false,
        }
    }

    /// The verdict and the bytes, and where it is `watched` what broke first.
    pub fn bytes(watched: bool) -> Needs
        ensures { result ≡ bytes_needs watched }
    {
        Needs {
            asked: Asked {
                ordered: false,
                watched,
                counted: false,
            },
            early: false,
            bytes: true,
        }
    }
}

/// What can be asked of a trace: what a run has to find out, and the text that is due for what it found.
pub trait Ask {
    ghost needs_of: { Self → Needs };

    // The text is due for what was concluded of a trace for this shape. Where there is no shape, the trace was not
    // asked for.
    ghost is_due: { Self → Option Shape → Conclusion → List ℕ → Type 0 };

    // what is written where the trace was not read
    ghost lost: { List ℕ };

    fn needs(&self) -> Needs
        ensures needs { result ≡ needs_of self.now }
        ensures early { result.early ≡ true → result.asked.watched ≡ true };

    /// The text for what was concluded. `bytes` are those of the trace, where they are needed.
    fn text(
        &self,
        alloc: Global,
        shape: &Shape,
        bytes: &[u8],
        conclusion: &Conclusion,
    ) -> Result<String, NoMemory>
        requires in_range { IsShape shape.now }
        requires concluded { IsConclusion (needs_of self.now).asked shape.now conclusion.now }
        requires kept { (needs_of self.now).bytes ≡ true → IsDecidedOutcome conclusion.now.outcome →
            bytes.now ≡ conclusion.now.fed.bytes }
        ensures { IfOk result (λ text. is_due self.now (Some shape.now) conclusion.now (string_bytes text)) };

    /// The text for a refusal that comes before the trace is asked for.
    fn refused(&self, alloc: Global, conclusion: &Conclusion) -> Result<String, NoMemory>
        ensures { IfOk result (λ text. is_due self.now None conclusion.now (string_bytes text)) };

    /// The text where memory ran out. It takes none.
    fn no_memory(&self) -> &'static [u8]
        ensures { (shape : Option Shape) (fed : Fed) → is_due self.now shape (without_memory fed) result.now };

    /// The text where the trace was not read. It takes no memory.
    fn not_read(&self) -> &'static [u8]
        ensures { result.now ≡ lost };
}
