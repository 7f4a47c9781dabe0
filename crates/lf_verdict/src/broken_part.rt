//! Ports and banks that broke a rule.

ghost use Rattle.std.specs.Prelude.{◌≡◌, ◌≤◌, map, length, IfSome, IfNone};
ghost use Rattle.lf_rules.specs.declared.outcome.Outcome.{Outcome};
ghost use Rattle.lf_verdict.specs.inner.Ending.{IsFirstBroken, NoneBroken};

use lf_rules::{Outcome, Rule};

/// A port or a bank that is broken: at a place, by a rule.
#[derive(Clone, Copy)]
pub struct BrokenPart {
    pub part: u8,
    pub at: u32,
    pub rule: Rule,
}

/// A port or a bank of which there is an outcome.
pub trait Part {
    ghost outcome_of: { Self → Outcome };

    fn outcome(&self) -> Outcome
        ensures { result ≡ outcome_of self.now };
}

impl Part for Outcome {
    ghost outcome_of = { λ outcome. outcome };

    fn outcome(&self) -> Outcome {
        *self
    }
}

/// The first part that is broken.
pub fn first_broken<P: Part>(parts: &[P]) -> Option<BrokenPart>
    requires { length parts.now ≤ 16 }
    ensures some { IfSome result (IsFirstBroken (map P.outcome_of parts.now)) }
    ensures none { IfNone result (NoneBroken (map P.outcome_of parts.now) (length parts.now)) }
{
    for (part, judged) in parts.iter().enumerate() {
        if let Outcome::Broken(at, rule) = judged.outcome() {
            return Some(BrokenPart {
                part: part as u8,
                at,
                rule,
            });
        }
    }
    None
}
