//! A port, judged while its records come.

ghost use Rattle.std.specs.Prelude.{◌≡◌, ℕ, List, [], ◌∷◌, ◌++◌, length};
ghost use Rattle.lf_rules.specs.declared.shape.Shape.{Shape};
ghost use Rattle.lf_rules.specs.declared.event.Record.{Record};
ghost use Rattle.lf_verdict.specs.Standing.{IsPortJudged};

use crate::broken_part::Part;
use lf_logs::PortStep;
use lf_rules::{Outcome, Shape};
use trace_views::RecordView;

/// A port, and the first of its records that broke a rule.
#[derive(Drop)]
pub struct PortJudge {
    pub step: PortStep,
    pub outcome: Outcome,
}

impl Part for PortJudge {
    ghost outcome_of = { λ judge. judge.outcome };

    fn outcome(&self) -> Outcome {
        self.outcome
    }
}

impl PortJudge {
    pub fn new(shape: &Shape, port: u8) -> PortJudge
        ensures { IsPortJudged shape.now port [] result }
    {
        PortJudge {
            step: PortStep::new(shape, port),
            outcome: Outcome::Passed,
        }
    }

    /// Judges the port's next record, which stands at this place of its log.
    pub fn take(&mut self, at: u32, item: &RecordView<'_>)
        requires { item.now.log ≡ self.old.step.port }
        ensures { (shape : Shape) (port : ℕ) (rs : List Record) → at ≡ length rs → IsPortJudged shape port rs self.old
            → IsPortJudged shape port (rs ++ item.now ∷ []) self.new }
    {
        if let Outcome::Passed = self.outcome {
            if let Err(rule) = self.step.apply_view(item) {
                self.outcome = Outcome::Broken(at, rule);
            }
        }
    }
}
