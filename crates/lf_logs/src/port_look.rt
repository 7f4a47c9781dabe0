//! What a caller sees of a port's state. Nothing changes here.

ghost use Rattle.std.specs.Prelude.{◌≡◌, List};
ghost use Rattle.lf_rules.specs.declared.shape.Shape.{Shape};
ghost use Rattle.lf_rules.specs.declared.event.Record.{Record};
ghost use Rattle.lf_rules.specs.Address.{FlatMemory};
ghost use Rattle.lf_rules.specs.Outcomes.{first_local};
ghost use Rattle.lf_logs.specs.Tags.{PortStandsAfter, port_after};
ghost use Rattle.lf_logs.specs.Incomplete.{IsLowestWaiting, unanswered};

use crate::port_step::PortStep;

impl PortStep {
    /// The bank that owes the reply to the tag after the records that the port took, where one does.
    pub fn owing_bank(&self, tag: u8) -> Option<u8>
        ensures { (shape : Shape) (rs : List Record) → PortStandsAfter self.now shape rs
            → (memory : FlatMemory) → result ≡ (port_after shape (first_local memory) rs).busy tag }
    {
        self.tags.owed_by[usize::from(tag)]
    }

    /// The lowest tag that waits for a reply after the records that the port took, where one does.
    pub fn lowest_waiting(&self) -> Option<u8>
        ensures { (shape : Shape) (rs : List Record) → PortStandsAfter self.now shape rs → IsLowestWaiting rs result }
    {
        self.tags.lowest_busy()
    }

    /// How many tags wait for a reply after the records that the port took.
    pub fn unanswered(&self) -> u32
        ensures { (shape : Shape) (rs : List Record) → PortStandsAfter self.now shape rs
            → result ≡ unanswered rs }
    {
        self.tags.busy_count()
    }
}
