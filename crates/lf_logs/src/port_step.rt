//! The rules of a port's log, a record at a time.

ghost use Rattle.std.specs.Prelude.{◌≡◌, List, [], ◌∷◌, ◌++◌, OnOk, OnErr, IfErr};
ghost use Rattle.lf_rules.specs.declared.shape.Shape.{Shape};
ghost use Rattle.lf_rules.specs.declared.event.Record.{Record};
ghost use Rattle.lf_logs.specs.Tags.{PortStandsAfter, IsPortFaultAfter};

use crate::port::BusyTags;
use lf_rules::{Record, Rule, Shape};
use std::marker::Model;
use trace_views::RecordView;

/// Judges the log of one port, a record at a time.
#[derive(Drop)]
pub struct PortStep {
    shape: Shape,
    port: u8,
    pub(crate) tags: BusyTags,
}

impl Model for PortStep {
    ghost use Rattle.lf_logs.specs.Tags.{PortView};

    ghost Value = { PortView };

    ghost view = { λ s. record { shape = s.shape; port = s.port; owed_by = s.tags.owed_by } };
}

impl PortStep {
    /// The port before its first record. It takes no memory.
    pub fn new(shape: &Shape, port: u8) -> PortStep
        ensures port { result.port ≡ port }
        ensures stands { PortStandsAfter result shape.now [] }
    {
        PortStep {
            shape: *shape,
            port,
            tags: BusyTags::new(),
        }
    }

    /// Judges the record by the port's rules and carries it out. A fault is the first rule that it
    /// breaks, and leaves all as it was. It takes no memory.
    pub fn apply(&mut self, item: &Record) -> Result<(), Rule>
        requires { item.now.log ≡ self.old.port }
        ensures port { self.new.port ≡ self.old.port }
        ensures unchanged { OnErr result (self.new ≡ self.old) }
        ensures stands { (shape : Shape) (rs : List Record) → PortStandsAfter self.old shape rs
            → OnOk result (PortStandsAfter self.new shape (rs ++ item.now ∷ [])) }
        ensures broken { (shape : Shape) (rs : List Record) → PortStandsAfter self.old shape rs
            → IfErr result (IsPortFaultAfter shape rs item.now) }
    {
        self.apply_view(&RecordView::of(item))
    }

    /// Judges a record that is lent, and carries it out, as `apply` does.
    pub fn apply_view(&mut self, item: &RecordView<'_>) -> Result<(), Rule>
        requires { item.now.log ≡ self.old.port }
        ensures port { self.new.port ≡ self.old.port }
        ensures unchanged { OnErr result (self.new ≡ self.old) }
        ensures stands { (shape : Shape) (rs : List Record) → PortStandsAfter self.old shape rs
            → OnOk result (PortStandsAfter self.new shape (rs ++ item.now ∷ [])) }
        ensures broken { (shape : Shape) (rs : List Record) → PortStandsAfter self.old shape rs
            → IfErr result (IsPortFaultAfter shape rs item.now) }
    {
        if let Some(rule) = self.tags.failing(&self.shape, item) {
            return Err(rule);
        }
        self.tags.update(&self.shape, item);
        Ok(())
    }
}
