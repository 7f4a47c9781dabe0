//! What the level-two registers say of the requests that they tell of.

ghost use Rattle.std.specs.Prelude.{◌≡◌, true, false, IfSome, IfNone};
ghost use Rattle.lf_rules.specs.Registers.{has_room, holds, holds_in};
ghost use Rattle.lf_rules.specs.Table.{destinations2, position2};
ghost use Rattle.lf_rules.specs.declared.shape.Shape.{Shape};
ghost use Rattle.bank_events.specs.BankView.{IsFile2};
ghost use Rattle.bank_events.specs.RegisterRules.{OfAsked, second_primary_held, second_merge_held};
ghost use Rattle.bank_events.specs.RegisterRules.{second_primary_told, second_merge_told};

use lf_mshr::{Organisation, Request2};
use lf_rules::{Rule, Shape};

/// The first rule that the target breaks as a primary miss of the level-two register.
pub fn second_primary_rule<O: Organisation<Target = Request2>>(
    regs2: &O::File,
    shape: &Shape,
    second: u32,
    target: &Request2,
    register: u16,
) -> Option<Rule>
    requires file { IsFile2 shape.now (O.seen regs2.now) }
    requires apart { holds (O.seen regs2.now).held second ≡ false }
    ensures held { result ≡ second_primary_held (O.seen regs2.now) register second target.now }
    ensures told { OfAsked shape.now (O.seen regs2.now) (λ fetched. result
        ≡ second_primary_told shape.now fetched register second target.now) }
{
    match O::fresh_fault(regs2, register, second, target) {
        Some(fault) => Some(fault.rule()),
        None => None,
    }
}

/// The first rule that the target breaks as a merge into the level-two register.
pub fn second_merge_rule<O: Organisation<Target = Request2>>(
    regs2: &O::File,
    shape: &Shape,
    holder: u16,
    second: u32,
    target: &Request2,
    register: u16,
) -> Option<Rule>
    requires file { IsFile2 shape.now (O.seen regs2.now) }
    requires holder { holds_in (O.seen regs2.now).held holder second ≡ true }
    ensures held { result ≡ second_merge_held (O.seen regs2.now) register second target.now }
    ensures told { OfAsked shape.now (O.seen regs2.now) (λ fetched. result
        ≡ second_merge_told shape.now fetched register second target.now) }
{
    match O::merge_fault_in(regs2, Some(holder), register, second, target) {
        Some(fault) => Some(fault.rule()),
        None => None,
    }
}

/// Whether some level-two register takes the target.
pub fn has_room2<O: Organisation<Target = Request2>>(
    regs2: &O::File,
    shape: &Shape,
    holder: Option<u16>,
    second: u32,
    target: &Request2,
) -> bool
    requires file { IsFile2 shape.now (O.seen regs2.now) }
    requires some { IfSome holder (λ r. holds_in (O.seen regs2.now).held r second ≡ true) }
    requires none { IfNone holder (holds (O.seen regs2.now).held second ≡ false) }
    ensures { OfAsked shape.now (O.seen regs2.now) (λ fetched. let level = shape.now.level2 in
        result ≡ has_room level.organisation (destinations2 shape.now) (position2 shape.now) fetched second
        target.now.destination target.now.position) }
{
    O::room_in(regs2, holder, second, target)
}
