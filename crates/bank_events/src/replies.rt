//! The replies that a fill makes ready.

ghost use Rattle.std.specs.Prelude.{◌≡◌, ◌≤◌, ◌+◌, ◌++◌, ℕ, List, map, length, vec_capacity};
ghost use Rattle.lf_rules.specs.InRange.{IsShape};
ghost use Rattle.lf_rules.specs.Registers.{Held, targets_of};
ghost use Rattle.lf_rules.specs.State.{Missed};
ghost use Rattle.lf_rules.specs.Table.{reply_of};
ghost use Rattle.lf_mshr.specs.Alike.{AreAlike};
ghost use Rattle.lf_mshr.specs.RegisterFile.{released_pair};
ghost use Rattle.lf_mshr.specs.declared.level_one.Request1.{Request1};
ghost use Rattle.bank_events.specs.Targets.{IsTarget1};

use crate::target::reply_of;
use bank_state::Ready;
use lf_mshr::Request1;
use lf_rules::Shape;

/// The requests of which the targets tell may have their replies, in the order of acceptance.
pub fn add_replies(ready: &mut Vec<Ready>, shape: &Shape, targets: &[(u16, Request1)])
    requires in_range { IsShape shape.now }
    requires room { length ready.old.items + length targets.now ≤ vec_capacity ready.old }
    requires told { (held : List (Held Request1)) × (waiting : List (Held Missed)) × (block : ℕ)
        × (AreAlike (IsTarget1 shape.now) held waiting) × (targets.now ≡ map released_pair (targets_of held block)) }
    ensures { (held : List (Held Request1)) (waiting : List (Held Missed)) (block : ℕ)
        → AreAlike (IsTarget1 shape.now) held waiting → targets.now ≡ map released_pair (targets_of held block)
        → ready.new.items ≡ ready.old.items ++ map reply_of (targets_of waiting block) }
{
    for (_, target) in targets {
        ready.push_reserved(reply_of(shape, target));
    }
}
