//! The state of a bank of any shape, by the organisations of its two levels.

ghost use Rattle.std.specs.Prelude.{◌≡◌, true};
ghost use Rattle.lf_replay.specs.AnyBank.{view_of, second_view_of};

use crate::state::BankState;
use bank_events::{Bank, BankFault};
use lf_mshr::{Explicit, Implicit, Inverted, Organisation, Request1, Request2};
use lf_rules::{Block, NoMemory, OrgShape, Shape};
use std::alloc::Global;
use trace_views::RecordView;

/// A bank with this organisation of level one, by that of level two.
#[derive(Drop)]
pub enum SecondBank<O1: Organisation<Target = Request1>> {
    Implicit(Bank<O1, Implicit<Request2>>),
    Explicit(Bank<O1, Explicit<Request2>>),
    Inverted(Bank<O1, Inverted<Request2>>),
}

/// A bank, by the organisation of level one.
#[derive(Drop)]
pub enum AnyBank {
    Implicit(SecondBank<Implicit<Request1>>),
    Explicit(SecondBank<Explicit<Request1>>),
    Inverted(SecondBank<Inverted<Request1>>),
}

impl<O1: Organisation<Target = Request1>> BankState for SecondBank<O1> {
    ghost view = { second_view_of };

    ghost suits = { λ shape. O1.names shape.level1.organisation ≡ true };

    fn new(
        alloc: Global,
        shape: &Shape,
        memory: &[(u32, Block)],
        bank: u32,
    ) -> Result<SecondBank<O1>, NoMemory> {
        match shape.level2.organisation {
            OrgShape::Implicit { .. } => Ok(SecondBank::Implicit(BankState::new(
                alloc, shape, memory, bank,
            )?)),
            OrgShape::Explicit { .. } => Ok(SecondBank::Explicit(BankState::new(
                alloc, shape, memory, bank,
            )?)),
            OrgShape::Inverted => Ok(SecondBank::Inverted(BankState::new(
                alloc, shape, memory, bank,
            )?)),
        }
    }

    fn apply(&mut self, item: &RecordView<'_>) -> Result<(), BankFault> {
        match self {
            SecondBank::Implicit(bank) => BankState::apply(bank, item),
            SecondBank::Explicit(bank) => BankState::apply(bank, item),
            SecondBank::Inverted(bank) => BankState::apply(bank, item),
        }
    }
}

impl BankState for AnyBank {
    ghost view = { view_of };

    ghost suits = { λ shape. Unit };

    fn new(
        alloc: Global,
        shape: &Shape,
        memory: &[(u32, Block)],
        bank: u32,
    ) -> Result<AnyBank, NoMemory> {
        match shape.level1.organisation {
            OrgShape::Implicit { .. } => {
                Ok(AnyBank::Implicit(SecondBank::new(alloc, shape, memory, bank)?))
            }
            OrgShape::Explicit { .. } => {
                Ok(AnyBank::Explicit(SecondBank::new(alloc, shape, memory, bank)?))
            }
            OrgShape::Inverted => Ok(AnyBank::Inverted(SecondBank::new(
                alloc, shape, memory, bank,
            )?)),
        }
    }

    fn apply(&mut self, item: &RecordView<'_>) -> Result<(), BankFault> {
        match self {
            AnyBank::Implicit(bank) => bank.apply(item),
            AnyBank::Explicit(bank) => bank.apply(item),
            AnyBank::Inverted(bank) => bank.apply(item),
        }
    }
}
