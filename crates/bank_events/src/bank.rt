//! A bank, with two organisations of registers.

ghost use Rattle.std.specs.Prelude.{◌≡◌, ◌≤◌, true, IfOk};
ghost use Rattle.lf_rules.specs.Address.{flat_memory};
ghost use Rattle.lf_rules.specs.InRange.{IsShape};
ghost use Rattle.lf_rules.specs.Table.{destinations, destinations2};
ghost use Rattle.bank_state.specs.Bytes.{bank_part};
ghost use Rattle.bank_events.specs.BankView.{IsSteady};
ghost use Rattle.bank_events.specs.Opening.{IsNew};

use crate::counts::no_lines;
use bank_cells::Cells;
use bank_state::{Queue, Ready, empty_queues};
use lf_levels::Sets;
use lf_mshr::{Organisation, Request1, Request2, Targets};
use lf_rules::{Block, NoMemory, OrgShape, Shape};
use std::alloc::Global;
use std::marker::Model;

/// What a bank of both levels holds.
#[derive(Drop)]
pub struct Bank<O1: Organisation<Target = Request1>, O2: Organisation<Target = Request2>> {
    pub shape: Shape,
    pub cells: Cells,
    /// One for each port.
    pub queues: Vec<Queue>,
    /// The sets of level one.
    pub sets1: Sets,
    /// How many lines each of them has.
    pub counts1: Vec<u32>,
    /// The sets of level two.
    pub sets2: Sets,
    /// How many lines each of them has.
    pub counts2: Vec<u32>,
    /// The level-one registers.
    pub waiting: O1::File,
    /// The level-two registers.
    pub regs2: O2::File,
    pub ready: Vec<Ready>,
    /// What the last fill of level one released. No state is kept in it.
    pub replied: Targets<Request1>,
    /// What the last fill of level two released. No state is kept in it.
    pub fetched: Targets<Request2>,
}

impl<O1: Organisation<Target = Request1>, O2: Organisation<Target = Request2>> Model
    for Bank<O1, O2> {
    ghost use Rattle.bank_events.specs.BankView.{BankView, IsKept};

    ghost Value = { BankView };

    ghost view = { λ b. record {
      shape = b.shape;
      cells = b.cells;
      queues = b.queues.items;
      counts1 = b.counts1.items;
      counts2 = b.counts2.items;
      waiting = O1.seen b.waiting;
      regs2 = O2.seen b.regs2;
      ready = b.ready.items;
    } };

    ghost invariant = { λ b. IsKept (record {
      shape = b.shape;
      cells = b.cells;
      queues = b.queues.items;
      counts1 = b.counts1.items;
      counts2 = b.counts2.items;
      waiting = O1.seen b.waiting;
      regs2 = O2.seen b.regs2;
      ready = b.ready.items;
    }) b.sets1 b.sets2 };
}

/// How many requests may wait at level one: one for each port and tag.
fn destinations(shape: &Shape) -> u16
    requires { IsShape shape.now }
    ensures number { result ≡ destinations shape.now }
    ensures few { result ≤ 1024 }
{
    (shape.ports * shape.tags) as u16
}

/// How many blocks may wait at level two: one for each register of level one.
fn destinations2(shape: &Shape) -> u16
    requires { IsShape shape.now }
    ensures number { result ≡ destinations2 shape.now }
    ensures few { result ≤ 1024 }
{
    match shape.level1.organisation {
        OrgShape::Implicit { registers } | OrgShape::Explicit { registers, .. } => registers as u16,
        OrgShape::Inverted => destinations(shape),
    }
}

impl<O1: Organisation<Target = Request1>, O2: Organisation<Target = Request2>> Bank<O1, O2> {
    /// The opening state, with the bank's blocks of the memory that a trace names.
    pub fn new(
        alloc: Global,
        shape: &Shape,
        memory: &[(u32, Block)],
        bank: u32,
    ) -> Result<Bank<O1, O2>, NoMemory>
        requires in_range { IsShape shape.now }
        requires names1 { O1.names shape.now.level1.organisation ≡ true }
        requires names2 { O2.names shape.now.level2.organisation ≡ true }
        ensures new { IfOk result (λ opened. IsNew opened shape.now
            (bank_part shape.now bank (flat_memory memory.now))) }
        ensures steady { IfOk result (λ opened. IsSteady opened) }
    {
        let level1 = shape.level1;
        let level2 = shape.level2;
        Ok(Bank {
            shape: *shape,
            cells: Cells::of_bank(alloc, memory, shape, bank)?,
            queues: empty_queues(alloc, shape.ports)?,
            sets1: Sets::new(shape.banks, shape.factor, level1.sets),
            counts1: no_lines(alloc, level1.sets)?,
            sets2: Sets::new(shape.banks, shape.factor, level2.sets),
            counts2: no_lines(alloc, level2.sets)?,
            waiting: O1::new(alloc, &level1.organisation, destinations(shape))?,
            regs2: O2::new(alloc, &level2.organisation, destinations2(shape))?,
            ready: Vec::new(alloc),
            replied: Targets::new(alloc)?,
            fetched: Targets::new(alloc)?,
        })
    }
}
