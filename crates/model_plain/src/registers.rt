//! The registers of one level: what they hold, in the order of acceptance.

ghost use Rattle.std.specs.Prelude.{◌≡◌, ℕ, ◌<◌, ◌==◌, ◌&&◌, ◌%◌, count_by};
ghost use Rattle.std.specs.List.{list_any, range_with_len};
ghost use Rattle.lf_rules.specs.Registers as model;
ghost use Rattle.lf_rules.specs.Run.{first_failing};
ghost use Rattle.lf_rules.specs.Table.{OfBoth, position, store_bytes, store_mask};
ghost use Rattle.lf_rules.specs.Registers.{holds, is_free, holds_in, takes, has_room, released};
ghost use Rattle.lf_rules.specs.Registers.{registers_of, right_for_primary, right_for_merge, merge_clauses};

use crate::missed::Missed;
use lf_rules::{OrgShape, Rule};
use std::marker::Model;

/// A register's block, and one target of it.
#[derive(Drop)]
pub struct Held<T> {
    pub register: u16,
    pub block: u32,
    pub target: T,
}

impl<T> Model for Held<T> {
    ghost use Rattle.lf_rules.specs.Registers as model;

    ghost Value = { model.Held T };

    ghost view = { λ h. record { register = h.register; block = h.block; target = h.target } };
}

impl<T> Held<T> {
    pub fn register(&self) -> u32
        ensures { result ≡ self.now.register }
    {
        u32::from(self.register)
    }

    pub fn block(&self) -> u32
        ensures { result ≡ self.now.block }
    {
        self.block
    }

    pub fn target(&self) -> &T
        ensures { result.now ≡ self.now.target }
    {
        &self.target
    }
}

/// What a register holds for a request.
pub trait Target: Drop {
    ghost position: { ℕ → Self → ℕ };

    /// The field of an implicitly addressed register that the target takes, where a second-level
    /// block has so many blocks.
    fn position(&self, factor: u32) -> u32
        requires { 0 < factor }
        ensures { result ≡ position factor self.now };
}

impl Target for Missed {
    ghost position = { λ factor. position };

    fn position(&self, _factor: u32) -> u32 {
        self.word()
    }
}

/// A level-two register's target is a block that level one asked for, and the register that asked.
impl Target for (u32, u16) {
    ghost position = { λ factor asked. asked.0 % factor };

    fn position(&self, factor: u32) -> u32 {
        self.0 % factor
    }
}

pub fn holds<T>(held: &[Held<T>], block: u32) -> bool
    ensures { result ≡ holds held.now block }
{
    held.iter().any(|h| h.block() == block)
}

fn is_used<T>(held: &[Held<T>], register: u32) -> bool
    ensures { result ≡ list_any (λ h. h.register == register) held.now }
{
    held.iter().any(|h| h.register() == register)
}

pub fn is_free<T>(held: &[Held<T>], register: u32) -> bool
    ensures { result ≡ is_free held.now register }
{
    !is_used(held, register)
}

pub fn holds_in<T>(held: &[Held<T>], register: u32, block: u32) -> bool
    ensures { result ≡ holds_in held.now register block }
{
    held.iter()
        .any(|h| h.register() == register && h.block() == block)
}

/// How many targets the register holds.
fn targets_in<T>(held: &[Held<T>], register: u32) -> usize
    ensures { result ≡ count_by (λ h. h.register == register) held.now }
{
    held.iter().filter(|h| h.register() == register).count()
}

/// Whether the register's field at this position is in use.
fn is_field_used<T: Target>(factor: u32, held: &[Held<T>], register: u32, at: u32) -> bool
    requires { 0 < factor }
    ensures { result ≡ list_any (λ h. h.register == register && T.position factor h.target == at) held.now }
{
    for h in held {
        if h.register() == register && h.target().position(factor) == at {
            return true;
        }
    }
    false
}

/// Whether a further target at this position has a place in the register.
pub fn takes<T: Target>(
    organisation: OrgShape,
    factor: u32,
    held: &[Held<T>],
    register: u32,
    at: u32,
) -> bool
    requires { 0 < factor }
    ensures { result ≡ takes organisation (T.position factor) held.now register at }
{
    match organisation {
        OrgShape::Implicit { .. } => !is_field_used(factor, held, register, at),
        OrgShape::Explicit { entries, .. } => targets_in(held, register) < entries as usize,
        OrgShape::Inverted => is_free(held, register),
    }
}

/// How many registers there are.
pub fn registers_of(organisation: OrgShape, destinations: u32) -> u32
    ensures { result ≡ registers_of organisation destinations }
{
    match organisation {
        OrgShape::Implicit { registers } | OrgShape::Explicit { registers, .. } => registers,
        OrgShape::Inverted => destinations,
    }
}

/// Whether a primary miss of this destination may take the register.
pub fn right_for_primary(organisation: OrgShape, destination: u32, register: u32) -> bool
    ensures { result ≡ right_for_primary organisation destination register }
{
    match organisation {
        OrgShape::Inverted => register == destination,
        _ => true,
    }
}

/// Whether it is the register that a further miss of this destination to the block joins.
pub fn right_for_merge<T>(
    organisation: OrgShape,
    held: &[Held<T>],
    block: u32,
    destination: u32,
    register: u32,
) -> bool
    ensures { result ≡ right_for_merge organisation held.now block destination register }
{
    match organisation {
        OrgShape::Inverted => register == destination,
        _ => holds_in(held, register, block),
    }
}

/// Whether the register holds the block and has a place for a further target at this position.
fn takes_block<T: Target>(
    organisation: OrgShape,
    factor: u32,
    held: &[Held<T>],
    block: u32,
    register: u32,
    at: u32,
) -> bool
    requires { 0 < factor }
    ensures { result ≡ (holds_in held.now register block && takes organisation (T.position factor) held.now register
        at) }
{
    holds_in(held, register, block) && takes(organisation, factor, held, register, at)
}

fn some_takes<T: Target>(
    organisation: OrgShape,
    factor: u32,
    registers: u32,
    held: &[Held<T>],
    block: u32,
    at: u32,
) -> bool
    requires { 0 < factor }
    ensures { result ≡ list_any (λ r. holds_in held.now r block
        && takes organisation (T.position factor) held.now r at) (range_with_len 0 registers) }
{
    for r in 0..registers {
        if takes_block(organisation, factor, held, block, r, at) {
            return true;
        }
    }
    false
}

fn some_is_free<T>(registers: u32, held: &[Held<T>]) -> bool
    ensures { result ≡ list_any (is_free held.now) (range_with_len 0 registers) }
{
    (0..registers).any(|r| is_free(held, r))
}

/// Whether some register takes a target of this block, destination and position.
pub fn has_room<T: Target>(
    organisation: OrgShape,
    factor: u32,
    destinations: u32,
    held: &[Held<T>],
    block: u32,
    destination: u32,
    at: u32,
) -> bool
    requires { 0 < factor }
    ensures { result ≡ has_room organisation destinations (T.position factor) held.now block destination at }
{
    match organisation {
        OrgShape::Implicit { registers } | OrgShape::Explicit { registers, .. } => {
            if holds(held, block) {
                some_takes(organisation, factor, registers, held, block, at)
            } else {
                some_is_free(registers, held)
            }
        }
        OrgShape::Inverted => destination < destinations && is_free(held, destination),
    }
}

/// The first rule that a further miss to the block breaks in joining the register.
pub fn merge_fault<T: Target>(
    organisation: OrgShape,
    factor: u32,
    destinations: u32,
    held: &[Held<T>],
    block: u32,
    destination: u32,
    at: u32,
    register: u32,
) -> Option<Rule>
    requires { 0 < factor }
    ensures { result ≡ first_failing OfBoth (merge_clauses organisation destinations (T.position factor) held.now
        block destination at register) }
{
    if !holds(held, block) {
        return Some(Rule::NotInFlight);
    }
    if register >= registers_of(organisation, destinations) {
        return Some(Rule::RegisterRange);
    }
    if !right_for_merge(organisation, held, block, destination, register) {
        return Some(Rule::WrongRegister);
    }
    if !takes(organisation, factor, held, register, at) {
        return Some(Rule::MergeFull);
    }
    None
}

/// The targets of the block leave; the others keep their order.
pub fn release<T: Drop>(held: &mut Vec<Held<T>>, block: u32)
    ensures { held.new.items ≡ released held.old.items block }
{
    held.retain(|h| h.block() != block);
}

/// The bytes that waiting stores of the block write.
pub fn store_bytes(waiting: &[Held<Missed>], block: u32) -> u64
    ensures { result ≡ store_bytes waiting.now block }
{
    waiting
        .iter()
        .filter(|h| h.block() == block)
        .fold(0, |mask, h| mask | h.target().store_mask())
}
