//! Which rule a record breaks first. Nothing changes here.

ghost use Rattle.std.specs.Prelude.{◌≡◌, ℕ, ◌<◌, ◌/◌, true, Option, is_none};
ghost use Rattle.lf_rules.specs.declared.event.Event.TheVariants as event;
ghost use Rattle.lf_rules.specs.declared.event.Op.{Op};
ghost use Rattle.arrayvec.specs.ArrayVec.{ArrayVec};
ghost use Rattle.lf_rules.specs.Address.{second_of, place_of, sub_block, places};
ghost use Rattle.std.specs.List.{list_all};
ghost use Rattle.lf_rules.specs.Registers.{has_room as model_room, merge_clauses};
ghost use Rattle.lf_rules.specs.InRange.{IsShape};
ghost use Rattle.model_plain.specs.Plain.{slice_of, IsSliceFramed};
ghost use Rattle.lf_rules.specs.State.{Slice};
ghost use Rattle.lf_rules.specs.Table.{OfBoth, is_apart, asked_register, position2, rules_of, destination};
ghost use Rattle.lf_rules.specs.Table.{destinations, destinations2, is_at};
ghost use Rattle.lf_rules.specs.Run.{first_failing};

use crate::lines::{are_dirty, dirty_mask, has_line, has_way1, has_way2};
use crate::registers::{has_room, holds, is_free, merge_fault, registers_of, right_for_primary};
use crate::slice::PlainSlice;
use bank_state::{place_of, second_of, sub_block};
use lf_rules::{Block, Mask, Masks, Rule, Shape};

/// The number by which a register is inverted: one for each port and tag.
fn destination(shape: &Shape, port: u8, tag: u8) -> u32
    requires { IsShape shape.now }
    ensures { result ≡ destination shape.now port tag }
{
    u32::from(port) * shape.tags + u32::from(tag)
}

fn destinations(shape: &Shape) -> u32
    requires { IsShape shape.now }
    ensures { result ≡ destinations shape.now }
{
    shape.ports * shape.tags
}

/// At level two there is one for each register of level one.
fn destinations2(shape: &Shape) -> u32
    requires { IsShape shape.now }
    ensures { result ≡ destinations2 shape.now }
{
    registers_of(shape.level1.organisation, destinations(shape))
}

impl PlainSlice {
    /// `is_free` says whether the tag is not busy.
    pub fn judge_issue(shape: &Shape, is_free: bool, tag: u8) -> Option<Rule>
        ensures { (slice : Slice) (busy : ℕ → Option ℕ) (log bank size address : ℕ) (op : Op) (bytes : ArrayVec ℕ) →
            is_free ≡ is_none (busy tag) →
            result ≡ first_failing OfBoth (rules_of shape.now true busy slice log bank
            (event.Issue op tag size address bytes)) }
    {
        if u32::from(tag) >= shape.tags {
            return Some(Rule::TagRange);
        }
        if is_free { None } else { Some(Rule::TagBusy) }
    }

    /// `is_owed` says whether the tag is busy with this bank.
    pub fn judge_reply(
        &self,
        shape: &Shape,
        is_owed: bool,
        log: u8,
        tag: u8,
        size: u8,
        bytes: &Block,
    ) -> Option<Rule>
        ensures { (busy : ℕ → Option ℕ) (bank : ℕ) → is_owed ≡ is_at (busy tag) bank →
            result ≡ first_failing OfBoth (rules_of shape.now true busy (slice_of self.now) log bank
            (event.Reply tag size bytes.now)) }
    {
        if u32::from(tag) >= shape.tags {
            return Some(Rule::TagRange);
        }
        if !is_owed {
            return Some(Rule::NotOutstanding);
        }
        let Some(ready) = self.ready_for(log, tag) else {
            return Some(Rule::NotReady);
        };
        if usize::from(size) != ready.value().len() {
            return Some(Rule::ReplySize);
        }
        if bytes.as_slice() != ready.value() {
            return Some(Rule::ReplyData);
        }
        None
    }

    pub fn judge_hit(&self, shape: &Shape, port: u8, tag: u8) -> Option<Rule>
        requires { IsSliceFramed shape.now self.now }
        ensures { (busy : ℕ → Option ℕ) (log bank : ℕ) →
            result ≡ first_failing OfBoth (rules_of shape.now true busy (slice_of self.now) log bank
            (event.Hit port tag)) }
    {
        let Some(request) = self.head(port, tag) else {
            return Some(Rule::NotHead);
        };
        if !has_line(&self.lines1, request.block()) {
            return Some(Rule::NotPresent);
        }
        None
    }

    pub fn judge_primary(&self, shape: &Shape, port: u8, tag: u8, register: u16) -> Option<Rule>
        requires { IsSliceFramed shape.now self.now }
        ensures { (busy : ℕ → Option ℕ) (log bank : ℕ) →
            result ≡ first_failing OfBoth (rules_of shape.now true busy (slice_of self.now) log bank
            (event.Primary port tag register)) }
    {
        let Some(request) = self.head(port, tag) else {
            return Some(Rule::NotHead);
        };
        let organisation = shape.level1.organisation;
        let register = u32::from(register);
        if has_line(&self.lines1, request.block()) {
            return Some(Rule::Present);
        }
        if holds(&self.waiting, request.block()) {
            return Some(Rule::PrimaryInFlight);
        }
        if register >= registers_of(organisation, destinations(shape)) {
            return Some(Rule::RegisterRange);
        }
        if !right_for_primary(organisation, destination(shape, port, tag), register) {
            return Some(Rule::WrongRegister);
        }
        if !is_free(&self.waiting, register) {
            return Some(Rule::RegisterBusy);
        }
        None
    }

    pub fn judge_merge(&self, shape: &Shape, port: u8, tag: u8, register: u16) -> Option<Rule>
        requires { IsSliceFramed shape.now self.now }
        ensures { (busy : ℕ → Option ℕ) (log bank : ℕ) →
            result ≡ first_failing OfBoth (rules_of shape.now true busy (slice_of self.now) log bank
            (event.Merge port tag register)) }
    {
        let Some(request) = self.head(port, tag) else {
            return Some(Rule::NotHead);
        };
        merge_fault(
            shape.level1.organisation,
            shape.factor,
            destinations(shape),
            &self.waiting,
            request.block(),
            destination(shape, port, tag),
            u32::from(request.offset()) / 8,
            u32::from(register),
        )
    }

    pub fn judge_stall(&self, shape: &Shape, port: u8, tag: u8) -> Option<Rule>
        requires { IsSliceFramed shape.now self.now }
        ensures { (busy : ℕ → Option ℕ) (log bank : ℕ) →
            result ≡ first_failing OfBoth (rules_of shape.now true busy (slice_of self.now) log bank
            (event.Stall port tag)) }
    {
        let Some(request) = self.head(port, tag) else {
            return Some(Rule::NotHead);
        };
        if has_line(&self.lines1, request.block()) {
            return Some(Rule::Present);
        }
        if has_room(
            shape.level1.organisation,
            shape.factor,
            destinations(shape),
            &self.waiting,
            request.block(),
            destination(shape, port, tag),
            u32::from(request.offset()) / 8,
        ) {
            return Some(Rule::NeedlessStall);
        }
        None
    }

    /// `agrees` says whether the fill's bytes are those of memory off the bytes of waiting stores.
    pub fn judge_fill1(&self, shape: &Shape, agrees: bool, block: u32) -> Option<Rule>
        requires { IsSliceFramed shape.now self.now }
        ensures { (busy : ℕ → Option ℕ) (log bank : ℕ) (bytes : ArrayVec ℕ) →
            result ≡ first_failing OfBoth (rules_of shape.now agrees busy (slice_of self.now) log bank
            (event.Fill1 block bytes)) }
    {
        if !self.has_supplied(block) {
            return Some(Rule::NotSupplied);
        }
        if !has_way1(shape, &self.lines1, block) {
            return Some(Rule::SetFull);
        }
        if agrees { None } else { Some(Rule::FillData) }
    }

    /// `agrees` says whether the bytes are those of memory under the mask.
    pub fn judge_evict1(&self, shape: &Shape, agrees: bool, block: u32, mask: Mask) -> Option<Rule>
        requires { IsSliceFramed shape.now self.now }
        ensures { (busy : ℕ → Option ℕ) (log bank : ℕ) (bytes : ArrayVec ℕ) →
            result ≡ first_failing OfBoth (rules_of shape.now agrees busy (slice_of self.now) log bank
            (event.Evict1 block mask bytes)) }
    {
        if !has_line(&self.lines1, block) {
            return Some(Rule::EvictAbsent);
        }
        if mask.0 != dirty_mask(&self.lines1, block) {
            return Some(Rule::EvictMask);
        }
        if agrees { None } else { Some(Rule::EvictData) }
    }

    pub fn judge_second_hit(&self, shape: &Shape, block: u32) -> Option<Rule>
        requires { IsSliceFramed shape.now self.now }
        ensures { (busy : ℕ → Option ℕ) (log bank : ℕ) →
            result ≡ first_failing OfBoth (rules_of shape.now true busy (slice_of self.now) log bank
            (event.SecondHit block)) }
    {
        if !self.has_asked(block) {
            return Some(Rule::NotAsked);
        }
        if !has_line(&self.lines2, second_of(shape, block)) {
            return Some(Rule::SecondAbsent);
        }
        None
    }

    pub fn judge_second_primary(&self, shape: &Shape, block: u32, register: u16) -> Option<Rule>
        requires { IsSliceFramed shape.now self.now }
        ensures { (busy : ℕ → Option ℕ) (log bank : ℕ) →
            result ≡ first_failing OfBoth (rules_of shape.now true busy (slice_of self.now) log bank
            (event.SecondPrimary block register)) }
    {
        let organisation = shape.level2.organisation;
        let register = u32::from(register);
        let second = second_of(shape, block);
        if !self.has_asked(block) {
            return Some(Rule::NotAsked);
        }
        if has_line(&self.lines2, second) {
            return Some(Rule::SecondPresent);
        }
        if holds(&self.regs2, second) {
            return Some(Rule::PrimaryInFlight);
        }
        if register >= registers_of(organisation, destinations2(shape)) {
            return Some(Rule::RegisterRange);
        }
        if !right_for_primary(
            organisation,
            u32::from(self.asked_register(block)),
            register,
        ) {
            return Some(Rule::WrongRegister);
        }
        if !is_free(&self.regs2, register) {
            return Some(Rule::RegisterBusy);
        }
        None
    }

    /// The first rule that a further level-two miss breaks in joining the register.
    fn merge_fault2(&self, shape: &Shape, block: u32, register: u16) -> Option<Rule>
        requires { IsShape shape.now }
        ensures { let slice = slice_of self.now in
            result ≡ first_failing OfBoth (merge_clauses shape.now.level2.organisation (destinations2 shape.now)
            (position2 shape.now) slice.regs2
            (second_of shape.now block) (asked_register slice.asked block) (place_of shape.now block) register) }
    {
        merge_fault(
            shape.level2.organisation,
            shape.factor,
            destinations2(shape),
            &self.regs2,
            second_of(shape, block),
            u32::from(self.asked_register(block)),
            place_of(shape, block),
            u32::from(register),
        )
    }

    pub fn judge_second_merge(&self, shape: &Shape, block: u32, register: u16) -> Option<Rule>
        requires { IsSliceFramed shape.now self.now }
        ensures { (busy : ℕ → Option ℕ) (log bank : ℕ) →
            result ≡ first_failing OfBoth (rules_of shape.now true busy (slice_of self.now) log bank
            (event.SecondMerge block register)) }
    {
        let second = second_of(shape, block);
        if !self.has_asked(block) {
            return Some(Rule::NotAsked);
        }
        if has_line(&self.lines2, second) {
            return Some(Rule::SecondPresent);
        }
        self.merge_fault2(shape, block, register)
    }

    /// Whether some level-two register takes the miss of a block that level one asks for.
    fn has_room2(&self, shape: &Shape, block: u32) -> bool
        requires { IsShape shape.now }
        ensures { let slice = slice_of self.now in
            result ≡ model_room shape.now.level2.organisation (destinations2 shape.now) (position2 shape.now)
            slice.regs2 (second_of shape.now block)
            (asked_register slice.asked block) (place_of shape.now block) }
    {
        has_room(
            shape.level2.organisation,
            shape.factor,
            destinations2(shape),
            &self.regs2,
            second_of(shape, block),
            u32::from(self.asked_register(block)),
            place_of(shape, block),
        )
    }

    pub fn judge_second_stall(&self, shape: &Shape, block: u32) -> Option<Rule>
        requires { IsSliceFramed shape.now self.now }
        ensures { (busy : ℕ → Option ℕ) (log bank : ℕ) →
            result ≡ first_failing OfBoth (rules_of shape.now true busy (slice_of self.now) log bank
            (event.SecondStall block)) }
    {
        let second = second_of(shape, block);
        if !self.has_asked(block) {
            return Some(Rule::NotAsked);
        }
        if has_line(&self.lines2, second) {
            return Some(Rule::SecondPresent);
        }
        if self.has_room2(shape, block) {
            return Some(Rule::NeedlessStall);
        }
        None
    }

    /// `agrees` as for a fill of level one.
    pub fn judge_fill2(&self, shape: &Shape, agrees: bool, second: u32) -> Option<Rule>
        requires { IsSliceFramed shape.now self.now }
        ensures { (busy : ℕ → Option ℕ) (log bank : ℕ) (bytes : ArrayVec ℕ) →
            result ≡ first_failing OfBoth (rules_of shape.now agrees busy (slice_of self.now) log bank
            (event.Fill2 second bytes)) }
    {
        if !holds(&self.regs2, second) {
            return Some(Rule::NotFetched);
        }
        if !has_way2(shape, &self.lines2, second) {
            return Some(Rule::SetFull);
        }
        if agrees { None } else { Some(Rule::FillData) }
    }

    /// Whether level one has neither a line nor a register on any block of the second-level block.
    fn is_apart(&self, shape: &Shape, second: u32) -> bool
        requires in_range { IsShape shape.now }
        requires fits { second < 0x1_0000_0000 / shape.now.factor }
        ensures { result ≡ list_all (is_apart shape.now (slice_of self.now) second) (places shape.now) }
    {
        for place in 0..shape.factor {
            let block = sub_block(shape, second, place);
            if has_line(&self.lines1, block) || holds(&self.waiting, block) {
                return false;
            }
        }
        true
    }

    /// `agrees` as for an eviction of level one.
    pub fn judge_evict2(
        &self,
        shape: &Shape,
        agrees: bool,
        second: u32,
        masks: &Masks,
    ) -> Option<Rule>
        requires framed { IsSliceFramed shape.now self.now }
        requires fits { second < 0x1_0000_0000 / shape.now.factor }
        ensures { (busy : ℕ → Option ℕ) (log bank : ℕ) (bytes : ArrayVec ℕ) →
            result ≡ first_failing OfBoth (rules_of shape.now agrees busy (slice_of self.now) log bank
            (event.Evict2 second masks.now bytes)) }
    {
        if !has_line(&self.lines2, second) {
            return Some(Rule::EvictAbsent);
        }
        if !self.is_apart(shape, second) {
            return Some(Rule::Inclusion);
        }
        if !are_dirty(shape.factor, &self.lines2, second, masks) {
            return Some(Rule::EvictMask);
        }
        if agrees { None } else { Some(Rule::EvictData) }
    }
}
