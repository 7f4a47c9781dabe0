//! The events of level two, as those of level one.

ghost use Rattle.std.specs.Prelude.{◌≡◌, ◌<◌, ◌*◌, ℕ, true, false, length, slice_index, None, Some};
ghost use Rattle.std.specs.Prelude.{IfSome, IfNone, IfOk, IfErr};
ghost use Rattle.lf_rules.specs.declared.event.Event.TheVariants as event;
ghost use Rattle.lf_rules.specs.Address as address;
ghost use Rattle.lf_rules.specs.Address.{second_of};
ghost use Rattle.trace_views.specs.Views.{masks_of};
ghost use Rattle.bank_cells.specs.declared.known.Second.TheVariants as second_level;
ghost use Rattle.bank_cells.specs.Cells.{cell_of, place_of, first_at, second_at};
ghost use Rattle.bank_events.specs.Answers.{IsAnswer, IsJudged};
ghost use Rattle.bank_events.specs.BankView.{IsSteady};
ghost use Rattle.bank_events.specs.Known.{is_asking, register_of};
ghost use Rattle.bank_events.specs.KnownRules.{set2};

use crate::bank::Bank;
use crate::carried::wide_agrees;
use crate::fault::BankFault;
use crate::holders::second_holder_of;
use crate::leaving::{all_absent, are_dirty};
use crate::registers::{has_room2, second_merge_rule, second_primary_rule};
use crate::supply::{clean, supply};
use bank_cells::{Fetch, First, Second};
use bank_state::{place_of, second_of};
use lf_levels::Two;
use lf_mshr::{Organisation, Request1, Request2};
use lf_rules::Rule;
use trace_views::MasksView;

/// A block that level one asks for: its cell, and the register of its primary miss.
#[derive(Clone, Copy)]
pub struct Asked {
    pub cell: usize,
    pub register: u16,
}

/// A second-level block that the bank knows: its place, and its set in level two.
#[derive(Clone, Copy)]
pub struct Placed {
    pub place: usize,
    pub set: usize,
}

/// A second-level block that may come into level two: its place, its set, and the register of its primary miss.
#[derive(Clone, Copy)]
pub struct Fetched {
    pub place: usize,
    pub set: usize,
    pub register: u16,
}

impl<O1: Organisation<Target = Request1>, O2: Organisation<Target = Request2>> Bank<O1, O2> {
    /// The block, where level one asks for it.
    #[inline(always)]
    fn asked(&self, block: u32) -> Option<Asked>
        ensures some { IfSome result (λ asked. (cell_of self.now.cells block ≡ Some asked.cell)
            × ((is_asking (first_at self.now.cells block) ≡ true)
            × (asked.register ≡ register_of (first_at self.now.cells block)))) }
        ensures none { IfNone result (is_asking (first_at self.now.cells block) ≡ false) }
    {
        let Some(cell) = self.cells.find(block) else {
            return None;
        };
        match self.cells.first(cell) {
            First::InFlight {
                register,
                fetch: Fetch::Asked,
            } => Some(Asked { cell, register }),
            _ => None,
        }
    }

    /// What a level-two register keeps of a block that level one asks for.
    #[inline(always)]
    fn fetching(&self, block: u32, asked: Asked) -> Request2
        ensures position { result.position ≡ address.place_of self.now.shape block }
        ensures destination { result.destination ≡ asked.register }
    {
        Request2 {
            position: place_of(&self.shape, block) as u8,
            destination: asked.register,
        }
    }

    /// The block that level one asks for is in level two, in its second-level block.
    pub fn second_hit(&mut self, block: u32) -> Result<(), BankFault>
        ensures { (log : ℕ) → IsAnswer self.old self.new log (event.SecondHit block) result }
    {
        let Some(asked) = self.asked(block) else {
            return Err(BankFault::Rule(Rule::NotAsked));
        };
        let Second::Present = self.cells.second_of(asked.cell) else {
            return Err(BankFault::Rule(Rule::SecondAbsent));
        };
        let (register, fetch) = (asked.register, Fetch::Supplied);
        self.cells
            .set_first(asked.cell, First::InFlight { register, fetch });
        Ok(())
    }

    /// The block that level one asks for misses in level two and takes a register.
    pub fn second_primary(&mut self, block: u32, register: u16) -> Result<(), BankFault>
        requires { IsSteady self.old }
        ensures { (log : ℕ) → IsAnswer self.old self.new log (event.SecondPrimary block register) result }
    {
        let Some(asked) = self.asked(block) else {
            return Err(BankFault::Rule(Rule::NotAsked));
        };
        match self.cells.second_of(asked.cell) {
            Second::Absent => {}
            Second::InFlight { .. } => return Err(BankFault::Rule(Rule::PrimaryInFlight)),
            Second::Present => return Err(BankFault::Rule(Rule::SecondPresent)),
        }
        let second = second_of(&self.shape, block);
        let target = self.fetching(block, asked);
        if let Some(rule) = second_primary_rule::<O2>(
            &self.regs2,
            &self.shape,
            second,
            &target,
            register,
        ) {
            return Err(BankFault::Rule(rule));
        }
        O2::place(&mut self.regs2, register, second, target);
        self.cells
            .set_second_of(asked.cell, Second::InFlight { register });
        let (register, fetch) = (asked.register, Fetch::Missed);
        self.cells
            .set_first(asked.cell, First::InFlight { register, fetch });
        Ok(())
    }

    /// The block that level one asks for misses in level two and joins a register that waits for its second-level
    /// block.
    pub fn second_merge(&mut self, block: u32, register: u16) -> Result<(), BankFault>
        requires { IsSteady self.old }
        ensures { (log : ℕ) → IsAnswer self.old self.new log (event.SecondMerge block register) result }
    {
        let Some(asked) = self.asked(block) else {
            return Err(BankFault::Rule(Rule::NotAsked));
        };
        let holder = match self.cells.second_of(asked.cell) {
            Second::Absent => return Err(BankFault::Rule(Rule::NotInFlight)),
            Second::InFlight { register } => register,
            Second::Present => return Err(BankFault::Rule(Rule::SecondPresent)),
        };
        let second = second_of(&self.shape, block);
        let target = self.fetching(block, asked);
        if let Some(rule) = second_merge_rule::<O2>(
            &self.regs2,
            &self.shape,
            holder,
            second,
            &target,
            register,
        ) {
            return Err(BankFault::Rule(rule));
        }
        O2::place(&mut self.regs2, register, second, target);
        let (register, fetch) = (asked.register, Fetch::Missed);
        self.cells
            .set_first(asked.cell, First::InFlight { register, fetch });
        Ok(())
    }

    /// The block that level one asks for misses in level two and finds no room.
    pub fn second_stall(&self, block: u32) -> Result<(), BankFault>
        requires { IsSteady self.now }
        ensures { (log : ℕ) → IsAnswer self.now self.now log (event.SecondStall block) result }
    {
        let Some(asked) = self.asked(block) else {
            return Err(BankFault::Rule(Rule::NotAsked));
        };
        let now = self.cells.second_of(asked.cell);
        if let Second::Present = now {
            return Err(BankFault::Rule(Rule::SecondPresent));
        }
        let second = second_of(&self.shape, block);
        let target = self.fetching(block, asked);
        let holder = second_holder_of(now);
        if has_room2::<O2>(&self.regs2, &self.shape, holder, second, &target) {
            return Err(BankFault::Rule(Rule::NeedlessStall));
        }
        Ok(())
    }

    /// The set of a second-level block in level two.
    fn set2(&self, second: u32) -> usize
        ensures set { result ≡ set2 self.now.shape second }
        ensures inside { result < length self.now.counts2 }
    {
        self.sets2.set_of::<Two>(second) as usize
    }

    /// Where the second-level block stands that may come into level two, or the rule that is broken.
    fn judge_fill2(&self, second: u32, bytes: &[u8]) -> Result<Fetched, Rule>
        requires whole { length bytes.now ≡ self.now.shape.factor * self.now.shape.block }
        ensures broken { IfErr result (λ rule. (log : ℕ) →
            IsJudged self.now log (event.Fill2 second (record { items = bytes.now })) (Some rule)) }
        ensures kept { IfOk result (λ _. (log : ℕ) →
            IsJudged self.now log (event.Fill2 second (record { items = bytes.now })) None) }
        ensures place { IfOk result (λ placed. place_of self.now.cells second ≡ Some placed.place) }
        ensures set { IfOk result (λ placed. placed.set ≡ set2 self.now.shape second) }
        ensures inside { IfOk result (λ placed. placed.set < length self.now.counts2) }
        ensures room { IfOk result (λ placed.
            slice_index self.now.counts2 placed.set < self.now.shape.level2.ways) }
        ensures flies { IfOk result (λ placed.
            second_at self.now.cells second ≡ second_level.InFlight placed.register) }
    {
        let Some(place) = self.cells.find_second(second) else {
            return Err(Rule::NotFetched);
        };
        let Second::InFlight { register } = self.cells.second(place) else {
            return Err(Rule::NotFetched);
        };
        let set = self.set2(second);
        if self.counts2[set] >= self.shape.level2.ways {
            return Err(Rule::SetFull);
        }
        if !wide_agrees(&self.shape, &self.cells, place, bytes) {
            return Err(Rule::FillData);
        }
        Ok(Fetched {
            place,
            set,
            register,
        })
    }

    /// The second-level block comes into level two, and each block of it that was fetched is supplied.
    pub fn fill2(&mut self, second: u32, bytes: &[u8]) -> Result<(), BankFault>
        requires steady { IsSteady self.old }
        requires whole { length bytes.now ≡ self.old.shape.factor * self.old.shape.block }
        ensures { (log : ℕ) →
            IsAnswer self.old self.new log (event.Fill2 second (record { items = bytes.now })) result }
    {
        let placed = match self.judge_fill2(second, bytes) {
            Ok(placed) => placed,
            Err(rule) => return Err(BankFault::Rule(rule)),
        };
        self.counts2[placed.set] += 1;
        self.cells.set_second(placed.place, Second::Present);
        clean(&mut self.cells, &self.shape, placed.place);
        O2::release_of(&mut self.regs2, placed.register, second, &mut self.fetched);
        supply(&mut self.cells, placed.place, self.fetched.as_slice());
        Ok(())
    }

    /// Where the second-level block stands that may leave level two, or the rule that is broken.
    fn judge_evict2(&self, second: u32, masks: &MasksView<'_>, bytes: &[u8]) -> Result<Placed, Rule>
        requires count { length (masks_of masks.now).items ≡ self.now.shape.factor }
        ensures broken { IfErr result (λ rule. (log : ℕ) →
            IsJudged self.now log (event.Evict2 second (masks_of masks.now) (record { items = bytes.now }))
            (Some rule)) }
        ensures kept { IfOk result (λ _. (log : ℕ) →
            IsJudged self.now log (event.Evict2 second (masks_of masks.now) (record { items = bytes.now })) None) }
        ensures place { IfOk result (λ placed. place_of self.now.cells second ≡ Some placed.place) }
        ensures set { IfOk result (λ placed. placed.set ≡ set2 self.now.shape second) }
        ensures inside { IfOk result (λ placed. placed.set < length self.now.counts2) }
    {
        let Some(place) = self.cells.find_second(second) else {
            return Err(Rule::EvictAbsent);
        };
        let Second::Present = self.cells.second(place) else {
            return Err(Rule::EvictAbsent);
        };
        if !all_absent(&self.shape, &self.cells, place) {
            return Err(Rule::Inclusion);
        }
        if !are_dirty(&self.shape, &self.cells, place, masks) {
            return Err(Rule::EvictMask);
        }
        if !self.cells.wide_carries(&self.shape, place, masks, bytes) {
            return Err(Rule::EvictData);
        }
        let set = self.set2(second);
        Ok(Placed { place, set })
    }

    /// Level two gives the second-level block up, with the bytes of its dirty masks.
    pub fn evict2(
        &mut self,
        second: u32,
        masks: &MasksView<'_>,
        bytes: &[u8],
    ) -> Result<(), BankFault>
        requires count { length (masks_of masks.now).items ≡ self.old.shape.factor }
        ensures { (log : ℕ) → IsAnswer self.old self.new log
            (event.Evict2 second (masks_of masks.now) (record { items = bytes.now })) result }
    {
        let placed = match self.judge_evict2(second, masks, bytes) {
            Ok(placed) => placed,
            Err(rule) => return Err(BankFault::Rule(rule)),
        };
        let set = placed.set;
        self.counts2[set] = self.counts2[set].saturating_sub(1);
        self.cells.set_second(placed.place, Second::Absent);
        Ok(())
    }
}
