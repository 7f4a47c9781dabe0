//! A bank's records, put into the order of their numbers as they come.

ghost use Rattle.std.specs.Prelude.{◌≡◌, ◌≢◌, ◌<◌, ◌≤◌, ◌^◌, ◌↔◌, ℕ, IsTrue, List, [], ◌∷◌, ◌++◌, length};
ghost use Rattle.std.specs.Prelude.{option_to_list, is_some, IsSome, None, Some, OnOk, OnErr, IfSome, IfNone};
ghost use Rattle.lf_rules.specs.declared.event.Record.{Record};
ghost use Rattle.lf_rules.specs.InRange.{IsShape};
ghost use Rattle.lf_rules.specs.Numbers.{numbers_of, times, IsMissing, IsWhole};
ghost use Rattle.lf_codec.specs.Lent.{IsSpelling};
ghost use Rattle.lf_logs.specs.Places.{IsNumberFault};
ghost use Rattle.lf_logs.specs.Reordering.{first_with, early_at, if_given, waiting_count, has_come};
ghost use Rattle.lf_logs.specs.Reordering.{header_of, CanKeep, IsAsBefore, least_double};
ghost use Rattle.lf_logs.specs.Reordering.{IsLeastDouble, HasOrdered};

use crate::early::Early;
use crate::order::NumberFault;
use lf_codec::Header;
use lf_rules::{NoMemory, Record, Shape};
use std::alloc::Global;
use std::marker::Model;
use trace_views::RecordView;

/// Takes a bank's records as they come and gives them in the order of their numbers, each as soon as
/// all before it are there. It keeps those alone that came before their turn.
#[derive(Drop)]
pub struct Reorder {
    bank: u8,
    /// The number of the next record that is given out.
    next: u64,
    /// The records that came before their turn.
    early: Early,
    /// The greatest number of a record that came before its turn.
    greatest: u32,
    /// The least number that came more than once.
    double: Option<u32>,
}

impl Model for Reorder {
    ghost use Rattle.std.specs.Prelude.{◌≤◌, ◌^◌};
    ghost use Rattle.lf_logs.specs.EarlyRecords.{kept_at};
    ghost use Rattle.lf_logs.specs.Reordering.{Reordering, IsGreatestEarly};

    ghost Value = { Reordering };

    ghost view = { λ o. record {
      bank = o.bank;
      next = o.next;
      header = o.early.header;
      early = o.early.records;
      double = o.double;
    } };

    ghost invariant = { λ o. (o.next ≤ 2 ^ 32) × IsGreatestEarly o.next (kept_at o.early) o.greatest };
}

/// How the records of a hierarchy are laid out.
fn header_of(shape: &Shape) -> Header
    requires { IsShape shape.now }
    ensures { result ≡ header_of shape.now }
{
    Header {
        version: 3,
        ports: shape.ports as u8,
        banks: shape.banks as u8,
        block: shape.block as u16,
        factor: shape.factor as u16,
        memory_count: 0,
    }
}

impl Reorder {
    /// No record was put in.
    pub fn new(alloc: Global, bank: u8) -> Reorder
        ensures bank { result.bank ≡ bank }
        ensures header { result.header ≡ None }
        ensures nothing { HasOrdered result [] [] }
    {
        Reorder::with_early(Early::new(alloc), bank)
    }

    /// No record was put in. The records will be those of a hierarchy.
    pub fn of_shape(alloc: Global, shape: &Shape, bank: u8) -> Reorder
        requires { IsShape shape.now }
        ensures bank { result.bank ≡ bank }
        ensures header { result.header ≡ Some (header_of shape.now) }
        ensures nothing { HasOrdered result [] [] }
    {
        Reorder::with_early(Early::of_header(alloc, &header_of(shape)), bank)
    }

    /// No record was put in, and those that come early are kept here.
    fn with_early(early: Early, bank: u8) -> Reorder
        requires { early.records ≡ [] }
        ensures bank { result.bank ≡ bank }
        ensures header { result.header ≡ early.header }
        ensures nothing { HasOrdered result [] [] }
    {
        Reorder {
            bank,
            next: 0,
            early,
            greatest: 0,
            double: None,
        }
    }

    /// Whether a record of this number came.
    fn has_come(&self, number: u32) -> bool
        ensures { result ≡ has_come self.now number }
    {
        u64::from(number) < self.next || self.early.contains(number)
    }

    fn note_double(&mut self, number: u32)
        ensures { self.new ≡ record self.old { double = least_double self.old.double number } }
    {
        match self.double {
            Some(least) if least <= number => {}
            _ => self.double = Some(number),
        }
    }

    /// Passes the record on where its turn has come: it counts as put in and given out, and nothing is
    /// kept of it. It takes no memory.
    #[inline(always)]
    pub fn pass(&mut self, item: &RecordView<'_>) -> bool
        ensures bank { self.new.bank ≡ self.old.bank }
        ensures header { self.new.header ≡ self.old.header }
        ensures passed { IsTrue result → (put : List Record) (gave : List Record) → HasOrdered self.old put gave →
            first_with (length gave) put ≡ None
            → (item.now.number ≡ length gave) × HasOrdered self.new (put ++ item.now ∷ []) (gave ++ item.now ∷ []) }
        ensures unchanged { ¬ IsTrue result → self.new ≡ self.old }
        ensures early { ¬ IsTrue result → (put : List Record) (gave : List Record) → HasOrdered self.old put gave →
            first_with (length gave) put ≡ None
            → ¬ (item.now.number ≡ length gave) }
    {
        if u64::from(item.number()) != self.next {
            return false;
        }
        self.next += 1;
        true
    }

    /// Takes a record of the bank. Of the records of one number the first that comes is used.
    /// `NoMemory` where a growth was refused, and nothing has changed then.
    pub fn put(&mut self, item: Record) -> Result<(), NoMemory>
        requires { item.bank ≡ self.old.bank }
        ensures bank { self.new.bank ≡ self.old.bank }
        ensures header { self.new.header ≡ self.old.header }
        ensures unchanged { OnErr result (self.new ≡ self.old) }
        ensures put { (put : List Record) (gave : List Record) → HasOrdered self.old put gave
            → OnOk result (HasOrdered self.new (put ++ item ∷ []) gave) }
    {
        let number = item.number;
        if self.has_come(number) {
            self.note_double(number);
            return Ok(());
        }
        self.early.put(item)?;
        self.greatest = self.greatest.max(number);
        Ok(())
    }

    /// Takes a record of the bank that is lent, with the bytes that spell it or none. With bytes and a header it
    /// keeps the bytes, and otherwise a copy of the record. `NoMemory` where a growth was refused: then the same
    /// records wait.
    pub fn put_view(&mut self, item: &RecordView<'_>, bytes: &[u8]) -> Result<(), NoMemory>
        requires bank { item.now.bank ≡ self.old.bank }
        requires spelled { IsSpelling bytes.now item.now }
        requires fits { CanKeep self.old.header item.now }
        ensures bank { self.new.bank ≡ self.old.bank }
        ensures header { self.new.header ≡ self.old.header }
        ensures unchanged { OnErr result (IsAsBefore self.old self.new) }
        ensures put { (put : List Record) (gave : List Record) → HasOrdered self.old put gave
            → OnOk result (HasOrdered self.new (put ++ item.now ∷ []) gave) }
    {
        let number = item.number();
        if self.has_come(number) {
            self.note_double(number);
            return Ok(());
        }
        self.early.put_view(item, bytes)?;
        self.greatest = self.greatest.max(number);
        Ok(())
    }

    /// Whether the record with the bank's next number is there, so that `lend_next` lends it. It takes no memory.
    #[inline(always)]
    pub fn has_next(&self) -> bool
        ensures { (put : List Record) (gave : List Record) → HasOrdered self.now put gave
            → result ≡ is_some (first_with (length gave) put) }
    {
        self.next <= u64::from(u32::MAX) && self.early.contains(self.next as u32)
    }

    /// Lends the record with the bank's next number by `place`, and says whether it is there. It takes no memory.
    pub fn lend_next<'a>(&'a self, place: &mut RecordView<'a>) -> bool
        ensures there { (put : List Record) (gave : List Record) → HasOrdered self.now put gave
            → if_given result place.new ≡ first_with (length gave) put }
        ensures some { IsTrue result → IsSome (early_at self.now self.now.next) }
    {
        if self.next > u64::from(u32::MAX) {
            return false;
        }
        self.early.lend(self.next as u32, place)
    }

    /// Lets the record go whose turn it is: it was given out.
    pub fn drop_next(&mut self)
        ensures bank { self.new.bank ≡ self.old.bank }
        ensures header { self.new.header ≡ self.old.header }
        ensures given { (put : List Record) (gave : List Record) (item : Record) → HasOrdered self.old put gave
            → first_with (length gave) put ≡ Some item → HasOrdered self.new put (gave ++ item ∷ []) }
        ensures fewer { IsSome (early_at self.old self.old.next) → waiting_count self.new < waiting_count self.old }
    {
        if self.next > u64::from(u32::MAX) {
            return;
        }
        self.early.drop(self.next as u32);
        self.next += 1;
    }

    /// A copy of the record with the bank's next number, where it is there.
    fn copy_next(&self) -> Option<Record>
        ensures there { (put : List Record) (gave : List Record) → HasOrdered self.now put gave
            → result ≡ first_with (length gave) put }
        ensures some { IsSome result → IsSome (early_at self.now self.now.next) }
    {
        let mut place = RecordView::blank();
        if self.lend_next(&mut place) {
            Some(place.to_record())
        } else {
            None
        }
    }

    /// The record with the bank's next number, as soon as it is there. It takes no memory.
    pub fn next(&mut self) -> Option<Record>
        ensures bank { self.new.bank ≡ self.old.bank }
        ensures header { self.new.header ≡ self.old.header }
        ensures gives { (put : List Record) (gave : List Record) → HasOrdered self.old put gave
            → HasOrdered self.new put (gave ++ option_to_list result) }
        ensures there { (put : List Record) (gave : List Record) → HasOrdered self.old put gave
            → result ≡ first_with (length gave) put }
        ensures fewer { IfSome result (λ _. waiting_count self.new < waiting_count self.old) }
    {
        let item = self.copy_next()?;
        self.drop_next();
        Some(item)
    }

    /// Whether no record waits for its turn, so that `lend_next` has none to lend. It takes no memory.
    pub fn is_empty(&self) -> bool
        ensures count { IsTrue result ↔ (waiting_count self.now ≡ 0) }
        ensures none { IsTrue result → (put : List Record) (gave : List Record) → HasOrdered self.now put gave
            → first_with (length gave) put ≡ None }
    {
        self.early.is_empty()
    }

    /// The least number that is missing below a greater one.
    fn missing(&self) -> Option<u32>
        ensures some { (put : List Record) (gave : List Record) → HasOrdered self.now put gave
            → IfSome result (λ k. IsMissing (numbers_of put) k × ((j : ℕ) → j < k → 0 < times j (numbers_of put))) }
        ensures none { (put : List Record) (gave : List Record) → HasOrdered self.now put gave
            → IfNone result ((k : ℕ) → ¬ IsMissing (numbers_of put) k) }
    {
        for number in self.next..u64::from(self.greatest) {
            if !self.early.contains(number as u32) {
                return Some(number as u32);
            }
        }
        None
    }

    /// The least number that came more than once, of the records put in so far, whatever is missing below it. It
    /// takes no memory.
    pub fn double(&self) -> Option<u32>
        ensures { (put : List Record) (gave : List Record) → HasOrdered self.now put gave →
            IsLeastDouble (numbers_of put) result }
    {
        self.double
    }

    /// The least number that is missing below a greater one or that came more than once, of the
    /// records put in so far. It takes no memory.
    pub fn fault(&self) -> Option<NumberFault>
        ensures fault { (put : List Record) (gave : List Record) → HasOrdered self.now put gave
            → IfSome result (IsNumberFault (numbers_of put)) }
        ensures whole { (put : List Record) (gave : List Record) → HasOrdered self.now put gave
            → IfNone result (IsWhole (numbers_of put)) }
        ensures memory { result ≢ Some NumberFault.NoMemory }
    {
        let Some(k) = self.missing() else {
            return match self.double {
                None => None,
                Some(double) => Some(NumberFault::Double(double)),
            };
        };
        match self.double {
            None => Some(NumberFault::Missing(k)),
            Some(double) => {
                if double < k {
                    Some(NumberFault::Double(double))
                } else {
                    Some(NumberFault::Missing(k))
                }
            }
        }
    }
}
