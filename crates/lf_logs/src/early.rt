//! The records that came before their turn.

ghost use Rattle.std.specs.Prelude.{◌≡◌, ◌<◌, ◌↔◌, ℕ, IsTrue, List, [], length, is_some, Some, None, OnOk, OnErr};
ghost use Rattle.std.specs.Prelude.{IsSome, cond, ◌+◌};
ghost use Rattle.std.specs.Map.{lookup};
ghost use Rattle.std.specs.BTreeMap.{is_at};
ghost use Rattle.std.specs.Ordering.{nat_cmp};
ghost use Rattle.lf_codec.specs.Lent.{IsSpelling};
ghost use Rattle.lf_codec.specs.Sound.{IsInRange};
ghost use Rattle.lf_logs.specs.EarlyRecords.{kept_at, kept_whole};
ghost use Rattle.lf_logs.specs.Reordering.{CanKeep, if_given};

use lf_codec::{Header, Layout};
use lf_rules::{NoMemory, Record};
use std::alloc::Global;
use std::collections::BTreeMap;
use std::marker::Model;
use trace_early::ByNumber;
use trace_views::RecordView;

/// The records that came before their turn, by number. Where it is known how their bytes are laid out, those that came
/// with their bytes are kept as these, and read again where they stand. The others are kept whole.
#[derive(Drop)]
pub struct Early {
    alloc: Global,
    layout: Option<Layout>,
    spelled: ByNumber,
    whole: BTreeMap<u32, Box<Record>>,
}

impl Model for Early {
    ghost use Rattle.std.specs.Prelude.{◌++◌};
    ghost use Rattle.lf_logs.specs.EarlyRecords.{EarlyRecords, AreSpelled, read_again, kept_whole};

    ghost Value = { EarlyRecords };

    ghost view = { λ e. record {
      header = e.layout;
      records = read_again e.layout e.spelled ++ kept_whole e.whole.entries;
    } };

    ghost invariant = { λ e. AreSpelled e.layout e.spelled };
}

/// Whether a record of this number is kept whole.
#[inline(always)]
fn is_whole(whole: &BTreeMap<u32, Box<Record>>, number: u32) -> bool
    ensures { result ≡ is_some (lookup (is_at (nat_cmp number)) (kept_whole whole.now.entries)) }
{
    !whole.is_empty() && whole.contains_key(&number)
}

/// Lends a record that is kept whole, and says whether there is one of this number.
fn lend_whole<'a>(
    whole: &'a BTreeMap<u32, Box<Record>>,
    number: u32,
    place: &mut RecordView<'a>,
) -> bool
    ensures { if_given result place.new ≡ lookup (is_at (nat_cmp number)) (kept_whole whole.now.entries) }
{
    if whole.is_empty() {
        return false;
    }
    match whole.get(&number) {
        Some(item) => {
            *place = RecordView::of(item);
            true
        }
        None => false,
    }
}

/// Lets a record that is kept whole go, and says whether there was one of this number.
#[inline(always)]
fn drop_whole(whole: &mut BTreeMap<u32, Box<Record>>, number: u32) -> bool
    ensures was { result ≡ is_some (lookup (is_at (nat_cmp number)) (kept_whole whole.old.entries)) }
    ensures gone { lookup (is_at (nat_cmp number)) (kept_whole whole.new.entries) ≡ None }
    ensures others { (k : ℕ) → ¬ (k ≡ number) → lookup (is_at (nat_cmp k)) (kept_whole whole.new.entries)
        ≡ lookup (is_at (nat_cmp k)) (kept_whole whole.old.entries) }
    ensures fewer { length whole.new.entries + cond result 1 0 ≡ length whole.old.entries }
{
    !whole.is_empty() && whole.remove(&number).is_some()
}

impl Early {
    /// No record came, and all will be kept whole.
    pub fn new(alloc: Global) -> Early
        ensures { result ≡ record { header = None; records = [] } }
    {
        Early {
            alloc,
            layout: None,
            spelled: ByNumber::new(alloc),
            whole: BTreeMap::new(alloc),
        }
    }

    /// No record came. The records will fit the sizes of a header.
    pub fn of_header(alloc: Global, header: &Header) -> Early
        requires { IsInRange header.now }
        ensures { result ≡ record { header = Some header.now; records = [] } }
    {
        Early {
            alloc,
            layout: Some(Layout::of(header)),
            spelled: ByNumber::new(alloc),
            whole: BTreeMap::new(alloc),
        }
    }

    /// Whether there is no record.
    #[inline(always)]
    pub fn is_empty(&self) -> bool
        ensures { IsTrue result ↔ (self.now.records ≡ []) }
    {
        self.spelled.is_empty() && self.whole.is_empty()
    }

    /// Whether a record has this number.
    #[inline(always)]
    pub fn contains(&self, number: u32) -> bool
        ensures { result ≡ is_some (kept_at self.now number) }
    {
        self.spelled.contains(number) || is_whole(&self.whole, number)
    }

    /// Keeps a record whole, whose number no other has. `NoMemory` where a growth was refused.
    pub fn put(&mut self, item: Record) -> Result<(), NoMemory>
        requires { kept_at self.old item.number ≡ None }
        ensures header { self.new.header ≡ self.old.header }
        ensures unchanged { OnErr result (self.new ≡ self.old) }
        ensures own { OnOk result (kept_at self.new item.number ≡ Some item) }
        ensures others { OnOk result ((k : ℕ) → ¬ (k ≡ item.number) → kept_at self.new k ≡ kept_at self.old k) }
    {
        let number = item.number;
        let kept = Box::new(self.alloc, item)?;
        let _ = self.whole.insert(number, kept)?;
        Ok(())
    }

    /// Keeps a copy of a record that is lent. It is apart, since it has a place for a record, which costs time where
    /// the bytes are kept.
    #[cold]
    #[inline(never)]
    fn put_copy(&mut self, item: &RecordView<'_>) -> Result<(), NoMemory>
        requires { kept_at self.old item.now.number ≡ None }
        ensures header { self.new.header ≡ self.old.header }
        ensures unchanged { OnErr result (self.new ≡ self.old) }
        ensures own { OnOk result (kept_at self.new item.now.number ≡ Some item.now) }
        ensures others { OnOk result ((k : ℕ) → ¬ (k ≡ item.now.number) → kept_at self.new k ≡ kept_at self.old k) }
    {
        self.put(item.to_record())
    }

    /// Keeps a record that is lent, whose number no other has: by the bytes that spell it, where there are some and
    /// they can be read again, and otherwise whole. `NoMemory` where a growth was refused.
    #[inline(always)]
    pub fn put_view(&mut self, item: &RecordView<'_>, bytes: &[u8]) -> Result<(), NoMemory>
        requires absent { kept_at self.old item.now.number ≡ None }
        requires spelled { IsSpelling bytes.now item.now }
        requires fits { CanKeep self.old.header item.now }
        ensures header { self.new.header ≡ self.old.header }
        ensures unchanged { OnErr result ((k : ℕ) → kept_at self.new k ≡ kept_at self.old k) }
        ensures as_many { OnErr result (length self.new.records ≡ length self.old.records) }
        ensures own { OnOk result (kept_at self.new item.now.number ≡ Some item.now) }
        ensures others { OnOk result ((k : ℕ) → ¬ (k ≡ item.now.number) → kept_at self.new k ≡ kept_at self.old k) }
    {
        if bytes.is_empty() || self.layout.is_none() {
            return self.put_copy(item);
        }
        self.spelled.put(item.number(), bytes)?;
        Ok(())
    }

    /// Lends the record of this number by `place`, and says whether there is one.
    #[inline(always)]
    pub fn lend<'a>(&'a self, number: u32, place: &mut RecordView<'a>) -> bool
        ensures { if_given result place.new ≡ kept_at self.now number }
    {
        if let Some(layout) = &self.layout {
            if let Some(bytes) = self.spelled.get(number) {
                layout.lend(bytes, place);
                return true;
            }
        }
        lend_whole(&self.whole, number, place)
    }

    /// Lets the record of this number go, where there is one.
    #[inline(always)]
    pub fn drop(&mut self, number: u32)
        ensures header { self.new.header ≡ self.old.header }
        ensures gone { kept_at self.new number ≡ None }
        ensures others { (k : ℕ) → ¬ (k ≡ number) → kept_at self.new k ≡ kept_at self.old k }
        ensures fewer { IsSome (kept_at self.old number) → length self.new.records < length self.old.records }
    {
        if !drop_whole(&mut self.whole, number) || self.spelled.contains(number) {
            self.spelled.drop(number);
        }
    }
}
