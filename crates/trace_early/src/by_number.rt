//! Bytes by their numbers.

ghost use Rattle.std.specs.Prelude.{◌≡◌, ◌<◌, ◌≤◌, ◌%◌, ◌*◌, ◌^◌, ◌↔◌, IsTrue, IfOk, OnOk, OnErr, IsSome};
ghost use Rattle.std.specs.Prelude.{Some, None, ℕ, List, [], length, is_some, option_map, option_copied, vec_len};
ghost use Rattle.std.specs.List.Sorted.{IsPermutation};
ghost use Rattle.trace_early.specs.Table.{AreOwn, AreSized, entries, place_for, slot_for, numbered_as};

use crate::chunks::Chunks;
use crate::place::Place;
use crate::slot::Slot;
use std::alloc::{AllocError, Global};
use std::collections::BTreeMap;
use std::marker::Model;

/// How many slots a table has at first.
const FIRST_SLOTS: usize = 64;

/// A table that has so many slots for each of its entries grows no more.
const SLOTS_OF_AN_ENTRY: usize = 16;

/// Items, which are some bytes each, by their numbers. A table has an item's place at the slot that is its number
/// modulo the count of slots, and an item whose slot is taken is kept aside. So what is held follows what is kept,
/// however far apart the numbers are, and a wider table moves no item.
#[derive(Drop)]
pub struct ByNumber {
    alloc: Global,
    chunks: Chunks,
    slots: Vec<Slot>,
    /// How many slots are taken.
    taken: usize,
    aside: BTreeMap<u32, Vec<u8>>,
}

impl Model for ByNumber {
    ghost use Rattle.std.specs.Prelude.{ℕ, List, ◌++◌, map};
    ghost use Rattle.trace_early.specs.Table.{IsTable, numbered, entries};

    ghost Value = { List (ℕ × List ℕ) };

    ghost view = { λ t. numbered t.chunks (entries t.slots.items) ++ map (λ e. (e.0, e.1.items)) t.aside.entries };

    ghost invariant = { λ t. IsTable t.slots.items t.taken t.chunks (map (λ e. (e.0, e.1.items)) t.aside.entries) };
}

/// The slot of a number in a table of so many.
#[inline(always)]
fn slot_of(number: u32, count: usize) -> usize
    requires { (bits : ℕ) × (count ≡ 2 ^ bits) }
    ensures { result ≡ number % count }
{
    number as usize & (count - 1)
}

/// The place of a number, where the table has it.
#[inline(always)]
fn place_in(slots: &[Slot], number: u32) -> Option<Place>
    requires { AreSized slots.now }
    ensures { result ≡ place_for number (slot_for slots.now number) }
{
    if slots.is_empty() {
        return None;
    }
    slots[slot_of(number, slots.len())].place_for(number)
}

/// Whether a number has a slot, and it is free.
#[inline(always)]
fn has_slot(slots: &[Slot], number: u32) -> bool
    requires { AreSized slots.now }
    ensures { IsTrue result ↔ ((0 < length slots.now) × (slot_for slots.now number ≡ None)) }
{
    !slots.is_empty() && slots[slot_of(number, slots.len())].is_empty()
}

/// A table of twice as many slots with the same entries.
#[cold]
#[inline(never)]
fn widened(alloc: Global, slots: &[Slot]) -> Result<Vec<Slot>, AllocError>
    requires some { 0 < length slots.now }
    requires sized { AreSized slots.now }
    requires own { AreOwn slots.now }
    ensures sized { IfOk result (λ wider. AreSized wider.items) }
    ensures own { IfOk result (λ wider. AreOwn wider.items) }
    ensures same { IfOk result (λ wider. IsPermutation (entries slots.now) (entries wider.items)) }
{
    let mut wider = vec![in alloc; Slot::empty(); 2 * slots.len()]?;
    for slot in slots {
        if let Some((number, _)) = slot.entry() {
            let to = slot_of(number, wider.len());
            wider[to] = *slot;
        }
    }
    Ok(wider)
}

/// Makes the first table, or a wider one where there are few slots for the entries.
#[cold]
#[inline(never)]
fn make_room(alloc: Global, slots: &mut Vec<Slot>, taken: usize) -> Result<(), AllocError>
    requires sized { AreSized slots.old.items }
    requires own { AreOwn slots.old.items }
    ensures sized { AreSized slots.new.items }
    ensures own { AreOwn slots.new.items }
    ensures same { IsPermutation (entries slots.old.items) (entries slots.new.items) }
{
    if slots.is_empty() {
        *slots = vec![in alloc; Slot::empty(); FIRST_SLOTS]?;
    } else if slots.len() / SLOTS_OF_AN_ENTRY < taken {
        *slots = widened(alloc, slots)?;
    }
    Ok(())
}

/// The bytes of a number that are kept aside.
#[inline(always)]
fn find_aside(aside: &BTreeMap<u32, Vec<u8>>, number: u32) -> Option<&[u8]>
    ensures { option_copied result ≡ option_map (λ bytes. bytes.items) (numbered_as number aside.now.entries) }
{
    if aside.is_empty() {
        return None;
    }
    match aside.get(&number) {
        Some(bytes) => Some(bytes.as_slice()),
        None => None,
    }
}

/// Whether the bytes of a number are kept aside.
#[inline(always)]
fn is_aside(aside: &BTreeMap<u32, Vec<u8>>, number: u32) -> bool
    ensures { result ≡ is_some (numbered_as number aside.now.entries) }
{
    !aside.is_empty() && aside.contains_key(&number)
}

/// Keeps a copy of some bytes aside.
#[cold]
#[inline(never)]
fn put_aside(
    alloc: Global,
    aside: &mut BTreeMap<u32, Vec<u8>>,
    number: u32,
    item: &[u8],
) -> Result<(), AllocError>
    ensures own { OnOk result (option_map (λ bytes. bytes.items) (numbered_as number aside.new.entries) ≡
        Some item.now) }
    ensures others { OnOk result ((k : ℕ) → ¬ (k ≡ number) →
        numbered_as k aside.new.entries ≡ numbered_as k aside.old.entries) }
    ensures refused { OnErr result (aside.new.entries ≡ aside.old.entries) }
{
    let bytes = Vec::from_slice(alloc, item)?;
    let _ = aside.insert(number, bytes)?;
    Ok(())
}

/// Lets the bytes of a number that are kept aside go.
#[cold]
#[inline(never)]
fn drop_aside(aside: &mut BTreeMap<u32, Vec<u8>>, number: u32)
    ensures gone { numbered_as number aside.new.entries ≡ None }
    ensures others { (k : ℕ) → ¬ (k ≡ number) → numbered_as k aside.new.entries ≡ numbered_as k aside.old.entries }
    ensures fewer { IsSome (numbered_as number aside.old.entries) →
        length aside.new.entries < length aside.old.entries }
{
    let _ = aside.remove(&number);
}

impl ByNumber {
    /// The most bytes of an item.
    pub const MOST: usize = Chunks::MOST;

    /// No item. They take no memory.
    pub fn new(alloc: Global) -> ByNumber
        ensures { result ≡ [] }
    {
        ByNumber {
            alloc,
            chunks: Chunks::new(alloc),
            slots: Vec::new(alloc),
            taken: 0,
            aside: BTreeMap::new(alloc),
        }
    }

    /// Whether there is no item.
    #[inline(always)]
    pub fn is_empty(&self) -> bool
        ensures { IsTrue result ↔ (self.now ≡ []) }
    {
        self.taken == 0 && self.aside.is_empty()
    }

    /// Whether an item has this number.
    #[inline(always)]
    pub fn contains(&self, number: u32) -> bool
        ensures { result ≡ is_some (numbered_as number self.now) }
    {
        place_in(&self.slots, number).is_some() || is_aside(&self.aside, number)
    }

    /// The bytes of the item of this number, where there is one.
    #[inline(always)]
    pub fn get(&self, number: u32) -> Option<&[u8]>
        ensures { option_copied result ≡ numbered_as number self.now }
    {
        match place_in(&self.slots, number) {
            Some(place) => Some(self.chunks.get(place)),
            None => find_aside(&self.aside, number),
        }
    }

    /// Keeps a copy of these bytes under a number that no other has. `AllocError` where a growth was refused, or no
    /// place is left: then each number has what it had.
    #[inline(always)]
    pub fn put(&mut self, number: u32, item: &[u8]) -> Result<(), AllocError>
        requires len { length item.now ≤ 65531 }
        requires absent { numbered_as number self.old ≡ None }
        ensures own { OnOk result (numbered_as number self.new ≡ Some item.now) }
        ensures others { OnOk result ((k : ℕ) → ¬ (k ≡ number) → numbered_as k self.new ≡ numbered_as k self.old) }
        ensures unchanged { OnErr result ((k : ℕ) → numbered_as k self.new ≡ numbered_as k self.old) }
        ensures as_many { OnErr result (length self.new ≡ length self.old) }
    {
        if has_slot(&self.slots, number) {
            return self.enter(number, item);
        }
        self.put_with_room(number, item)
    }

    /// Keeps a copy of these bytes as `put` does, where the number has no free slot. It is apart, so that a slot is
    /// looked up once where it is free.
    #[cold]
    #[inline(never)]
    fn put_with_room(&mut self, number: u32, item: &[u8]) -> Result<(), AllocError>
        requires len { length item.now ≤ 65531 }
        requires absent { numbered_as number self.old ≡ None }
        ensures own { OnOk result (numbered_as number self.new ≡ Some item.now) }
        ensures others { OnOk result ((k : ℕ) → ¬ (k ≡ number) → numbered_as k self.new ≡ numbered_as k self.old) }
        ensures unchanged { OnErr result ((k : ℕ) → numbered_as k self.new ≡ numbered_as k self.old) }
        ensures as_many { OnErr result (length self.new ≡ length self.old) }
    {
        self.prepare()?;
        self.enter(number, item)
    }

    /// Makes room in the table, where a wider one may have a free slot for a number that has none.
    fn prepare(&mut self) -> Result<(), AllocError>
        ensures same { (k : ℕ) → numbered_as k self.new ≡ numbered_as k self.old }
        ensures as_many { length self.new ≡ length self.old }
    {
        make_room(self.alloc, &mut self.slots, self.taken)
    }

    /// Keeps a copy of these bytes as `put` does, in the slot of the number where it is free.
    #[inline(always)]
    fn enter(&mut self, number: u32, item: &[u8]) -> Result<(), AllocError>
        requires len { length item.now ≤ 65531 }
        requires absent { numbered_as number self.old ≡ None }
        ensures own { OnOk result (numbered_as number self.new ≡ Some item.now) }
        ensures others { OnOk result ((k : ℕ) → ¬ (k ≡ number) → numbered_as k self.new ≡ numbered_as k self.old) }
        ensures unchanged { OnErr result ((k : ℕ) → numbered_as k self.new ≡ numbered_as k self.old) }
        ensures as_many { OnErr result (length self.new ≡ length self.old) }
    {
        if !has_slot(&self.slots, number) {
            put_aside(self.alloc, &mut self.aside, number, item)?;
            return Ok(());
        }
        let place = self.chunks.put(item)?;
        let slot = slot_of(number, self.slots.len());
        self.slots[slot] = Slot::of(number, place);
        self.taken += 1;
        Ok(())
    }

    /// Lets the item of this number go, where there is one.
    #[inline(always)]
    pub fn drop(&mut self, number: u32)
        ensures gone { numbered_as number self.new ≡ None }
        ensures others { (k : ℕ) → ¬ (k ≡ number) → numbered_as k self.new ≡ numbered_as k self.old }
        ensures fewer { IsSome (numbered_as number self.old) → length self.new < length self.old }
    {
        match place_in(&self.slots, number) {
            Some(place) => {
                let slot = slot_of(number, self.slots.len());
                self.slots[slot] = Slot::empty();
                self.taken -= 1;
                self.chunks.drop(place);
            }
            None => drop_aside(&mut self.aside, number),
        }
    }
}
