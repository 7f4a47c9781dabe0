//! Blocks that stand at their places in a table.

ghost use Rattle.std.specs.Prelude.{◌≡◌, ℕ, ◌+◌, ◌<◌, ◌≤◌, ◌^◌, ◌↔◌, IsTrue, Some, None, List, [], length, nat_eq};
ghost use Rattle.std.specs.Prelude.{slice_index, slice_index_or, option_copied, IfOk};
ghost use Rattle.std.specs.Map.{lookup};
ghost use Rattle.bank_state.specs.Bytes.{put};
ghost use Rattle.bank_state.specs.Near.{blocks_in, places_of, twice, goes_second, place_in, IsKeyedTable, IsWith};

use crate::padded::{Bytes, ZEROS, put};
use lf_rules::NoMemory;
use std::alloc::Global;
use std::marker::Model;

/// How many places a table has at first.
const FIRST_PLACES: usize = 64;

/// A table grows only if at least one of so many of its places is used.
const PLACES_OF_A_BLOCK: usize = 2;

/// A table of more places grows no more.
const MOST_PLACES: usize = 1 << 31;

/// Blocks with their bytes, each at the place that its number says.
#[derive(Drop)]
pub struct Near {
    alloc: Global,
    /// A block's number is multiplied by this.
    spread: u32,
    /// Which block stands at each place. They are apart from the bytes, so that many fit into the processor's cache.
    keys: Vec<Option<u32>>,
    /// The bytes of the block at each place. Where no block stands, they have no meaning.
    bytes: Vec<Bytes>,
    used: usize,
}

impl Model for Near {
    ghost use Rattle.std.specs.Prelude.{ℕ, List};
    ghost use Rattle.bank_state.specs.Near.{blocks_in, places_of, IsKeyedTable};

    ghost Value = { List (ℕ × List ℕ) };

    ghost view = { λ n. blocks_in (places_of n.keys.items n.bytes.items) };

    ghost invariant = { λ n. IsKeyedTable n.spread n.used n.keys.items n.bytes.items };
}

/// The place of a block in a table of so many places.
#[inline(always)]
fn place_in(spread: u32, count: usize, block: u32) -> usize
    requires { count ≤ 2 ^ 32 }
    ensures value { result ≡ place_in spread count block }
    ensures within { 0 < count → result < count }
{
    let mixed = block.wrapping_mul(spread);
    (u64::from(mixed) * count as u64 >> 32) as usize
}

/// Whether this block stands at a place.
#[inline(always)]
fn stands_at(keys: &[Option<u32>], place: usize, block: u32) -> bool
    ensures { IsTrue result ↔ (slice_index_or keys.now place None ≡ Some block) }
{
    match keys.get(place) {
        Some(Some(key)) => *key == block,
        _ => false,
    }
}

/// Whether a block goes to the second of the two places that its place becomes in a table of so many.
fn goes_second(spread: u32, count: usize, key: Option<u32>) -> bool
    requires { count ≤ 2 ^ 32 }
    ensures { result ≡ goes_second spread count key }
{
    match key {
        Some(block) => place_in(spread, count, block) % 2 == 1,
        None => false,
    }
}

/// The keys of a table of twice as many places for the same blocks. Both places that one becomes have its bytes.
fn widened_keys(
    alloc: Global,
    spread: u32,
    keys: &[Option<u32>],
) -> Result<Vec<Option<u32>>, NoMemory>
    requires { length keys.now ≤ 2 ^ 31 }
    ensures same { (bytes : List (List ℕ)) → IfOk result (λ wider.
        blocks_in (places_of wider.items (twice bytes)) ≡ blocks_in (places_of keys.now bytes)) }
    ensures table { (used : ℕ) (bytes : List (List ℕ)) → IsKeyedTable spread used keys.now bytes →
        IfOk result (λ wider. IsKeyedTable spread used wider.items (twice bytes)) }
{
    let count = 2 * keys.len();
    let mut wider = Vec::with_capacity(alloc, count)?;
    for key in keys {
        if goes_second(spread, count, *key) {
            wider.push(None)?;
            wider.push(*key)?;
        } else {
            wider.push(*key)?;
            wider.push(None)?;
        }
    }
    Ok(wider)
}

/// The bytes of a table of twice as many places: those of each place, for both places that it becomes.
fn widened_bytes(alloc: Global, bytes: &[Bytes]) -> Result<Vec<Bytes>, NoMemory>
    requires { length bytes.now ≤ 2 ^ 31 }
    ensures { IfOk result (λ wider. wider.items ≡ twice bytes.now) }
{
    let mut wider = Vec::with_capacity(alloc, 2 * bytes.len())?;
    for one in bytes {
        wider.push(*one)?;
        wider.push(*one)?;
    }
    Ok(wider)
}

impl Near {
    /// No block. The numbers of blocks are multiplied by `spread`.
    pub fn new(alloc: Global, spread: u32) -> Near
        ensures { result ≡ [] }
    {
        Near {
            alloc,
            spread,
            keys: Vec::new(alloc),
            bytes: Vec::new(alloc),
            used: 0,
        }
    }

    /// The bytes of a block.
    #[inline(always)]
    pub fn get(&self, block: u32) -> Option<&Bytes>
        ensures { option_copied result ≡ lookup (nat_eq block) self.now }
    {
        let place = place_in(self.spread, self.keys.len(), block);
        if stands_at(&self.keys, place, block) {
            Some(&self.bytes[place])
        } else {
            None
        }
    }

    /// Puts new bytes into a block from a place on, if the block is here, and says whether it is.
    pub fn write(&mut self, block: u32, offset: usize, new: &[u8]) -> bool
        requires { offset + length new.now ≤ 64 }
        ensures here { IsTrue result → (was : List ℕ) × ((bytes : List ℕ) × (
            (lookup (nat_eq block) self.old ≡ Some was) × (slice_index bytes ≡ put (slice_index was) offset new.now)
            × IsWith self.old block bytes self.new)) }
        ensures absent { ¬ IsTrue result → (self.new ≡ self.old) × (lookup (nat_eq block) self.old ≡ None) }
    {
        let place = place_in(self.spread, self.keys.len(), block);
        if !stands_at(&self.keys, place, block) {
            return false;
        }
        put(&mut self.bytes[place], offset, new);
        true
    }

    /// Makes the first table, or a wider one where the block's place is taken and enough places are used. It says
    /// whether it is a wider one, where blocks that found their places taken may find them free.
    pub fn make_room(&mut self, block: u32) -> Result<bool, NoMemory>
        ensures { self.new ≡ self.old }
    {
        let count = self.keys.len();
        if count == 0 {
            let keys = vec![in self.alloc; None; FIRST_PLACES]?;
            let bytes = vec![in self.alloc; ZEROS; FIRST_PLACES]?;
            self.keys = keys;
            self.bytes = bytes;
            return Ok(false);
        }
        let place = place_in(self.spread, count, block);
        if self.keys[place].is_some()
            && count / PLACES_OF_A_BLOCK <= self.used
            && count <= MOST_PLACES
        {
            let keys = widened_keys(self.alloc, self.spread, &self.keys)?;
            let bytes = widened_bytes(self.alloc, &self.bytes)?;
            self.keys = keys;
            self.bytes = bytes;
            return Ok(true);
        }
        Ok(false)
    }

    /// Puts a block at its place, unless there is no place or another block stands there, and says whether it did.
    pub fn add(&mut self, block: u32, bytes: Bytes) -> bool
        ensures added { IsTrue result → IsWith self.old block bytes self.new }
        ensures other { ¬ IsTrue result → (self.new ≡ self.old) × (lookup (nat_eq block) self.old ≡ None) }
    {
        let place = place_in(self.spread, self.keys.len(), block);
        if place >= self.keys.len() {
            return false;
        }
        match self.keys[place] {
            Some(key) if key != block => return false,
            Some(_) => {}
            None => self.used += 1,
        }
        self.keys[place] = Some(block);
        self.bytes[place] = bytes;
        true
    }
}
