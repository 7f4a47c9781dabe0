//! Blocks with their places, at the entries of a table that their numbers say.

ghost use Rattle.std.specs.Prelude.{◌≡◌, ℕ, ◌*◌, ◌<◌, ◌≤◌, ◌^◌, IsTrue, Some, None, List, [], length, map, IfOk};
ghost use Rattle.bank_cells.specs.Index.{found_in, entry_in, blocks_in, stands_in, goes_second, IsTable, IsWith};

use lf_rules::NoMemory;
use std::alloc::Global;
use std::marker::Model;

/// How many entries a table has at first.
const FIRST_ENTRIES: usize = 64;

/// A table grows only if at least one of so many of its entries is used.
const ENTRIES_OF_A_BLOCK: usize = 2;

/// A table of more entries grows no more.
const MOST_ENTRIES: usize = 1 << 31;

/// A block and its place, or none.
#[derive(Clone, Copy)]
struct Entry {
    block: u32,
    /// One more than the place of the block, and 0 where there is no block.
    above: u32,
}

/// No block.
const FREE: Entry = Entry { block: 0, above: 0 };

/// Blocks with their places, each at the entry that its number says.
#[derive(Drop)]
pub struct Table {
    alloc: Global,
    /// A block's number is multiplied by this.
    spread: u32,
    entries: Vec<Entry>,
    /// How many entries are used.
    used: usize,
}

impl Model for Table {
    ghost use Rattle.std.specs.Prelude.{ℕ, List, map};
    ghost use Rattle.bank_cells.specs.Index.{blocks_in, stands_in, IsTable};

    ghost Value = { List (ℕ × ℕ) };

    ghost view = { λ t. blocks_in (map stands_in t.entries.items) };

    ghost invariant = { λ t. IsTable t.spread t.used (map stands_in t.entries.items) };
}

/// The entry of a block in a table of so many.
#[inline(always)]
fn entry_in(spread: u32, count: usize, block: u32) -> usize
    requires { count ≤ 2 ^ 32 }
    ensures value { result ≡ entry_in spread count block }
    ensures within { 0 < count → result < count }
{
    let mixed = block.wrapping_mul(spread);
    (u64::from(mixed) * count as u64 >> 32) as usize
}

/// Whether a block goes to the second of the two entries that its entry becomes in a table of so many.
fn goes_second(spread: u32, count: usize, entry: Entry) -> bool
    requires { count ≤ 2 ^ 32 }
    ensures { result ≡ goes_second spread count (stands_in entry) }
{
    entry.above > 0 && entry_in(spread, count, entry.block) % 2 == 1
}

/// A table of twice as many entries for the same blocks.
fn widened(alloc: Global, spread: u32, entries: &[Entry]) -> Result<Vec<Entry>, NoMemory>
    requires { length entries.now ≤ 2 ^ 31 }
    ensures same { IfOk result (λ wider.
        blocks_in (map stands_in wider.items) ≡ blocks_in (map stands_in entries.now)) }
    ensures table { (used : ℕ) → IsTable spread used (map stands_in entries.now) →
        IfOk result (λ wider. IsTable spread used (map stands_in wider.items)) }
{
    let count = 2 * entries.len();
    let mut wider = Vec::with_capacity(alloc, count)?;
    for entry in entries {
        if goes_second(spread, count, *entry) {
            wider.push(FREE)?;
            wider.push(*entry)?;
        } else {
            wider.push(*entry)?;
            wider.push(FREE)?;
        }
    }
    Ok(wider)
}

impl Table {
    /// No block. The numbers of blocks are multiplied by `spread`.
    pub fn new(alloc: Global, spread: u32) -> Table
        ensures { result ≡ [] }
    {
        Table {
            alloc,
            spread,
            entries: Vec::new(alloc),
            used: 0,
        }
    }

    /// The place of a block that stands here.
    #[inline(always)]
    pub fn find(&self, block: u32) -> Option<u32>
        ensures { result ≡ found_in self.now block }
    {
        let at = entry_in(self.spread, self.entries.len(), block);
        if at >= self.entries.len() {
            return None;
        }
        let entry = self.entries[at];
        if entry.block != block || entry.above == 0 {
            return None;
        }
        Some(entry.above - 1)
    }

    /// Makes the first table, or a wider one where the block's entry is taken and enough entries are used. It says
    /// whether it is a wider one, where blocks that found their entries taken may find them free. `NoMemory` where
    /// there was no room for it.
    pub fn make_room(&mut self, block: u32) -> Result<bool, NoMemory>
        ensures { self.new ≡ self.old }
    {
        let count = self.entries.len();
        if count == 0 {
            self.entries = vec![in self.alloc; FREE; FIRST_ENTRIES]?;
            return Ok(false);
        }
        let at = entry_in(self.spread, count, block);
        if self.entries[at].above > 0
            && count / ENTRIES_OF_A_BLOCK <= self.used
            && count <= MOST_ENTRIES
        {
            self.entries = widened(self.alloc, self.spread, &self.entries)?;
            return Ok(true);
        }
        Ok(false)
    }

    /// Puts a block that is not here at its entry, unless there is none or it is taken, and says whether it did.
    pub fn add(&mut self, block: u32, place: u32) -> bool
        requires { found_in self.old block ≡ None }
        ensures added { IsTrue result → IsWith self.old block place self.new }
        ensures other { ¬ IsTrue result → self.new ≡ self.old }
    {
        let at = entry_in(self.spread, self.entries.len(), block);
        if at >= self.entries.len() || place == u32::MAX || self.entries[at].above > 0 {
            return false;
        }
        self.entries[at] = Entry {
            block,
            above: place + 1,
        };
        self.used += 1;
        true
    }
}
