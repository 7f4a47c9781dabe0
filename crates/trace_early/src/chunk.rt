//! A chunk of bytes.

ghost use Rattle.std.specs.Prelude.{◌≡◌, ◌<◌, ◌≤◌, ◌+◌, ◌*◌, ◌-◌, ◌/◌, ◌%◌, ◌↔◌, ◌++◌, ◌∷◌, [], IsTrue, IfOk, List, ℕ};
ghost use Rattle.std.specs.Prelude.{length};
ghost use Rattle.std.specs.Prelude.{take};
ghost use Rattle.trace_early.specs.Kept.{IsAt, length_at, item_at};

use std::alloc::{AllocError, Global};
use std::marker::Model;

/// The bytes of a chunk.
pub const CHUNK: usize = 65536;

/// The most that stands before an item: bytes up to a multiple of four, and its length.
pub const HEAD: usize = 5;

/// Items one after another, each behind its length, from a multiple of four bytes on. It counts those that are kept.
#[derive(Drop)]
pub struct Chunk {
    /// All bytes that it can have, in use or not.
    bytes: Vec<u8>,
    /// How many are in use.
    used: usize,
    count: u32,
}

impl Model for Chunk {
    ghost use Rattle.std.specs.Prelude.{ℕ, List, ◌≡◌, ◌≤◌, length, take};

    ghost Value = { List ℕ × ℕ };

    ghost view = { λ c. (take c.used c.bytes.items, c.count) };

    ghost invariant = { λ c. (length c.bytes.items ≡ 65536) × ((c.used ≤ 65536) × (c.count ≤ c.used)) };
}

/// Writes an item behind its length from here on.
#[inline(always)]
fn write(bytes: &mut [u8], start: usize, item: &[u8])
    requires small { length item.now < 65536 }
    requires room { start + 2 + length item.now ≤ length bytes.old }
    ensures len { length bytes.new ≡ length bytes.old }
    ensures item { take (start + 2 + length item.now) bytes.new ≡
        take start bytes.old ++ length item.now % 256 ∷ length item.now / 256 ∷ item.now }
{
    let at = start + 2;
    bytes[start] = (item.len() % 256) as u8;
    bytes[start + 1] = (item.len() / 256) as u8;
    bytes[at..at + item.len()].copy_from_slice(item);
}

impl Chunk {
    /// A chunk without items.
    pub fn new(alloc: Global) -> Result<Chunk, AllocError>
        ensures { IfOk result (λ chunk. chunk ≡ ([], 0)) }
    {
        Ok(Chunk {
            bytes: vec![in alloc; 0; CHUNK]?,
            used: 0,
            count: 0,
        })
    }

    /// Whether an item of so many bytes has room.
    #[inline(always)]
    pub fn has_room(&self, len: usize) -> bool
        requires { len ≤ 65531 }
        ensures { IsTrue result ↔ (length self.now.0 + 5 + len ≤ 65536) }
    {
        self.used + HEAD + len <= CHUNK
    }

    /// Whether it keeps none.
    #[inline(always)]
    pub fn is_empty(&self) -> bool
        ensures { IsTrue result ↔ (self.now.1 ≡ 0) }
    {
        self.count == 0
    }

    /// Keeps an item behind those before it, and gives the multiple of four bytes where it stands.
    #[inline(always)]
    pub fn put(&mut self, item: &[u8]) -> usize
        requires { length self.old.0 + 5 + length item.now ≤ 65536 }
        ensures old { (start : ℕ) (other : List ℕ) → IsAt self.old.0 start other → IsAt self.new.0 start other }
        ensures own { IsAt self.new.0 (4 * result) item.now }
        ensures step_in { result < 16384 }
        ensures one_more { self.new.1 ≡ self.old.1 + 1 }
    {
        let step = (self.used + 3) / 4;
        let start = 4 * step;
        write(&mut self.bytes, start, item);
        self.used = start + 2 + item.len();
        self.count += 1;
        step
    }

    /// The item that stands here.
    #[inline(always)]
    pub fn item_at(&self, start: usize) -> &[u8]
        requires { start + 2 + length_at self.now.0 start ≤ length self.now.0 }
        ensures { result.now ≡ item_at self.now.0 start }
    {
        let len = usize::from(self.bytes[start]) + 256 * usize::from(self.bytes[start + 1]);
        &self.bytes[start + 2..start + 2 + len]
    }

    /// Lets an item go. Where it was the last one, the chunk is begun anew.
    #[inline(always)]
    pub fn let_one_go(&mut self)
        requires { 0 < self.old.1 }
        ensures count { self.new.1 ≡ self.old.1 - 1 }
        ensures bytes { 1 < self.old.1 → self.new.0 ≡ self.old.0 }
    {
        self.count -= 1;
        if self.count == 0 {
            self.used = 0;
        }
    }

    /// Begins it anew, where it keeps none.
    pub fn clear(&mut self)
        requires { self.old.1 ≡ 0 }
        ensures { self.new ≡ ([], 0) }
    {
        self.used = 0;
    }
}
