//! Bytes that are kept one after another, each until it is let go.

ghost use Rattle.std.specs.Prelude.{◌≡◌, ◌<◌, ◌≤◌, ◌+◌, ◌-◌, ◌^◌, ◌∷◌, [], IfOk, IfSome, OnErr, List, ℕ, length};
ghost use Rattle.trace_early.specs.Kept.{Keeps, KeepsOn, StandsIn, bytes_in, count_in};

use crate::chunk::{CHUNK, Chunk, HEAD};
use crate::place::Place;
use std::alloc::{AllocError, Global};
use std::marker::Model;

/// So many chunks have places.
const MOST_CHUNKS: usize = 0x3_ffff;

/// Items, which are some bytes each, one after another in chunks. A chunk whose items have all gone is used again.
#[derive(Drop)]
pub struct Chunks {
    alloc: Global,
    chunks: Vec<Chunk>,
    /// The chunk that items are put into.
    current: usize,
    /// Whether some chunk may keep none.
    some_empty: bool,
}

impl Model for Chunks {
    ghost use Rattle.std.specs.Prelude.{ℕ, List, ◌<◌, ◌^◌, length};

    ghost Value = { List (List ℕ × ℕ) };

    ghost view = { λ c. c.chunks.items };

    ghost invariant = { λ c. length c.chunks.items < 2 ^ 18 };
}

/// The first chunk that keeps none, where there is one.
fn first_empty(chunks: &[Chunk]) -> Option<usize>
    ensures { IfSome result (λ number. (number < length chunks.now) × (count_in chunks.now number ≡ 0)) }
{
    for (number, chunk) in chunks.iter().enumerate() {
        if chunk.is_empty() {
            return Some(number);
        }
    }
    None
}

/// Begins a chunk that keeps none anew, or makes a new one, and gives its number. It is searched only once a chunk, and
/// where one may be found.
#[cold]
#[inline(never)]
fn open(alloc: Global, chunks: &mut Vec<Chunk>, some_empty: &mut bool) -> Result<usize, AllocError>
    requires { length chunks.old.items < 2 ^ 18 }
    ensures kept { KeepsOn chunks.old.items chunks.new.items }
    ensures few { length chunks.new.items < 2 ^ 18 }
    ensures number { IfOk result (λ number. (number < length chunks.new.items) ×
        (bytes_in chunks.new.items number ≡ [])) }
{
    if *some_empty {
        if let Some(number) = first_empty(chunks) {
            let chunk = &mut chunks[number];
            chunk.clear();
            return Ok(number);
        }
        *some_empty = false;
    }
    let number = chunks.len();
    if number == MOST_CHUNKS {
        return Err(AllocError);
    }
    let chunk = Chunk::new(alloc)?;
    chunks.push(chunk)?;
    Ok(number)
}

/// The number of a chunk that has room for an item of so many bytes: the current one where it has.
#[inline(always)]
fn with_room(
    alloc: Global,
    chunks: &mut Vec<Chunk>,
    some_empty: &mut bool,
    current: usize,
    len: usize,
) -> Result<usize, AllocError>
    requires len { len ≤ 65531 }
    requires few { length chunks.old.items < 2 ^ 18 }
    ensures kept { KeepsOn chunks.old.items chunks.new.items }
    ensures few { length chunks.new.items < 2 ^ 18 }
    ensures number { IfOk result (λ number. (number < length chunks.new.items) ×
        (length (bytes_in chunks.new.items number) + 5 + len ≤ 65536)) }
{
    if let Some(chunk) = chunks.get(current) {
        if chunk.has_room(len) {
            return Ok(current);
        }
    }
    open(alloc, chunks, some_empty)
}

impl Chunks {
    /// The most bytes of an item.
    pub const MOST: usize = CHUNK - HEAD;

    /// No item. They take no memory.
    pub fn new(alloc: Global) -> Chunks
        ensures { Keeps result [] }
    {
        Chunks {
            alloc,
            chunks: Vec::new(alloc),
            current: 0,
            some_empty: false,
        }
    }

    /// Keeps a copy of these bytes, and gives their place. `AllocError` where a growth was refused, or no place is
    /// left: then what was kept is kept.
    #[inline(always)]
    pub fn put(&mut self, item: &[u8]) -> Result<Place, AllocError>
        requires { length item.now ≤ 65531 }
        ensures one_more { IfOk result (λ place. (kept : List (ℕ × List ℕ)) → Keeps self.old kept →
            Keeps self.new ((place, item.now) ∷ kept)) }
        ensures refused { OnErr result (KeepsOn self.old self.new) }
    {
        let number = with_room(
            self.alloc,
            &mut self.chunks,
            &mut self.some_empty,
            self.current,
            item.len(),
        )?;
        self.current = number;
        let chunk = &mut self.chunks[number];
        let step = chunk.put(item);
        Ok(Place::new(number, step))
    }

    /// The bytes that are kept at this place.
    #[inline(always)]
    pub fn get(&self, place: Place) -> &[u8]
        requires { (item : List ℕ) × StandsIn self.now (place, item) }
        ensures { (item : List ℕ) → StandsIn self.now (place, item) → result.now ≡ item }
    {
        let chunk = &self.chunks[place.chunk()];
        chunk.item_at(place.start())
    }

    /// Lets the bytes at this place go.
    #[inline(always)]
    pub fn drop(&mut self, place: Place)
        requires { (item : List ℕ) × (kept : List (ℕ × List ℕ)) × Keeps self.old ((place, item) ∷ kept) }
        ensures { (item : List ℕ) (kept : List (ℕ × List ℕ)) → Keeps self.old ((place, item) ∷ kept) →
            Keeps self.new kept }
    {
        let chunk = &mut self.chunks[place.chunk()];
        chunk.let_one_go();
        if chunk.is_empty() {
            self.some_empty = true;
        }
    }
}
