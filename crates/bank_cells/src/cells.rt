//! What a bank knows of its blocks, at places that they get once.

ghost use Rattle.std.specs.Prelude.{◌≡◌, ℕ, ◌+◌, ◌-◌, ◌*◌, ◌/◌, ◌%◌, ◌^◌, ◌<◌, ◌≤◌, bit_or, length, slice_index};
ghost use Rattle.std.specs.Prelude.{map, bytes_eq, Option, None, Some, IsSome, IfOk, IfSome, OnOk, OnErr, true};
ghost use Rattle.std.specs.Prelude.{◌++◌, replicate, vec_len, vec_capacity};
ghost use Rattle.lf_rules.specs.declared.shape.Shape.{Shape};
ghost use Rattle.lf_rules.specs.Address.{agree_off, block_bytes, flat_memory, bank_of, masked, wide_masked};
ghost use Rattle.lf_rules.specs.Fits.{is_factor};
ghost use Rattle.lf_rules.specs.InRange.{IsShape};
ghost use Rattle.lf_rules.specs.State.{update};
ghost use Rattle.lf_rules.specs.Table.{value_of, accepted, store_mask};
ghost use Rattle.bank_state.specs.Bytes.{bank_part, bytes_under, put, EndOf, IsNumberOf};
ghost use Rattle.trace_views.specs.Views.{masks_of};
ghost use Rattle.bank_cells.specs.declared.known.First.TheVariants as level1;
ghost use Rattle.bank_cells.specs.Cells.{CellsView, IsCell, IsPlace, IsPlacedAlike, StaysPlaced, HasSameWords};
ghost use Rattle.bank_cells.specs.Cells.{IsUntouched, cell_of, place_of, no_cells};
ghost use Rattle.bank_cells.specs.Cells.{first_at, written_at, dirty_at, memory_at, second_at};

use crate::bytes::{agree_off, end_of_masked, number_at, part};
use crate::cell::Cell;
use crate::index::Index;
use crate::known::{First, Second};
use crate::padded::{Bytes, ZEROS, padded, put};
use bank_state::{Data, Request, bank_of};
use lf_rules::{Block, Mask, NoMemory, Op, Shape};
use std::alloc::Global;
use std::marker::Model;
use trace_views::MasksView;

/// What a bank knows of its blocks. A second-level block has a place, and each first-level block of it a cell. The
/// cells of a second-level block follow one another.
#[derive(Drop)]
pub struct Cells {
    /// The binary logarithm of the blocks of a second-level block.
    shift: u32,
    places: Index,
    /// Of each place what level two has of its block.
    seconds: Vec<Second>,
    cells: Vec<Cell>,
}

impl Model for Cells {
    ghost use Rattle.std.specs.Prelude.{◌≤◌};
    ghost use Rattle.bank_cells.specs.Cells.{CellsView, IsWhole, cells_of};

    ghost Value = { CellsView };

    ghost view = { λ c. cells_of c.shift c.places c.seconds.items c.cells.items };

    ghost invariant = { λ c. (c.shift ≤ 2) × IsWhole (cells_of c.shift c.places c.seconds.items c.cells.items) };
}

/// The binary logarithm of the blocks of a second-level block.
fn shift_of(factor: u32) -> u32
    requires { is_factor factor ≡ true }
    ensures power { 2 ^ result ≡ factor }
    ensures small { result ≤ 2 }
{
    match factor {
        1 => 0,
        2 => 1,
        _ => 2,
    }
}

/// Adds so many times this cell. There is room for them.
fn push_all(cells: &mut Vec<Cell>, count: usize, cell: Cell)
    requires { vec_len cells.old + count ≤ vec_capacity cells.old }
    ensures { cells.new.items ≡ cells.old.items ++ replicate count cell }
{
    let mut left = count;
    while left > 0 {
        left -= 1;
        cells.push_reserved(cell);
    }
}

impl Cells {
    /// No block.
    fn empty(alloc: Global, shape: &Shape) -> Cells
        requires { IsShape shape.now }
        ensures { result ≡ no_cells shape.now.factor }
    {
        Cells {
            shift: shift_of(shape.factor),
            places: Index::new(alloc, shape.banks),
            seconds: Vec::new(alloc),
            cells: Vec::new(alloc),
        }
    }

    /// One bank's blocks of the memory that a trace names, which no level has. `NoMemory` where a growth was refused.
    pub fn of_bank(
        alloc: Global,
        memory: &[(u32, Block)],
        shape: &Shape,
        bank: u32,
    ) -> Result<Cells, NoMemory>
        requires { IsShape shape.now }
        ensures memory { IfOk result (λ cells. memory_at cells ≡ bank_part shape.now bank (flat_memory memory.now)) }
        ensures others { IfOk result (λ cells. IsUntouched cells) }
        ensures factor { IfOk result (λ cells. cells.factor ≡ shape.now.factor) }
    {
        let mut cells = Cells::empty(alloc, shape);
        let mut left = memory.len();
        while left > 0 {
            left -= 1;
            let (block, bytes) = &memory[left];
            if bank_of(shape, *block) == bank {
                cells.put(*block, padded(bytes))?;
            }
        }
        Ok(cells)
    }

    /// A block that no level has gets these bytes.
    fn put(&mut self, block: u32, bytes: Bytes) -> Result<(), NoMemory>
        ensures memory { OnOk result (memory_at self.new ≡ update (memory_at self.old) block (slice_index bytes)) }
        ensures others { OnOk result (IsUntouched self.old → IsUntouched self.new) }
        ensures factor { self.new.factor ≡ self.old.factor }
    {
        let cell = self.find_or_add(block)?;
        self.set_bytes(cell, bytes);
        Ok(())
    }

    /// The place of a second-level block that has one.
    #[inline(always)]
    pub fn find_second(&self, second: u32) -> Option<usize>
        ensures { result ≡ place_of self.now second }
    {
        self.places.find(second)
    }

    /// The cell of a block that has one.
    #[inline(always)]
    pub fn find(&self, block: u32) -> Option<usize>
        ensures { result ≡ cell_of self.now block }
    {
        match self.places.find(block >> self.shift) {
            Some(place) => Some(self.first_of(place) + self.part_of(block) as usize),
            None => None,
        }
    }

    /// Which of the blocks of its second-level block a block is.
    #[inline(always)]
    pub fn part_of(&self, block: u32) -> u32
        ensures value { result ≡ block % self.now.factor }
        ensures below { result < self.now.factor }
    {
        block & ((1 << self.shift) - 1)
    }

    /// The cell of the first block of a place. Those of its other blocks follow.
    #[inline(always)]
    pub fn first_of(&self, place: usize) -> usize
        requires { IsPlace self.now place }
        ensures value { result ≡ place * self.now.factor }
        ensures cells { (second part : ℕ) → place_of self.now second ≡ Some place → part < self.now.factor →
            cell_of self.now (second * self.now.factor + part) ≡ Some (result + part) }
        ensures fits { result + self.now.factor ≤ usize.MAX }
    {
        place << self.shift
    }

    /// The cell of a block that had none. All blocks of its second-level block get one. `NoMemory` where a growth was
    /// refused: then nothing has changed.
    pub fn add(&mut self, block: u32) -> Result<usize, NoMemory>
        requires { cell_of self.old block ≡ None }
        ensures cell { IfOk result (λ cell. cell_of self.new block ≡ Some cell) }
        ensures words { HasSameWords self.old self.new }
        ensures stays { StaysPlaced self.old self.new }
        ensures err { OnErr result (self.new ≡ self.old) }
    {
        let count = 1 << self.shift;
        let place = self.seconds.len();
        self.seconds.reserve(1)?;
        self.cells.reserve(count)?;
        self.places.add(block >> self.shift, place)?;
        self.seconds.push_reserved(Second::Absent);
        push_all(
            &mut self.cells,
            count,
            Cell {
                first: First::Absent,
                written: 0,
                dirty: 0,
                bytes: ZEROS,
            },
        );
        Ok(self.first_of(place) + self.part_of(block) as usize)
    }

    /// The cell of a block, which gets one if it has none. `NoMemory` where a growth was refused: then nothing has
    /// changed.
    pub fn find_or_add(&mut self, block: u32) -> Result<usize, NoMemory>
        ensures cell { IfOk result (λ cell. cell_of self.new block ≡ Some cell) }
        ensures words { HasSameWords self.old self.new }
        ensures stays { StaysPlaced self.old self.new }
        ensures err { OnErr result (self.new ≡ self.old) }
    {
        match self.find(block) {
            Some(cell) => Ok(cell),
            None => self.add(block),
        }
    }

    /// What level one has of a cell's block.
    #[inline(always)]
    pub fn first(&self, cell: usize) -> First
        requires { IsCell self.now cell }
        ensures { (block : ℕ) → cell_of self.now block ≡ Some cell → result ≡ first_at self.now block }
    {
        self.cells[cell].first
    }

    /// The dirty mask of the line that level one has of a cell's block, or the bytes that its waiting stores write.
    #[inline(always)]
    pub fn written(&self, cell: usize) -> u64
        requires { IsCell self.now cell }
        ensures { (block : ℕ) → cell_of self.now block ≡ Some cell → result ≡ written_at self.now block }
    {
        self.cells[cell].written
    }

    /// The dirty mask of a cell's block in the line of level two.
    #[inline(always)]
    pub fn dirty(&self, cell: usize) -> u64
        requires { IsCell self.now cell }
        ensures { (block : ℕ) → cell_of self.now block ≡ Some cell → result ≡ dirty_at self.now block }
    {
        self.cells[cell].dirty
    }

    /// The bytes of a cell's block, and zeros behind them.
    #[inline(always)]
    pub fn bytes(&self, cell: usize) -> &[u8; 64]
        requires { IsCell self.now cell }
        ensures { (block : ℕ) → cell_of self.now block ≡ Some cell →
            slice_index result.now ≡ memory_at self.now block }
    {
        &self.cells[cell].bytes
    }

    /// What level two has of a place's block.
    #[inline(always)]
    pub fn second(&self, at: usize) -> Second
        requires { IsPlace self.now at }
        ensures { (second : ℕ) → place_of self.now second ≡ Some at → result ≡ second_at self.now second }
    {
        self.seconds[at]
    }

    /// What level two has of the second-level block of a cell.
    #[inline(always)]
    pub fn second_of(&self, cell: usize) -> Second
        requires { IsCell self.now cell }
        ensures { (block : ℕ) → cell_of self.now block ≡ Some cell →
            result ≡ second_at self.now (block / self.now.factor) }
    {
        let home = cell >> self.shift;
        self.seconds[home]
    }

    /// Level one has this of a cell's block.
    #[inline(always)]
    pub fn set_first(&mut self, cell: usize, first: First)
        requires { IsCell self.old cell }
        ensures first { (block : ℕ) → cell_of self.old block ≡ Some cell →
            first_at self.new ≡ update (first_at self.old) block first }
        ensures written { written_at self.new ≡ written_at self.old }
        ensures dirty { dirty_at self.new ≡ dirty_at self.old }
        ensures memory { memory_at self.new ≡ memory_at self.old }
        ensures second { second_at self.new ≡ second_at self.old }
        ensures placed { IsPlacedAlike self.old self.new }
    {
        let known = &mut self.cells[cell];
        known.first = first;
    }

    /// A cell's block gets these bytes.
    fn set_bytes(&mut self, cell: usize, bytes: Bytes)
        requires { IsCell self.old cell }
        ensures memory { (block : ℕ) → cell_of self.old block ≡ Some cell →
            memory_at self.new ≡ update (memory_at self.old) block (slice_index bytes) }
        ensures first { first_at self.new ≡ first_at self.old }
        ensures written { written_at self.new ≡ written_at self.old }
        ensures dirty { dirty_at self.new ≡ dirty_at self.old }
        ensures second { second_at self.new ≡ second_at self.old }
        ensures placed { IsPlacedAlike self.old self.new }
    {
        let known = &mut self.cells[cell];
        known.bytes = bytes;
    }

    /// A cell's block is clean in the line of level two.
    #[inline(always)]
    pub fn clear_dirty(&mut self, cell: usize)
        requires { IsCell self.old cell }
        ensures dirty { (block : ℕ) → cell_of self.old block ≡ Some cell →
            dirty_at self.new ≡ update (dirty_at self.old) block 0 }
        ensures first { first_at self.new ≡ first_at self.old }
        ensures written { written_at self.new ≡ written_at self.old }
        ensures memory { memory_at self.new ≡ memory_at self.old }
        ensures second { second_at self.new ≡ second_at self.old }
        ensures placed { IsPlacedAlike self.old self.new }
    {
        let known = &mut self.cells[cell];
        known.dirty = 0;
    }

    /// Level one gives up a cell's block, and level two takes the bytes under the mask.
    #[inline(always)]
    pub fn evict(&mut self, cell: usize, mask: Mask)
        requires { IsCell self.old cell }
        ensures first { (block : ℕ) → cell_of self.old block ≡ Some cell →
            first_at self.new ≡ update (first_at self.old) block level1.Absent }
        ensures written { (block : ℕ) → cell_of self.old block ≡ Some cell →
            written_at self.new ≡ update (written_at self.old) block 0 }
        ensures dirty { (block : ℕ) → cell_of self.old block ≡ Some cell →
            dirty_at self.new ≡ update (dirty_at self.old) block (bit_or (dirty_at self.old block) mask.0) }
        ensures memory { memory_at self.new ≡ memory_at self.old }
        ensures second { second_at self.new ≡ second_at self.old }
        ensures placed { IsPlacedAlike self.old self.new }
    {
        let known = &mut self.cells[cell];
        known.first = First::Absent;
        known.written = 0;
        known.dirty |= mask.0;
    }

    /// Level two has this of a place's block.
    #[inline(always)]
    pub fn set_second(&mut self, place: usize, second: Second)
        requires { IsPlace self.old place }
        ensures second { (block : ℕ) → place_of self.old block ≡ Some place →
            second_at self.new ≡ update (second_at self.old) block second }
        ensures first { first_at self.new ≡ first_at self.old }
        ensures written { written_at self.new ≡ written_at self.old }
        ensures dirty { dirty_at self.new ≡ dirty_at self.old }
        ensures memory { memory_at self.new ≡ memory_at self.old }
        ensures placed { IsPlacedAlike self.old self.new }
    {
        self.seconds[place] = second;
    }

    /// Level two has this of the second-level block of a cell.
    #[inline(always)]
    pub fn set_second_of(&mut self, cell: usize, second: Second)
        requires { IsCell self.old cell }
        ensures second { (block : ℕ) → cell_of self.old block ≡ Some cell →
            second_at self.new ≡ update (second_at self.old) (block / self.old.factor) second }
        ensures first { first_at self.new ≡ first_at self.old }
        ensures written { written_at self.new ≡ written_at self.old }
        ensures dirty { dirty_at self.new ≡ dirty_at self.old }
        ensures memory { memory_at self.new ≡ memory_at self.old }
        ensures placed { IsPlacedAlike self.old self.new }
    {
        self.seconds[cell >> self.shift] = second;
    }

    /// The request takes effect on its block, which has this cell: a store changes its bytes, and they are written.
    #[inline(always)]
    pub fn accept(&mut self, cell: usize, request: &Request)
        requires { cell_of self.old request.now.block ≡ Some cell }
        ensures memory { memory_at self.new ≡ accepted (memory_at self.old) request.now }
        ensures written { written_at self.new ≡ update (written_at self.old) request.now.block
            (bit_or (written_at self.old request.now.block) (store_mask request.now)) }
        ensures first { first_at self.new ≡ first_at self.old }
        ensures dirty { dirty_at self.new ≡ dirty_at self.old }
        ensures second { second_at self.new ≡ second_at self.old }
        ensures placed { IsPlacedAlike self.old self.new }
    {
        match request.op() {
            Op::Load => {}
            Op::Store => self.store(
                cell,
                usize::from(request.offset()),
                request.bytes(),
                request.store_mask(),
            ),
        }
    }

    /// A cell's block takes these bytes from a place on, and those under the mask are written.
    #[inline(always)]
    fn store(&mut self, cell: usize, offset: usize, new: &[u8], mask: u64)
        requires there { IsCell self.old cell }
        requires within { offset + length new.now ≤ 64 }
        ensures memory { (block : ℕ) → cell_of self.old block ≡ Some cell →
            memory_at self.new ≡ update (memory_at self.old) block (put (memory_at self.old block) offset new.now) }
        ensures written { (block : ℕ) → cell_of self.old block ≡ Some cell →
            written_at self.new ≡ update (written_at self.old) block (bit_or (written_at self.old block) mask) }
        ensures first { first_at self.new ≡ first_at self.old }
        ensures dirty { dirty_at self.new ≡ dirty_at self.old }
        ensures second { second_at self.new ≡ second_at self.old }
        ensures placed { IsPlacedAlike self.old self.new }
    {
        let known = &mut self.cells[cell];
        put(&mut known.bytes, offset, new);
        known.written |= mask;
    }

    /// What the request finds in its block, which has this cell: a load's bytes, and nothing for a store.
    pub fn value_of(&self, cell: usize, request: &Request) -> Data
        requires { cell_of self.now request.now.block ≡ Some cell }
        ensures { result.items ≡ value_of (memory_at self.now) request.now }
    {
        match request.op() {
            Op::Store => Data::new(),
            Op::Load => part(
                self.bytes(cell),
                usize::from(request.offset()),
                usize::from(request.size()),
            ),
        }
    }

    /// A number whose first bytes, the lowest first, are what the request finds in its block, which has this cell.
    #[inline(always)]
    pub fn number_of(&self, cell: usize, request: &Request) -> u64
        requires { cell_of self.now request.now.block ≡ Some cell }
        ensures { IsNumberOf (value_of (memory_at self.now) request.now) result }
    {
        match request.op() {
            Op::Store => 0,
            Op::Load => number_at(
                self.bytes(cell),
                usize::from(request.offset()),
                usize::from(request.size()),
            ),
        }
    }

    /// Whether bytes are those of a cell's block, off those that stores wrote of it.
    #[inline(always)]
    pub fn agrees(&self, cell: usize, bytes: &[u8]) -> bool
        requires there { IsCell self.now cell }
        requires small { length bytes.now ≤ 64 }
        ensures { (shape : Shape) (block : ℕ) → cell_of self.now block ≡ Some cell → length bytes.now ≡ shape.block →
            result ≡ agree_off shape.block bytes.now (block_bytes shape (memory_at self.now) block)
            (written_at self.now block) }
    {
        agree_off(bytes, self.bytes(cell), self.written(cell))
    }

    /// Where the bytes of a cell's block under the mask end in the list, if they stand there from a place on.
    fn end_of_masked(
        &self,
        cell: usize,
        size: u32,
        mask: Mask,
        bytes: &[u8],
        from: usize,
    ) -> Option<usize>
        requires there { IsCell self.now cell }
        requires small { size ≤ 64 }
        requires within { from ≤ length bytes.now }
        ensures within { IfSome result (λ end. end ≤ length bytes.now) }
        ensures value { (block : ℕ) → cell_of self.now block ≡ Some cell →
            EndOf (bytes_under (memory_at self.now block) size mask.0) bytes.now from result }
    {
        // A clean block is given up with no bytes.
        if mask.0 == 0 {
            return Some(from);
        }
        end_of_masked(self.bytes(cell), size, mask, bytes, from)
    }

    /// Whether these are the bytes of a cell's block under the mask.
    pub fn carries(&self, shape: &Shape, cell: usize, mask: Mask, bytes: &[u8]) -> bool
        requires there { IsCell self.now cell }
        requires small { shape.now.block ≤ 64 }
        ensures { (block : ℕ) → cell_of self.now block ≡ Some cell →
            result ≡ bytes_eq bytes.now (masked (block_bytes shape.now (memory_at self.now) block) mask.0) }
    {
        self.end_of_masked(cell, shape.block, mask, bytes, 0) == Some(bytes.len())
    }

    /// Whether these are the bytes of a place's block under its masks, block by block.
    pub fn wide_carries(
        &self,
        shape: &Shape,
        place: usize,
        masks: &MasksView<'_>,
        bytes: &[u8],
    ) -> bool
        requires in_range { IsShape shape.now }
        requires there { IsPlace self.now place }
        requires factor { self.now.factor ≡ shape.now.factor }
        requires count { length (masks_of masks.now).items ≡ shape.now.factor }
        ensures { (second : ℕ) → place_of self.now second ≡ Some place →
            result ≡ bytes_eq bytes.now (wide_masked shape.now (memory_at self.now) second (masks_of masks.now)) }
    {
        let from = self.first_of(place);
        let mut end = 0;
        for part in 0..shape.factor as usize {
            match self.end_of_masked(from + part, shape.block, masks.get(part), bytes, end) {
                Some(next) => end = next,
                None => return false,
            }
        }
        end == bytes.len()
    }
}
