//! The places that blocks have got, found by their numbers.

ghost use Rattle.std.specs.Prelude.{◌≡◌, ◌<◌, ℕ, List, [], ◌++◌, Option, None, Some, OnOk, OnErr};
ghost use Rattle.lf_rules.specs.State.{update};
ghost use Rattle.bank_cells.specs.Index.{found_in};

use crate::table::Table;
use lf_rules::NoMemory;
use std::alloc::Global;
use std::collections::HashMap;
use std::marker::Model;

/// A block stands in the table at its number times this, modulo 2^32, scaled to the table. It is 2^32 divided by
/// the golden ratio, so blocks that follow one another get entries far apart.
const SPREAD: u32 = 0x9e37_79b1;

/// The places of blocks. Most stand in a table, at the entry that their number says. A block whose entry is taken goes
/// into the map. So the table stays small where many blocks have one entry.
#[derive(Drop)]
pub struct Index {
    near: Table,
    far: HashMap<u32, u32>,
}

impl Model for Index {
    ghost use Rattle.std.specs.Prelude.{ℕ, List, ◌++◌};

    ghost Value = { List (ℕ × ℕ) };

    ghost view = { λ i. i.near ++ i.far.entries };
}

/// Copies the blocks of the map whose entries in the table are free.
fn copy_near(near: &mut Table, far: &HashMap<u32, u32>)
    ensures { found_in (near.new ++ far.now.entries) ≡ found_in (near.old ++ far.now.entries) }
{
    for (block, place) in far {
        if near.find(*block).is_none() {
            near.add(*block, *place);
        }
    }
}

/// Takes the blocks that the table has out of the map.
fn drop_copied(near: &Table, far: &mut HashMap<u32, u32>)
    ensures { found_in (near.now ++ far.new.entries) ≡ found_in (near.now ++ far.old.entries) }
{
    far.retain(|block, _| near.find(*block).is_none());
}

/// The place of a block in the map.
fn find_far(far: &HashMap<u32, u32>, block: u32) -> Option<usize>
    ensures { result ≡ found_in far.now.entries block }
{
    // If the map is empty, the number is not hashed.
    if far.is_empty() {
        return None;
    }
    match far.get(&block) {
        Some(place) => Some(*place as usize),
        None => None,
    }
}

impl Index {
    /// No block. The blocks of one of several banks lie that many times as far apart, so a smaller factor spreads
    /// them as the blocks of a single bank are spread.
    pub fn new(alloc: Global, banks: u32) -> Index
        requires { 0 < banks }
        ensures { result ≡ [] }
    {
        Index {
            near: Table::new(alloc, SPREAD / banks),
            far: HashMap::new(alloc),
        }
    }

    /// The place of a block that has one.
    #[inline(always)]
    pub fn find(&self, block: u32) -> Option<usize>
        ensures { result ≡ found_in self.now block }
    {
        match self.near.find(block) {
            Some(place) => Some(place as usize),
            None => find_far(&self.far, block),
        }
    }

    /// A block that has no place gets this one. `NoMemory` where a growth was refused, or the place is not below 2^32:
    /// then nothing has changed.
    pub fn add(&mut self, block: u32, place: usize) -> Result<(), NoMemory>
        requires { found_in self.old block ≡ None }
        ensures ok { OnOk result (found_in self.new ≡ update (found_in self.old) block (Some place)) }
        ensures err { OnErr result (self.new ≡ self.old) }
    {
        let Ok(place) = u32::try_from(place) else {
            return Err(NoMemory);
        };
        let wider = self.near.make_room(block)?;
        self.put(block, place)?;
        if wider {
            copy_near(&mut self.near, &self.far);
            drop_copied(&self.near, &mut self.far);
        }
        Ok(())
    }

    /// The block gets this place, at its entry if that is free.
    fn put(&mut self, block: u32, place: u32) -> Result<(), NoMemory>
        requires { found_in self.old block ≡ None }
        ensures ok { OnOk result (found_in self.new ≡ update (found_in self.old) block (Some place)) }
        ensures err { OnErr result (self.new ≡ self.old) }
    {
        if self.near.add(block, place) {
            return Ok(());
        }
        match self.far.insert(block, place) {
            Ok(_) => Ok(()),
            Err(_) => Err(NoMemory),
        }
    }
}
