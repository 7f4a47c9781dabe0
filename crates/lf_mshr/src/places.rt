//! The places of a file's registers: an array of items, words of which are in use, and links that keep
//! the order in which they were taken.

ghost use Rattle.std.specs.Prelude.{◌≡◌, ◌<◌, ◌≤◌, ◌++◌, ◌∷◌, [], ◌==◌, map, length, bit_or, false, IfOk};
ghost use Rattle.std.specs.List.{fold};
ghost use Rattle.lf_rules.specs.Registers.{holds, targets_of};
ghost use Rattle.lf_mshr.specs.Places.{no_places, held_of, left_of, is_taken};
ghost use Rattle.lf_mshr.specs.RegisterFile.{released_pair, store_mask};

use crate::held::{Held, store_mask};
use crate::target::Target;
use crate::targets::Targets;
use crate::words::{is_marked, mark, unmark};
use lf_rules::{Mask, NoMemory};
use std::alloc::Global;
use std::marker::Model;

/// A fixed number of places. Those in use are linked in the order in which they were taken.
#[derive(Drop)]
pub struct Places<T> {
    items: Vec<Held<T>>,
    /// Of each place in use the one after it, and behind the places' links that to the first.
    next: Vec<u16>,
    /// A bit for each place in use.
    used: Vec<u64>,
    end: u16,
    /// The place that was taken last, and the end where none is in use.
    last: u16,
    len: u16,
}

impl<T> Model for Places<T> {
    ghost use Rattle.std.specs.Prelude.{slice_index};
    ghost use Rattle.lf_mshr.specs.Places.{Places, IsChain, walk, placed};

    ghost Value = { Places T };

    ghost view = { λ p. record {
      places = p.end;
      order = placed p.items.items
          (walk (slice_index p.next.items) p.end p.len);
    } };

    ghost invariant = { λ p. IsChain p.items.items p.next.items p.used.items p.end p.last p.len };
}

impl<T: Target> Places<T> {
    /// So many places, of which none is in use.
    pub fn new(alloc: Global, places: u16) -> Result<Places<T>, NoMemory>
        requires { places ≤ 4096 }
        ensures { IfOk result (λ p. p ≡ no_places places) }
    {
        let items = vec![in alloc; Held::blank(); usize::from(places)]?;
        let next = vec![in alloc; places; usize::from(places) + 1]?;
        let used = vec![in alloc; 0; usize::from(places / 64) + 1]?;
        Ok(Places {
            items,
            next,
            used,
            end: places,
            last: places,
            len: 0,
        })
    }

    /// How many places are in use.
    pub fn count(&self) -> usize
        ensures { result ≡ length self.now.order }
    {
        usize::from(self.len)
    }

    /// Whether the place is in use.
    pub fn is_taken(&self, place: u16) -> bool
        requires { place < self.now.places }
        ensures { result ≡ is_taken self.now.order place }
    {
        is_marked(&self.used, place)
    }

    /// Puts the item at a place that is not in use, as the last.
    pub fn push(&mut self, place: u16, item: Held<T>)
        requires there { place < self.old.places }
        requires free { is_taken self.old.order place ≡ false }
        ensures order { self.new.order ≡ self.old.order ++ (place, item) ∷ [] }
        ensures few { length self.new.order ≤ 4096 }
        ensures places { self.new.places ≡ self.old.places }
    {
        self.items[usize::from(place)] = item;
        self.next[usize::from(self.last)] = place;
        mark(&mut self.used, place);
        self.last = place;
        self.len += 1;
    }

    /// Whether a place in use holds the block.
    pub fn holds(&self, block: u32) -> bool
        ensures { result ≡ holds (held_of self.now.order) block }
    {
        let mut at = self.end;
        let mut left = self.len;
        while left > 0 {
            at = self.next[usize::from(at)];
            if self.items[usize::from(at)].block() == block {
                return true;
            }
            left -= 1;
        }
        false
    }

    /// The bytes that the block's targets write.
    pub fn store_bytes(&self, block: u32) -> Mask
        ensures { result.0 ≡ fold (λ mask h. bit_or mask (store_mask T.is_store T.bytes h.target)) 0
            (targets_of (held_of self.now.order) block) }
    {
        let mut bytes = 0;
        let mut at = self.end;
        let mut left = self.len;
        while left > 0 {
            at = self.next[usize::from(at)];
            let item = &self.items[usize::from(at)];
            if item.block() == block {
                bytes |= store_mask(item.target());
            }
            left -= 1;
        }
        Mask(bytes)
    }

    /// Moves the targets of the block, of which there are at most so many, into a list, in place of what it
    /// had. The other places keep their order.
    pub fn release_into(&mut self, block: u32, most: usize, targets: &mut Targets<T>)
        requires { length (targets_of (held_of self.old.order) block) ≤ most }
        ensures targets { targets.new ≡ map released_pair (targets_of (held_of self.old.order) block) }
        ensures order { self.new.order ≡ left_of self.old.order block }
        ensures places { self.new.places ≡ self.old.places }
    {
        targets.clear();
        let mut kept = 0;
        let mut last = self.end;
        let mut at = self.end;
        let mut left = self.len;
        while left > 0 && targets.len() < most {
            at = self.next[usize::from(at)];
            let item = self.items[usize::from(at)];
            if item.block == block {
                targets.push(item.register, item.target);
                unmark(&mut self.used, at);
            } else {
                self.next[usize::from(last)] = at;
                last = at;
                kept += 1;
            }
            left -= 1;
        }
        // The places behind keep their links.
        if left > 0 {
            self.next[usize::from(last)] = self.next[usize::from(at)];
        } else {
            self.last = last;
        }
        self.len = kept + left;
    }
}
