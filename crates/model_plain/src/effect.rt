//! What a bank holds after an event. Where a growth is refused, it may be left half changed.

ghost use Rattle.std.specs.Prelude.{◌≡◌, ℕ, true, ◌++◌, ◌<◌, map, length, OnOk};
ghost use Rattle.arrayvec.specs.ArrayVec.{ArrayVec};
ghost use Rattle.lf_rules.specs.Lines.{with_line, mark};
ghost use Rattle.lf_rules.specs.Registers.{targets_of};
ghost use Rattle.lf_rules.specs.declared.shape.Shape.{Shape};
ghost use Rattle.lf_rules.specs.declared.event.Op.{Op};
ghost use Rattle.lf_rules.specs.Address.{FlatMemory as Contents, Masks as MaskList};
ghost use Rattle.lf_rules.specs.InRange.{IsShape};
ghost use Rattle.lf_rules.specs.declared.event.Event.TheVariants as event;
ghost use Rattle.lf_rules.specs.Table.{block_asked, is_head, reply_of, request_of, memory_after};
ghost use Rattle.bank_state.specs.Bytes.{flat_of};
ghost use Rattle.bank_state.specs.Queues.{queue_at};
ghost use Rattle.model_plain.specs.Plain.{slice_of, slice_next};

use crate::lines::{LineMap, WideLineMap, dirty_mask, drop_line, marked_masks};
use crate::missed::{Missed, held_miss};
use crate::registers::{Held, release, store_bytes};
use crate::slice::PlainSlice;
use bank_state::{
    FlatMemory, Ready, Request, drop_asked, drop_block, drop_head, drop_ready, enqueue, head,
    place_of, push, second_of,
};
use lf_rules::{Mask, Masks, NoMemory, Shape, clean_masks};

/// The block's line has this mask.
fn put_line(lines: &mut LineMap, block: u32, mask: u64) -> Result<(), NoMemory>
    ensures { OnOk result (lines.new.entries ≡ with_line lines.old.entries block mask) }
{
    lines.insert(block, mask)?;
    Ok(())
}

/// The line's mask gains these bytes.
fn mark(lines: &mut LineMap, block: u32, mask: u64) -> Result<(), NoMemory>
    ensures { OnOk result (lines.new.entries ≡ mark lines.old.entries block mask) }
{
    put_line(lines, block, dirty_mask(lines, block) | mask)
}

/// The second-level block's line has these masks.
fn put_wide_line(lines: &mut WideLineMap, second: u32, masks: Masks) -> Result<(), NoMemory>
    ensures { OnOk result (lines.new.entries ≡ with_line lines.old.entries second masks) }
{
    lines.insert(second, masks)?;
    Ok(())
}

impl PlainSlice {
    pub fn issue(&mut self, log: u8, request: Request) -> Result<(), NoMemory>
        requires { log < length self.old.queues.items }
        ensures slice { (shape : Shape) (memory : Contents) (op : Op) (tag size address : ℕ) (bytes : ArrayVec ℕ) →
            request ≡ request_of shape tag op size address bytes.items →
            OnOk result (slice_of self.new ≡ slice_next shape memory (slice_of self.old) log
            (event.Issue op tag size address bytes)) }
        ensures ports { OnOk result (length self.new.queues.items ≡ length self.old.queues.items) }
    {
        enqueue(&mut self.queues, log, request)
    }

    pub fn reply(&mut self, log: u8, tag: u8)
        ensures slice { (shape : Shape) (memory : Contents) (size : ℕ) (bytes : ArrayVec ℕ) →
            slice_of self.new ≡ slice_next shape memory (slice_of self.old) log (event.Reply tag size bytes) }
        ensures ports { self.new.queues ≡ self.old.queues }
    {
        drop_ready(&mut self.ready, log, tag);
    }

    pub fn hit(&mut self, memory: &mut FlatMemory, port: u8, tag: u8) -> Result<(), NoMemory>
        requires inside { port < length self.old.queues.items }
        requires next { is_head (queue_at self.old.queues.items port) tag ≡ true }
        ensures slice { (shape : Shape) (log : ℕ) →
            OnOk result (slice_of self.new ≡ slice_next shape (flat_of memory.old) (slice_of self.old) log
            (event.Hit port tag)) }
        ensures memory { OnOk result (flat_of memory.new ≡ memory_after (flat_of memory.old) (slice_of self.old)
            (event.Hit port tag)) }
        ensures ports { OnOk result (length self.new.queues.items ≡ length self.old.queues.items) }
    {
        let Some(request) = head(&self.queues, port, tag) else {
            unreachable!()
        };
        let value = memory.value_of(request);
        push(&mut self.ready, Ready::new(port, tag, value))?;
        mark(&mut self.lines1, request.block(), request.store_mask())?;
        memory.accept(request)?;
        drop_head(&mut self.queues, port);
        Ok(())
    }

    pub fn merge(
        &mut self,
        memory: &mut FlatMemory,
        port: u8,
        tag: u8,
        register: u16,
    ) -> Result<(), NoMemory>
        requires inside { port < length self.old.queues.items }
        requires next { is_head (queue_at self.old.queues.items port) tag ≡ true }
        ensures slice { (shape : Shape) (log : ℕ) →
            OnOk result (slice_of self.new ≡ slice_next shape (flat_of memory.old) (slice_of self.old) log
            (event.Merge port tag register)) }
        ensures memory { OnOk result (flat_of memory.new ≡ memory_after (flat_of memory.old) (slice_of self.old)
            (event.Merge port tag register)) }
        ensures ports { OnOk result (length self.new.queues.items ≡ length self.old.queues.items) }
    {
        let Some(request) = head(&self.queues, port, tag) else {
            unreachable!()
        };
        push(
            &mut self.waiting,
            held_miss(memory, port, register, request),
        )?;
        memory.accept(request)?;
        drop_head(&mut self.queues, port);
        Ok(())
    }

    pub fn primary(
        &mut self,
        memory: &mut FlatMemory,
        port: u8,
        tag: u8,
        register: u16,
    ) -> Result<(), NoMemory>
        requires inside { port < length self.old.queues.items }
        requires next { is_head (queue_at self.old.queues.items port) tag ≡ true }
        ensures slice { (shape : Shape) (log : ℕ) →
            OnOk result (slice_of self.new ≡ slice_next shape (flat_of memory.old) (slice_of self.old) log
            (event.Primary port tag register)) }
        ensures memory { OnOk result (flat_of memory.new ≡ memory_after (flat_of memory.old) (slice_of self.old)
            (event.Primary port tag register)) }
        ensures ports { OnOk result (length self.new.queues.items ≡ length self.old.queues.items) }
    {
        let Some(request) = head(&self.queues, port, tag) else {
            unreachable!()
        };
        push(
            &mut self.waiting,
            held_miss(memory, port, register, request),
        )?;
        push(&mut self.asked, (request.block(), register))?;
        memory.accept(request)?;
        drop_head(&mut self.queues, port);
        Ok(())
    }

    pub fn fill1(&mut self, block: u32) -> Result<(), NoMemory>
        ensures slice { (shape : Shape) (memory : Contents) (log : ℕ) (bytes : ArrayVec ℕ) →
            OnOk result (slice_of self.new ≡ slice_next shape memory (slice_of self.old) log
            (event.Fill1 block bytes)) }
        ensures ports { OnOk result (self.new.queues ≡ self.old.queues) }
    {
        add_replies(&mut self.ready, &self.waiting, block)?;
        put_line(&mut self.lines1, block, store_bytes(&self.waiting, block))?;
        release(&mut self.waiting, block);
        drop_block(&mut self.supplied, block);
        Ok(())
    }

    pub fn evict1(&mut self, shape: &Shape, block: u32, mask: Mask) -> Result<(), NoMemory>
        requires { IsShape shape.now }
        ensures slice { (memory : Contents) (log : ℕ) (bytes : ArrayVec ℕ) →
            OnOk result (slice_of self.new ≡ slice_next shape.now memory (slice_of self.old) log
            (event.Evict1 block mask bytes)) }
        ensures ports { OnOk result (self.new.queues ≡ self.old.queues) }
    {
        drop_line(&mut self.lines1, block);
        let second = second_of(shape, block);
        let masks = marked_masks(&self.lines2, second, place_of(shape, block), mask.0);
        put_wide_line(&mut self.lines2, second, masks)
    }

    pub fn second_hit(&mut self, block: u32) -> Result<(), NoMemory>
        ensures slice { (shape : Shape) (memory : Contents) (log : ℕ) →
            OnOk result (slice_of self.new ≡ slice_next shape memory (slice_of self.old) log (event.SecondHit block)) }
        ensures ports { OnOk result (self.new.queues ≡ self.old.queues) }
    {
        push(&mut self.supplied, block)?;
        drop_asked(&mut self.asked, block);
        Ok(())
    }

    /// A miss of level two is placed, and no longer asked.
    pub fn second_miss(&mut self, shape: &Shape, block: u32, register: u16) -> Result<(), NoMemory>
        requires { IsShape shape.now }
        ensures primary { (memory : Contents) (log : ℕ) →
            OnOk result (slice_of self.new ≡ slice_next shape.now memory (slice_of self.old) log
            (event.SecondPrimary block register)) }
        ensures merge { (memory : Contents) (log : ℕ) →
            OnOk result (slice_of self.new ≡ slice_next shape.now memory (slice_of self.old) log
            (event.SecondMerge block register)) }
        ensures ports { OnOk result (self.new.queues ≡ self.old.queues) }
    {
        let target = (block, self.asked_register(block));
        let held = Held {
            register,
            block: second_of(shape, block),
            target,
        };
        push(&mut self.regs2, held)?;
        drop_asked(&mut self.asked, block);
        Ok(())
    }

    pub fn fill2(&mut self, shape: &Shape, second: u32) -> Result<(), NoMemory>
        requires { IsShape shape.now }
        ensures slice { (memory : Contents) (log : ℕ) (bytes : ArrayVec ℕ) →
            OnOk result (slice_of self.new ≡ slice_next shape.now memory (slice_of self.old) log
            (event.Fill2 second bytes)) }
        ensures ports { OnOk result (self.new.queues ≡ self.old.queues) }
    {
        add_supplied(&mut self.supplied, &self.regs2, second)?;
        put_wide_line(&mut self.lines2, second, clean_masks(shape.factor))?;
        release(&mut self.regs2, second);
        Ok(())
    }

    pub fn evict2(&mut self, second: u32)
        ensures slice { (shape : Shape) (memory : Contents) (log : ℕ) (masks : MaskList) (bytes : ArrayVec ℕ) →
            slice_of self.new ≡ slice_next shape memory (slice_of self.old) log (event.Evict2 second masks bytes) }
        ensures ports { self.new.queues ≡ self.old.queues }
    {
        drop_line(&mut self.lines2, second);
    }
}

/// The blocks that the second-level block's targets asked for are supplied.
fn add_supplied(
    supplied: &mut Vec<u32>,
    regs2: &[Held<(u32, u16)>],
    second: u32,
) -> Result<(), NoMemory>
    ensures { OnOk result (supplied.new.items ≡ supplied.old.items ++ map block_asked (targets_of regs2.now second)) }
{
    for held in regs2 {
        if held.block() == second {
            push(supplied, held.target().0)?;
        }
    }
    Ok(())
}

/// The block's targets may have their replies, in the order of acceptance.
fn add_replies(ready: &mut Vec<Ready>, waiting: &[Held<Missed>], block: u32) -> Result<(), NoMemory>
    ensures { OnOk result (ready.new.items ≡ ready.old.items ++ map reply_of (targets_of waiting.now block)) }
{
    for held in waiting {
        if held.block() == block {
            push(ready, held.target().reply())?;
        }
    }
    Ok(())
}
