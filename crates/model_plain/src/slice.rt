//! What a bank holds of both levels.

ghost use Rattle.std.specs.Prelude.{◌≡◌, ◌&&◌, nat_lt, IfOk, true, false, length, MatchOption};
ghost use Rattle.std.specs.List.{list_any};
ghost use Rattle.lf_rules.specs.Table.{is_head, oldest, is_asked, is_among, asked_register, is_ready_for, first_ready};
ghost use Rattle.lf_rules.specs.State.{empty_slice};
ghost use Rattle.bank_state.specs.Queues.{queue_at};
ghost use Rattle.model_plain.specs.Plain.{slice_of};

use crate::lines::{LineMap, WideLineMap};
use crate::missed::Missed;
use crate::registers::Held;
use bank_state::{Queue, Ready, Request, asked_register, empty_queues, ready_for};
use lf_rules::NoMemory;
use std::alloc::Global;

/// What a bank holds of both levels.
#[derive(Drop)]
pub struct PlainSlice {
    /// One for each port.
    pub queues: Vec<Queue>,
    pub lines1: LineMap,
    pub lines2: WideLineMap,
    /// The targets in level-one registers.
    pub waiting: Vec<Held<Missed>>,
    /// Those in level-two registers: a block each, and the level-one register that asked.
    pub regs2: Vec<Held<(u32, u16)>>,
    /// Blocks, each with the level-one register of its primary miss.
    pub asked: Vec<(u32, u16)>,
    pub supplied: Vec<u32>,
    pub ready: Vec<Ready>,
}

impl PlainSlice {
    /// A bank that holds nothing.
    pub fn new(alloc: Global, ports: u32) -> Result<PlainSlice, NoMemory>
        ensures ports { IfOk result (λ slice. length slice.queues.items ≡ ports) }
        ensures empty { IfOk result (λ slice. slice_of slice ≡ empty_slice) }
    {
        Ok(PlainSlice {
            queues: empty_queues(alloc, ports)?,
            lines1: LineMap::new(alloc),
            lines2: WideLineMap::new(alloc),
            waiting: Vec::new(alloc),
            regs2: Vec::new(alloc),
            asked: Vec::new(alloc),
            supplied: Vec::new(alloc),
            ready: Vec::new(alloc),
        })
    }

    /// The oldest request of the port, where the port exists and that request has the tag.
    pub fn head(&self, port: u8, tag: u8) -> Option<&Request>
        ensures { let queue = queue_at self.now.queues.items port in let is =
            nat_lt port (length self.now.queues.items) && is_head queue tag in
            MatchOption result (is ≡ false) (λ request. (is ≡ true) × (request.now ≡ oldest queue)) }
    {
        let queue = self.queues.get(port as usize)?;
        queue.head(tag)
    }

    pub fn has_asked(&self, block: u32) -> bool
        ensures { result ≡ is_asked self.now.asked.items block }
    {
        self.asked.iter().any(|a| a.0 == block)
    }

    pub fn has_supplied(&self, block: u32) -> bool
        ensures { result ≡ is_among self.now.supplied.items block }
    {
        self.supplied.iter().any(|b| *b == block)
    }

    /// The level-one register of the block's primary miss, and 0 where the block is not asked for.
    pub fn asked_register(&self, block: u32) -> u16
        ensures { result ≡ asked_register self.now.asked.items block }
    {
        asked_register(&self.asked, block)
    }

    /// The first reply that is ready for the port and tag.
    pub fn ready_for(&self, port: u8, tag: u8) -> Option<&Ready>
        ensures { let ready = self.now.ready.items in
            MatchOption result (list_any (is_ready_for port tag) ready ≡ false)
            (λ r. (list_any (is_ready_for port tag) ready ≡ true) × (r.now.value ≡ first_ready ready port tag)) }
    {
        ready_for(&self.ready, port, tag)
    }
}
