//! The events of a port and of level one. Each is judged by the bank's rules in order, and carried out where it breaks
//! none. What may be refused memory comes before what is not undone, so that a refusal leaves the state as it was.

ghost use Rattle.std.specs.Prelude.{◌≡◌, ◌<◌, ℕ, Some, drop, length, IfOk, OnErr};
ghost use Rattle.arrayvec.specs.ArrayVec.{ArrayVec};
ghost use Rattle.lf_rules.specs.declared.event.Event.TheVariants as event;
ghost use Rattle.lf_rules.specs.declared.event.Op.{Op};
ghost use Rattle.lf_rules.specs.State.{update};
ghost use Rattle.lf_rules.specs.Table.{request_of};
ghost use Rattle.bank_state.specs.Queues.{queue_at};
ghost use Rattle.bank_events.specs.Answers.{IsAnswer};
ghost use Rattle.bank_events.specs.BankView.{IsSteady};
ghost use Rattle.bank_events.specs.KnownRules.{set1};
ghost use Rattle.bank_cells.specs.Cells.{HasSameWords, cell_of, first_at};

use crate::bank::Bank;
use crate::counts::{add_line, lines_in, take_line};
use crate::fault::BankFault;
use crate::holders::holder_of;
use crate::replies::add_replies;
use crate::target::{asking, missed};
use bank_cells::{Cells, Fetch, First};
use bank_state::{Queue, Ready, Request, drop_head, enqueue, head, push, ready_at};
use lf_levels::One;
use lf_mshr::{Organisation, Request1, Request2};
use lf_rules::{Mask, NoMemory, Rule};

/// No more targets than these wait for one block.
pub const MOST_TARGETS: usize = 1024;

/// The port's oldest request leaves its queue.
fn leave(queues: &mut Vec<Queue>, port: u8)
    requires { port < length queues.old.items }
    ensures rest { queue_at queues.new.items ≡ update (queue_at queues.old.items) port
        (drop 1 (queue_at queues.old.items port)) }
    ensures count { length queues.new.items ≡ length queues.old.items }
{
    drop_head(queues, port);
}

/// What level one has of the block that has the cell, and of one that has none.
fn first_in(cells: &Cells, found: Option<usize>) -> First
    requires { (block : ℕ) × (found ≡ cell_of cells.now block) }
    ensures { (block : ℕ) → found ≡ cell_of cells.now block → result ≡ first_at cells.now block }
{
    match found {
        Some(cell) => cells.first(cell),
        None => First::Absent,
    }
}

/// The cell of a block: the one that was found, or a new one. `NoMemory` where a growth was refused: then nothing has
/// changed.
fn cell_for(cells: &mut Cells, block: u32, found: Option<usize>) -> Result<usize, NoMemory>
    requires { found ≡ cell_of cells.old block }
    ensures cell { IfOk result (λ cell. cell_of cells.new block ≡ Some cell) }
    ensures words { HasSameWords cells.old cells.new }
    ensures factor { cells.new.factor ≡ cells.old.factor }
    ensures err { OnErr result (cells.new ≡ cells.old) }
{
    match found {
        Some(cell) => Ok(cell),
        None => cells.add(block),
    }
}

impl<O1: Organisation<Target = Request1>, O2: Organisation<Target = Request2>> Bank<O1, O2> {
    /// The port's queue takes the request.
    pub fn issue(&mut self, log: u8, request: Request) -> Result<(), BankFault>
        requires { log < self.old.shape.ports }
        ensures { (op : Op) (tag size address : ℕ) (bytes : ArrayVec ℕ) →
            request ≡ request_of self.old.shape tag op size address bytes.items
            → IsAnswer self.old self.new log (event.Issue op tag size address bytes) result }
    {
        if u32::from(request.tag()) >= self.shape.tags {
            return Err(BankFault::Rule(Rule::TagRange));
        }
        if enqueue(&mut self.queues, log, request).is_err() {
            return Err(BankFault::NoMemory);
        }
        Ok(())
    }

    /// The port's reply, which was ready, leaves.
    pub fn reply(&mut self, log: u8, tag: u8, size: u8, bytes: &[u8]) -> Result<(), BankFault>
        ensures { IsAnswer self.old self.new log (event.Reply tag size (record { items = bytes.now })) result }
    {
        let Some(at) = ready_at(&self.ready, log, tag) else {
            return Err(BankFault::Rule(Rule::NotReady));
        };
        let value = self.ready[at].value();
        if usize::from(size) != value.len() {
            return Err(BankFault::Rule(Rule::ReplySize));
        }
        if bytes != value {
            return Err(BankFault::Rule(Rule::ReplyData));
        }
        self.ready.remove(at);
        Ok(())
    }

    /// The port's oldest request finds its block in level one.
    pub fn hit(&mut self, port: u8, tag: u8) -> Result<(), BankFault>
        ensures { (log : ℕ) → IsAnswer self.old self.new log (event.Hit port tag) result }
    {
        let Some(request) = head(&self.queues, port, tag) else {
            return Err(BankFault::Rule(Rule::NotHead));
        };
        let Some(cell) = self.cells.find(request.block()) else {
            return Err(BankFault::Rule(Rule::NotPresent));
        };
        let First::Present = self.cells.first(cell) else {
            return Err(BankFault::Rule(Rule::NotPresent));
        };
        let value = self.cells.value_of(cell, request);
        if push(&mut self.ready, Ready::new(port, tag, value)).is_err() {
            return Err(BankFault::NoMemory);
        }
        self.cells.accept(cell, request);
        leave(&mut self.queues, port);
        Ok(())
    }

    /// The port's oldest request misses and takes a register.
    pub fn primary(&mut self, port: u8, tag: u8, register: u16) -> Result<(), BankFault>
        requires { IsSteady self.old }
        ensures { (log : ℕ) → IsAnswer self.old self.new log (event.Primary port tag register) result }
    {
        let Some(request) = head(&self.queues, port, tag) else {
            return Err(BankFault::Rule(Rule::NotHead));
        };
        let block = request.block();
        let found = self.cells.find(block);
        match first_in(&self.cells, found) {
            First::Absent => {}
            First::InFlight { .. } => return Err(BankFault::Rule(Rule::PrimaryInFlight)),
            First::Present => return Err(BankFault::Rule(Rule::Present)),
        }
        let asked = asking(&self.shape, port, request);
        if let Some(fault) = O1::fresh_fault(&self.waiting, register, block, &asked) {
            return Err(BankFault::Rule(fault.rule()));
        }
        let Ok(cell) = cell_for(&mut self.cells, block, found) else {
            return Err(BankFault::NoMemory);
        };
        let target = missed(&self.shape, &self.cells, cell, port, request);
        self.cells.accept(cell, request);
        let fetch = Fetch::Asked;
        self.cells
            .set_first(cell, First::InFlight { register, fetch });
        O1::place(&mut self.waiting, register, block, target);
        leave(&mut self.queues, port);
        Ok(())
    }

    /// The port's oldest request misses and joins a register that waits for its block.
    pub fn merge(&mut self, port: u8, tag: u8, register: u16) -> Result<(), BankFault>
        requires { IsSteady self.old }
        ensures { (log : ℕ) → IsAnswer self.old self.new log (event.Merge port tag register) result }
    {
        let Some(request) = head(&self.queues, port, tag) else {
            return Err(BankFault::Rule(Rule::NotHead));
        };
        let block = request.block();
        let Some(cell) = self.cells.find(block) else {
            return Err(BankFault::Rule(Rule::NotInFlight));
        };
        let First::InFlight {
            register: holder,
            ..
        } = self.cells.first(cell)
        else {
            return Err(BankFault::Rule(Rule::NotInFlight));
        };
        let asked = asking(&self.shape, port, request);
        if let Some(fault) = O1::merge_fault_in(
            &self.waiting,
            Some(holder),
            register,
            block,
            &asked,
        ) {
            return Err(BankFault::Rule(fault.rule()));
        }
        let target = missed(&self.shape, &self.cells, cell, port, request);
        self.cells.accept(cell, request);
        O1::place(&mut self.waiting, register, block, target);
        leave(&mut self.queues, port);
        Ok(())
    }

    /// The port's oldest request misses and finds no room.
    pub fn stall(&self, port: u8, tag: u8) -> Result<(), BankFault>
        requires { IsSteady self.now }
        ensures { (log : ℕ) → IsAnswer self.now self.now log (event.Stall port tag) result }
    {
        let Some(request) = head(&self.queues, port, tag) else {
            return Err(BankFault::Rule(Rule::NotHead));
        };
        let block = request.block();
        let first = first_in(&self.cells, self.cells.find(block));
        if let First::Present = first {
            return Err(BankFault::Rule(Rule::Present));
        }
        let asked = asking(&self.shape, port, request);
        if O1::room_in(&self.waiting, holder_of(first), block, &asked) {
            return Err(BankFault::Rule(Rule::NeedlessStall));
        }
        Ok(())
    }

    /// The set of a block in level one.
    fn set1(&self, block: u32) -> usize
        ensures set { result ≡ set1 self.now.shape block }
        ensures inside { result < length self.now.counts1 }
    {
        self.sets1.set_of::<One>(block) as usize
    }

    /// The block comes into level one, and each request that waits for it may have its reply.
    pub fn fill1(&mut self, block: u32, bytes: &[u8]) -> Result<(), BankFault>
        requires steady { IsSteady self.old }
        requires whole { length bytes.now ≡ self.old.shape.block }
        ensures { (log : ℕ) → IsAnswer self.old self.new log (event.Fill1 block (record { items = bytes.now })) result }
    {
        let Some(cell) = self.cells.find(block) else {
            return Err(BankFault::Rule(Rule::NotSupplied));
        };
        let First::InFlight {
            register: holder,
            fetch: Fetch::Supplied,
        } = self.cells.first(cell)
        else {
            return Err(BankFault::Rule(Rule::NotSupplied));
        };
        let set = self.set1(block);
        if lines_in(&self.counts1, set) >= self.shape.level1.ways {
            return Err(BankFault::Rule(Rule::SetFull));
        }
        if !self.cells.agrees(cell, bytes) {
            return Err(BankFault::Rule(Rule::FillData));
        }
        if self.ready.reserve(MOST_TARGETS).is_err() {
            return Err(BankFault::NoMemory);
        }
        add_line(&mut self.counts1, set);
        self.cells.set_first(cell, First::Present);
        O1::release_of(&mut self.waiting, holder, block, &mut self.replied);
        add_replies(&mut self.ready, &self.shape, self.replied.as_slice());
        Ok(())
    }

    /// Level one gives the block up, with the bytes of its dirty mask.
    pub fn evict1(&mut self, block: u32, mask: Mask, bytes: &[u8]) -> Result<(), BankFault>
        ensures { (log : ℕ) →
            IsAnswer self.old self.new log (event.Evict1 block mask (record { items = bytes.now })) result }
    {
        let Some(cell) = self.cells.find(block) else {
            return Err(BankFault::Rule(Rule::EvictAbsent));
        };
        let First::Present = self.cells.first(cell) else {
            return Err(BankFault::Rule(Rule::EvictAbsent));
        };
        if mask.0 != self.cells.written(cell) {
            return Err(BankFault::Rule(Rule::EvictMask));
        }
        if !self.cells.carries(&self.shape, cell, mask, bytes) {
            return Err(BankFault::Rule(Rule::EvictData));
        }
        let set = self.set1(block);
        take_line(&mut self.counts1, set);
        self.cells.evict(cell, mask);
        Ok(())
    }
}
