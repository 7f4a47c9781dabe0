//! How far the reading of a trace has come, and its steps.

ghost use Rattle.std.specs.Prelude.{◌≡◌, ◌+◌, ◌<◌, ◌≤◌, ◌^◌, length, slice_index, OnOk};
ghost use Rattle.lf_codec.specs.Reading.{at_start};
ghost use Rattle.lf_codec.specs.declared.stage.Stage.TheVariants as stages;
ghost use Rattle.lf_codec.specs.Steps.{fixed_len, stage_len, within, at_next, past_header, past_memory, counted};
ghost use Rattle.lf_codec.specs.Steps.{past_head, past_fixed, advanced};

use crate::checks::{check_end, check_fixed, check_head, check_header, check_memory};
use crate::fault::CodecCause;
use crate::fields::u32_at;
use crate::header::Header;
use crate::stage::{Found, Head, Stage};
use crate::step::{
    between, block_of, data_len, fixed_len, fixed_of, head_at, header_at, record_of,
};
use std::mem;

/// How far the reading of a trace has come.
#[derive(Drop)]
pub struct Progress {
    /// Zeros until it is read.
    pub header: Header,
    pub stage: Stage,
    /// How many event records each log has so far, and all of them together.
    pub counts: [u32; 32],
    pub count: u32,
    /// How many memory records are to come, and the least block that the next may have.
    pub left: u32,
    pub least: u64,
    /// How many bytes the steps so far took, and where the header or record begins that is being read.
    pub position: u64,
    pub offset: u64,
}

impl Progress {
    ghost use Rattle.lf_codec.specs.Sound.{IsSound};
    ghost use Rattle.lf_codec.specs.Checks.{judged, stage_checks};
    ghost use Rattle.lf_codec.specs.Takes.{all_passed};

    pub(crate) fn new() -> Progress
        ensures { result ≡ at_start }
    {
        Progress {
            header: Header {
                version: 0,
                ports: 0,
                banks: 0,
                block: 0,
                factor: 0,
                memory_count: 0,
            },
            stage: Stage::Header,
            counts: [0; 32],
            count: 0,
            left: 0,
            least: 0,
            position: 0,
            offset: 0,
        }
    }

    fn within(&mut self, n: u64, stage: Stage)
        requires { self.old.position + n < 2 ^ 64 }
        ensures { self.new ≡ within self.old n stage }
    {
        self.stage = stage;
        self.position += n;
    }

    fn at_next(&mut self, n: u64, stage: Stage)
        requires { self.old.position + n < 2 ^ 64 }
        ensures { self.new ≡ at_next self.old n stage }
    {
        self.stage = stage;
        self.position += n;
        self.offset = self.position;
    }

    fn past_header(&mut self, header: Header)
        requires { self.old.position + 16 < 2 ^ 64 }
        ensures { self.new ≡ past_header self.old header }
    {
        self.at_next(16, between(header.memory_count));
        self.header = header;
        self.left = header.memory_count;
    }

    fn past_memory(&mut self, n: u64, block: u32)
        requires room { self.old.position + n < 2 ^ 64 }
        requires some { 0 < self.old.left }
        ensures { self.new ≡ past_memory self.old n block }
    {
        let left = self.left - 1;
        self.at_next(n, between(left));
        self.left = left;
        self.least = u64::from(block) + 1;
    }

    fn count(&mut self, n: u64, log: u8)
        requires room { self.old.position + n < 2 ^ 64 }
        requires log { log < 32 }
        requires one_more { self.old.count + 1 < 2 ^ 32 }
        requires one_more_of_log { slice_index self.old.counts log + 1 < 2 ^ 32 }
        ensures { self.new ≡ counted self.old n log }
    {
        self.stage = Stage::Head;
        self.count_on(n, log);
    }

    /// Counts a record where the stage is a head. The stage stays as it is, since it costs time to write one.
    #[inline(always)]
    pub(crate) fn count_on(&mut self, n: u64, log: u8)
        requires stage { self.old.stage ≡ stages.Head }
        requires room { self.old.position + n < 2 ^ 64 }
        requires log { log < 32 }
        requires one_more { self.old.count + 1 < 2 ^ 32 }
        requires one_more_of_log { slice_index self.old.counts log + 1 < 2 ^ 32 }
        ensures { self.new ≡ counted self.old n log }
    {
        self.position += n;
        self.offset = self.position;
        self.counts[log as usize] += 1;
        self.count += 1;
    }

    fn past_head(&mut self, head: Head) -> Found
        requires room { self.old.position + 8 < 2 ^ 64 }
        requires factor { self.old.header.factor ≤ 4 }
        requires log { head.log < 32 }
        requires one_more { self.old.count + 1 < 2 ^ 32 }
        requires one_more_of_log { slice_index self.old.counts head.log + 1 < 2 ^ 32 }
        ensures next { self.new ≡ (past_head self.old head).0 }
        ensures found { result ≡ (past_head self.old head).1 }
    {
        if fixed_len(&self.header, head.kind) == 0 {
            self.count(8, head.log);
            Found::Record(record_of(&self.header, head, &[], &[]))
        } else {
            self.within(8, Stage::Fixed(head));
            Found::Nothing
        }
    }

    fn past_fixed(&mut self, head: Head, fixed: &[u8]) -> Found
        requires room { self.old.position + length fixed.now < 2 ^ 64 }
        requires factor { self.old.header.factor ≤ 4 }
        requires len { length fixed.now ≡ fixed_len self.old.header head.kind }
        requires log { head.log < 32 }
        requires one_more { self.old.count + 1 < 2 ^ 32 }
        requires one_more_of_log { slice_index self.old.counts head.log + 1 < 2 ^ 32 }
        ensures next { self.new ≡ (past_fixed self.old head fixed.now).0 }
        ensures found { result ≡ (past_fixed self.old head fixed.now).1 }
    {
        if data_len(&self.header, head.kind, fixed) == 0 {
            self.count(fixed.len() as u64, head.log);
            Found::Record(record_of(&self.header, head, fixed, &[]))
        } else {
            self.within(fixed.len() as u64, Stage::Data(head, fixed_of(fixed)));
            Found::Nothing
        }
    }

    /// How many bytes the next step takes.
    pub(crate) fn step_len(&self) -> usize
        requires { IsSound self.now }
        ensures { result ≡ stage_len self.now.header self.now.stage }
    {
        match &self.stage {
            Stage::Header => 16,
            Stage::MemoryBlock => 4,
            Stage::MemoryData(_) => usize::from(self.header.block),
            Stage::Head => 8,
            Stage::Fixed(head) => fixed_len(&self.header, head.kind),
            Stage::Data(head, fixed) => data_len(&self.header, head.kind, fixed),
            Stage::Ended => 1,
        }
    }

    #[tactic(auto, unfolding(crate::specs::Checks::stage_checks))]
    fn check_part(&self, bytes: &[u8]) -> Result<(), CodecCause>
        requires sound { IsSound self.now }
        requires len { length bytes.now ≡ stage_len self.now.header self.now.stage }
        ensures { result ≡ judged (stage_checks self.now.stage self.now bytes.now) }
    {
        match &self.stage {
            Stage::Header => check_header(bytes),
            Stage::MemoryBlock => check_memory(self.least, bytes),
            Stage::MemoryData(_) | Stage::Data(_, _) => Ok(()),
            Stage::Head if bytes[0] == 0 => check_end(self.count, bytes),
            Stage::Head => {
                check_head(&self.header, &self.counts, bytes)?;
                Ok(())
            }
            Stage::Fixed(head) => check_fixed(&self.header, head.bank, head.kind, bytes),
            Stage::Ended => Err(CodecCause::Trailing),
        }
    }

    /// Checks the bytes of the part that comes next.
    pub(crate) fn check(&self, bytes: &[u8]) -> Result<(), CodecCause>
        requires sound { IsSound self.now }
        requires len { length bytes.now ≡ stage_len self.now.header self.now.stage }
        ensures cause { result ≡ judged (stage_checks self.now.stage self.now bytes.now) }
        ensures sound { OnOk result (IsSound (advanced self.now.stage self.now bytes.now).0) }
    {
        self.check_part(bytes)
    }

    /// Goes past the bytes of the part that comes next.
    #[tactic(auto, unfolding(crate::specs::Steps::advanced))]
    pub(crate) fn advance(&mut self, bytes: &[u8]) -> Found
        requires sound { IsSound self.old }
        requires len { length bytes.now ≡ stage_len self.old.header self.old.stage }
        requires checked { judged (stage_checks self.old.stage self.old bytes.now) ≡ all_passed }
        ensures next { self.new ≡ (advanced self.old.stage self.old bytes.now).0 }
        ensures found { result ≡ (advanced self.old.stage self.old bytes.now).1 }
    {
        match mem::replace(&mut self.stage, Stage::Ended) {
            Stage::Header => {
                self.past_header(header_at(bytes));
                Found::Nothing
            }
            Stage::MemoryBlock => {
                self.within(4, Stage::MemoryData(u32_at(bytes, 0)));
                Found::Nothing
            }
            Stage::MemoryData(block) => {
                self.past_memory(bytes.len() as u64, block);
                Found::Memory(block, block_of(bytes))
            }
            Stage::Head => {
                if bytes[0] == 0 {
                    self.at_next(8, Stage::Ended);
                    Found::Nothing
                } else {
                    self.past_head(head_at(bytes))
                }
            }
            Stage::Fixed(head) => self.past_fixed(head, bytes),
            Stage::Data(head, fixed) => {
                self.count(bytes.len() as u64, head.log);
                Found::Record(record_of(&self.header, head, &fixed, bytes))
            }
            Stage::Ended => Found::Nothing,
        }
    }
}
