//! Copies of blocks, as a level or the memory holds them.

use crate::request::{Reply, Request, WORD};
use lf_rules::{Block, Mask, Op, overlay};
use std::alloc::{AllocError, Global};

/// A block's bytes, and which of them were written since it came.
#[derive(Drop)]
pub struct Line {
    pub block: u32,
    pub bytes: Block,
    pub dirty: Mask,
}

impl Line {
    /// The block as it comes from the level below.
    pub fn clean(block: u32, bytes: Block) -> Line {
        Line {
            block,
            bytes,
            dirty: Mask(0),
        }
    }

    /// A load reads the first word, a store writes it.
    pub fn serve(&mut self, alloc: Global, request: &Request) -> Result<Reply, AllocError> {
        let bytes = match request.op {
            Op::Load => self
                .bytes
                .iter()
                .take(usize::from(WORD))
                .copied()
                .collect(alloc)?,
            Op::Store => {
                for (byte, new) in self.bytes.iter_mut().zip(request.bytes.iter()) {
                    *byte = *new;
                }
                self.dirty = self.dirty.union(Mask::of(0, u32::from(WORD)));
                Block::new()
            }
        };
        Ok(Reply {
            port: request.port,
            tag: request.tag,
            bytes,
        })
    }

    /// The bytes that were written, rising, as an eviction carries them.
    pub fn dirty_bytes(&self) -> Block {
        let mut bytes = Block::new();
        for place in 0..64u32 {
            if self.dirty.covers(Mask::of(place, 1))
                && let Some(byte) = self.bytes.get(place as usize)
            {
                bytes.push(*byte);
            }
        }
        bytes
    }

    /// Takes over what was written to the block's line of the level above.
    pub fn write_back(&mut self, above: &Line) {
        if self.bytes.len() == above.bytes.len() {
            self.bytes = overlay(&self.bytes, &above.bytes, above.dirty);
        }
        self.dirty = self.dirty.union(above.dirty);
    }
}

/// The lines of a level, or those of memory, in the order in which they came.
#[derive(Drop)]
pub struct Lines {
    pub lines: Vec<Line>,
}

impl Lines {
    pub fn new(alloc: Global) -> Lines {
        Lines {
            lines: Vec::new(alloc),
        }
    }

    pub fn has(&self, block: u32) -> bool {
        self.lines.iter().any(|line| line.block == block)
    }

    pub fn get_mut(&mut self, block: u32) -> Option<&mut Line> {
        let at = self.lines.iter().position(|line| line.block == block)?;
        self.lines.get_mut(at)
    }

    /// A copy of the block's bytes.
    pub fn bytes_of(&self, block: u32) -> Result<Option<Block>, AllocError> {
        match self.lines.iter().find(|line| line.block == block) {
            Some(line) => Ok(Some(line.bytes.clone()?)),
            None => Ok(None),
        }
    }

    pub fn put(&mut self, line: Line) -> Result<(), AllocError> {
        self.lines.push(line)?;
        Ok(())
    }

    pub fn take(&mut self, block: u32) -> Option<Line> {
        let at = self.lines.iter().position(|line| line.block == block)?;
        Some(self.lines.remove(at))
    }
}
