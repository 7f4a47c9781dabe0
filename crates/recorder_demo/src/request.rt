//! What a port asks of a bank, and what it gets.

use lf_rules::{Block, Op};
use std::alloc::{AllocError, Global};
use std::collections::VecDeque;

/// The bytes of a request.
pub const WORD: u8 = 8;

/// A load or a store of the first word of a block.
#[derive(Clone, Copy)]
pub struct Request {
    pub port: u8,
    pub tag: u8,
    pub op: Op,
    pub block: u32,
    /// What a store writes.
    pub bytes: [u8; 8],
}

/// A reply that its port has not taken yet: the bytes that a load read, and none for a store.
#[derive(Drop)]
pub struct Reply {
    pub port: u8,
    pub tag: u8,
    pub bytes: Block,
}

/// The requests of a port that its bank has not accepted yet.
#[derive(Drop)]
pub struct Queue {
    requests: VecDeque<Request>,
    /// Whether the oldest of them has stalled.
    has_stalled: bool,
}

impl Queue {
    pub fn new(alloc: Global) -> Queue {
        Queue {
            requests: VecDeque::new(alloc),
            has_stalled: false,
        }
    }

    pub fn push(&mut self, request: Request) -> Result<(), AllocError> {
        self.requests.push_back(request)?;
        Ok(())
    }

    pub fn oldest(&self) -> Option<Request> {
        self.requests.front().copied()
    }

    /// The oldest request is accepted.
    pub fn accept(&mut self) {
        let _ = self.requests.pop_front();
        self.has_stalled = false;
    }

    /// The oldest request finds no room. Whether it does so for the first time.
    pub fn stall(&mut self) -> bool {
        !std::mem::replace(&mut self.has_stalled, true)
    }
}
