//! A request that missed, as a register of level one holds it.

ghost use Rattle.std.specs.Prelude.{◌≡◌};
ghost use Rattle.lf_rules.specs.Registers as registers;
ghost use Rattle.lf_rules.specs.State as model;
ghost use Rattle.lf_rules.specs.Table.{position, store_mask, value_of};
ghost use Rattle.bank_state.specs.Bytes.{flat_of};

use crate::registers::Held;
use bank_state::{Data, FlatMemory, Ready, Request, data_of};
use std::marker::Model;

/// A request that missed, and its value where it is a load.
#[derive(Drop)]
pub struct Missed {
    pub port: u8,
    pub request: Request,
    pub value: Data,
}

impl Model for Missed {
    ghost use Rattle.lf_rules.specs.State as model;

    ghost Value = { model.Missed };

    ghost view = { λ m. record { port = m.port; request = m.request; value = m.value.items } };
}

impl Missed {
    /// The word of the block that the request touches first.
    pub fn word(&self) -> u32
        ensures { result ≡ position self.now }
    {
        u32::from(self.request.offset()) / 8
    }

    /// What the port gets once the block is there.
    pub fn reply(&self) -> Ready
        ensures { let reply : model.Ready = record {
          port = self.now.port;
          tag = self.now.request.tag;
          value =
              self.now.value;
        } in result ≡ reply }
    {
        Ready::new(self.port, self.request.tag(), data_of(&self.value))
    }

    /// The bytes that a store writes, as a mask of its block, and none for a load.
    pub fn store_mask(&self) -> u64
        ensures { result ≡ store_mask self.now.request }
    {
        self.request.store_mask()
    }
}

/// What a register keeps of a port's request that misses now.
pub fn held_miss(memory: &FlatMemory, port: u8, register: u16, request: &Request) -> Held<Missed>
    ensures { let value = value_of (flat_of memory.now) request.now in
        let target : model.Missed = record { port = port; request = request.now; value = value } in
        let held : registers.Held model.Missed = record {
          register = register;
          block = request.now.block;
          target =
              target;
        } in
        result ≡ held }
{
    let target = Missed {
        port,
        request: request.copied(),
        value: memory.value_of(request),
    };
    Held {
        register,
        block: request.block(),
        target,
    }
}
