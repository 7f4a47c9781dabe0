//! Where a block lies: its second-level block, its bank and its sets.

ghost use Rattle.recorder_demo.specs.Places.{AreInRange};

use crate::request::Request;
use lf_rules::Shape;

/// The shape, by which a block's places are told.
#[derive(Clone, Copy)]
pub struct Places {
    pub shape: Shape,
    ghost in_range: { AreInRange shape },
}

impl Places {
    ghost use Rattle.std.specs.Prelude.{◌≡◌};
    ghost use Rattle.lf_rules.specs.InRange.{IsShape};

    pub fn new(shape: &Shape) -> Places
        requires { IsShape shape.now }
        ensures { result.shape ≡ shape.now }
    {
        Places { shape: *shape }
    }

    pub fn second_of(&self, block: u32) -> u32 {
        block / self.shape.factor
    }

    /// The place of a block in its second-level block.
    pub fn place_of(&self, block: u32) -> u32 {
        block % self.shape.factor
    }

    pub fn bank_of(&self, block: u32) -> u8 {
        (self.second_of(block) % self.shape.banks) as u8
    }

    /// The set of a block in level one.
    pub fn set_at_one(&self, block: u32) -> u32 {
        let factor = self.shape.factor;
        (block / factor / self.shape.banks * factor + block % factor) % self.shape.level1.sets
    }

    /// The set of a second-level block in level two.
    pub fn set_at_two(&self, second: u32) -> u32 {
        second / self.shape.banks % self.shape.level2.sets
    }

    /// The destination of a request, for which an inverted level one has a register.
    pub fn destination_of(&self, request: &Request) -> u16 {
        (u32::from(request.port) * self.shape.tags + u32::from(request.tag)) as u16
    }
}
