//! What a level-one register keeps of a request, and the reply that it tells.

ghost use Rattle.std.specs.Prelude.{◌≡◌, ◌/◌, ◌<◌, Some, take};
ghost use Rattle.std.specs.Int.{to_le_bytes, w64};
ghost use Rattle.lf_rules.specs.InRange.{IsShape};
ghost use Rattle.lf_rules.specs.State as model;
ghost use Rattle.lf_rules.specs.Table.{destination, value_of};
ghost use Rattle.bank_cells.specs.Cells.{cell_of, memory_at};
ghost use Rattle.bank_events.specs.Targets.{IsSomeTarget, IsTarget1, reply_to};

use bank_cells::Cells;
use bank_state::{Data, Ready, Request};
use lf_mshr::Request1;
use lf_rules::{Mask, Op, Shape, quotient, remainder};

/// What a port's request asks of a level-one register: its place in the block and where its reply goes.
pub fn asking(shape: &Shape, port: u8, request: &Request) -> Request1
    requires in_range { IsShape shape.now }
    requires port { port < shape.now.ports }
    requires tag { request.now.tag < shape.now.tags }
    ensures position { result.position ≡ request.now.offset / 8 }
    ensures destination { result.destination ≡ destination shape.now port request.now.tag }
{
    Request1 {
        position: request.offset() / 8,
        destination: (u32::from(port) * shape.tags + u32::from(request.tag())) as u16,
        is_store: false,
        bytes: Mask(0),
        value: 0,
    }
}

/// What a level-one register keeps of a port's request that misses now, whose block has this cell.
pub fn missed(shape: &Shape, cells: &Cells, cell: usize, port: u8, request: &Request) -> Request1
    requires in_range { IsShape shape.now }
    requires port { port < shape.now.ports }
    requires tag { request.now.tag < shape.now.tags }
    requires cell { cell_of cells.now request.now.block ≡ Some cell }
    ensures tells { let missed : model.Missed = record {
      port = port;
      request = request.now;
      value =
          value_of (memory_at cells.now) request.now;
    } in
        IsTarget1 shape.now result missed }
    ensures position { result.position ≡ request.now.offset / 8 }
    ensures destination { result.destination ≡ destination shape.now port request.now.tag }
{
    let offset = request.offset();
    Request1 {
        position: offset / 8,
        destination: (u32::from(port) * shape.tags + u32::from(request.tag())) as u16,
        is_store: matches!(request.op(), Op::Store),
        bytes: Mask::of(u32::from(offset), u32::from(request.size())),
        value: cells.number_of(cell, request),
    }
}

/// The reply to the request that the target tells of.
pub fn reply_of(shape: &Shape, target: &Request1) -> Ready
    requires in_range { IsShape shape.now }
    requires told { IsSomeTarget shape.now target.now }
    ensures { (missed : model.Missed) → IsTarget1 shape.now target.now missed → result ≡ reply_to missed }
{
    let destination = u32::from(target.destination);
    let value = if target.is_store {
        Data::new()
    } else {
        first_bytes(target.value, target.bytes.0.count_ones() as usize)
    };
    let port = quotient(destination, shape.tags);
    let tag = remainder(destination, shape.tags);
    Ready::new(port as u8, tag as u8, value)
}

/// So many of the number's bytes, the lowest first.
fn first_bytes(number: u64, count: usize) -> Data
    ensures { result.items ≡ take count (to_le_bytes w64 number) }
{
    let mut data = Data::from(number.to_le_bytes());
    data.truncate(count);
    data
}
