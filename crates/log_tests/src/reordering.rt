//! The records of a bank by their numbers, while they come.

ghost use Rattle.std.specs.Prelude.{◌≡◌, IfOk};
ghost use Rattle.lf_rules.specs.Fits.{FitsRecord};
ghost use Rattle.lf_rules.specs.declared.event.Record.{Record};
ghost use Rattle.lf_codec.specs.Layout.{record_bytes};
ghost use Rattle.lf_logs.specs.Reordering.{CanKeep};
ghost use Rattle.log_tests.specs.Ordered.{IsInOrder};

use lf_codec::{Header, encode, fits_trace};
use lf_logs::{NumberFault, Reorder};
use lf_rules::{Block, Event, Op, Record};
use std::alloc::Global;
use std::test::Fail;
use trace_samples::{C1, record};
use trace_views::RecordView;

/// A load of block 0 at bank 0.
fn load(alloc: Global, tag: u8, number: u32) -> Result<Record, Fail>
    ensures { IfOk result (λ r. r.bank ≡ 0) }
{
    let text = format!(in alloc; "L {tag} 8@0")?;
    record(alloc, &C1, 0, 0, number, text.as_str())
}

/// Puts loads with these tags and numbers.
fn put(alloc: Global, order: &mut Reorder, loads: &[(u8, u32)]) -> Result<(), Fail>
    requires { order.old.bank ≡ 0 }
    ensures { order.new.bank ≡ 0 }
{
    for item in loads {
        let (tag, number) = *item;
        order.put(load(alloc, tag, number)?)?;
    }
    Ok(())
}

/// Whether these loads come out, and then none.
fn gives(alloc: Global, order: &mut Reorder, loads: &[(u8, u32)]) -> Result<bool, Fail>
    requires { order.old.bank ≡ 0 }
    ensures { order.new.bank ≡ 0 }
{
    for item in loads {
        let (tag, number) = *item;
        if order.next() != Some(load(alloc, tag, number)?) {
            return Ok(false);
        }
    }
    Ok(order.next().is_none())
}

/// Whether a load with this tag and number passes, where no record waits.
fn passes(alloc: Global, order: &mut Reorder, tag: u8, number: u32) -> Result<bool, Fail>
    requires { IsInOrder order.old }
    ensures bank { order.new.bank ≡ order.old.bank }
    ensures order { IsInOrder order.new }
{
    let item = load(alloc, tag, number)?;
    Ok(order.is_empty() && order.pass(&RecordView::of(&item)))
}

#[test]
fn records_come_out_by_number(rt: HostRuntime) -> Result<(), Fail> {
    let mut order = Reorder::new(rt.alloc(), 0);
    put(rt.alloc(), &mut order, &[(2, 2), (1, 1)])?;
    assert!(rt; !order.has_next());
    assert!(rt; gives(rt.alloc(), &mut order, &[])?);
    put(rt.alloc(), &mut order, &[(0, 0)])?;
    assert!(rt; gives(rt.alloc(), &mut order, &[(0, 0), (1, 1), (2, 2)])?);
    assert_eq!(rt; order.fault(), None);
    Ok(())
}

#[test]
fn records_in_their_turn_pass(rt: HostRuntime) -> Result<(), Fail> {
    let mut order = Reorder::new(rt.alloc(), 0);
    assert!(rt; !passes(rt.alloc(), &mut order, 1, 1)?);
    assert!(rt; passes(rt.alloc(), &mut order, 0, 0)?);
    Ok(())
}

/// How many records wait at once in the test of many.
const MANY: u32 = 3000;

/// A load of block 0 at bank 0, for which no memory is taken: the growths of the test of many are those of
/// the call alone.
fn made(number: u32) -> Record
    ensures { result.bank ≡ 0 }
{
    Record {
        log: 0,
        bank: 0,
        number,
        event: Event::Issue {
            op: Op::Load,
            tag: 0,
            size: 8,
            address: 0,
            bytes: Block::new(),
        },
    }
}

/// Whether this record is lent next.
fn gives_next(order: &Reorder, expected: &Record) -> bool {
    let mut place = RecordView::blank();
    order.lend_next(&mut place) && place.to_record() == *expected
}

#[test]
fn many_records_before_their_turn(rt: HostRuntime) -> Result<(), Fail> {
    let mut order = Reorder::new(rt.alloc(), 0);
    for number in (1..MANY).rev() {
        order.put(made(number))?;
    }
    assert!(rt; order.next().is_none());
    assert_eq!(rt; order.fault(), Some(NumberFault::Missing(0)));
    order.put(made(0))?;
    for number in 0..MANY {
        assert!(rt; gives_next(&order, &made(number)));
        order.drop_next();
    }
    assert!(rt; !gives_next(&order, &made(MANY)));
    Ok(())
}

/// The bytes that spell this record, where it is one of `C1`.
fn bytes_of(alloc: Global, item: &RecordView<'_>) -> Result<Vec<u8>, Fail>
    ensures spelled { IfOk result (λ v. v.items ≡ record_bytes item.now) }
    ensures fits { IfOk result (λ v. FitsRecord 1 1 8 1 item.now) }
{
    let header = Header {
        version: 3,
        ports: 1,
        banks: 1,
        block: 8,
        factor: 1,
        memory_count: 0,
    };
    let memory = Vec::new(alloc);
    let one = [item.to_record()];
    if !fits_trace(&header, &memory, &one) {
        return Err(Fail::from("not of this hierarchy"));
    }
    let trace = encode(alloc, &header, &memory, &one)?;
    let end = trace.len() - 8;
    Ok(Vec::from_slice(alloc, &trace[16..end])?)
}

/// Puts a record that is lent with its bytes.
fn put_bytes(alloc: Global, order: &mut Reorder, item: &Record) -> Result<(), Fail>
    requires bank { item.now.bank ≡ order.old.bank }
    requires sizes { (r : Record) → FitsRecord 1 1 8 1 r → CanKeep order.old.header r }
    ensures bank { order.new.bank ≡ order.old.bank }
    ensures header { order.new.header ≡ order.old.header }
{
    let view = RecordView::of(item);
    let bytes = bytes_of(alloc, &view)?;
    order.put_view(&view, bytes.as_slice())?;
    Ok(())
}

#[test]
fn records_kept_as_their_bytes(rt: HostRuntime) -> Result<(), Fail> {
    let mut order = Reorder::of_shape(rt.alloc(), &C1, 0);
    let store = record(rt.alloc(), &C1, 0, 0, 1, "S 3 2@6=aabb")?;
    put_bytes(rt.alloc(), &mut order, &store)?;
    put_bytes(rt.alloc(), &mut order, &made(0))?;
    for expected in [made(0), store] {
        assert!(rt; gives_next(&order, &expected));
        order.drop_next();
    }
    Ok(())
}
