//! Lines of a trace, with their texts written out. Those beside the events stand in the text of a whole trace.

use lf_rules::{Block, Event, Op, Record};
use std::test::Fail;
use text_print::{PlacedLine, TextLine};

#[test]
fn line_with_its_place(rt: HostRuntime) -> Result<(), Fail> {
    let mut bytes = Block::new();
    bytes.push(0x0a);
    let store = Event::Issue {
        op: Op::Store,
        tag: 1,
        size: 1,
        address: 0x1f,
        bytes,
    };
    let item = Record {
        log: 1,
        bank: 0,
        number: 7,
        event: store,
    };
    let placed = PlacedLine {
        line: TextLine::Event(&item),
        offset: 16,
    };
    let text = format!(in rt.alloc(); "{placed}")?;
    let due = "store port=1 bank=0 number=7 tag=1 size=1 address=0x1f bytes=0a ; at 16";
    assert_eq!(rt; text.as_str(), due);
    Ok(())
}
