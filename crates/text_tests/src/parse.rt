//! Lines with what they say.

use lf_codec::Header;
use lf_rules::{Block, Event, Record};
use std::process::Abort;
use std::test::Fail;
use text_parse::{Defaults, Expected, Line, Name, TextFault, read_line};

fn assert_line<T: Abort>(rt: &T, text: &str, due: Line) -> Result<(), Fail> {
    assert!(rt; read_line(2, &Defaults::new(1), text.as_bytes()) == Ok(due));
    Ok(())
}

fn block(bytes: &[u8]) -> Block {
    let mut block = Block::new();
    let _ = block.try_extend_from_slice(bytes);
    block
}

#[test]
fn lines_beside_the_events(rt: HostRuntime) -> Result<(), Fail> {
    assert_line(&rt, " \t; a comment = 1", Line::Blank)?;
    let header = Header {
        version: 3,
        ports: 2,
        banks: 4,
        block: 8,
        factor: 2,
        memory_count: 1,
    };
    let text = "lfts version=3 ports=2 banks=4 block=8 factor=2 memory=1 ; at 0";
    assert_line(&rt, text, Line::Header(header))?;
    let memory = Line::Memory {
        block: 3,
        bytes: block(&[0, 0x1a, 0xff]),
    };
    assert_line(&rt, "\tmemory  block=3\tbytes=001Aff;\r", memory)
}

#[test]
fn numbers_left_out(rt: HostRuntime) -> Result<(), Fail> {
    let mut defaults = Defaults::new(1);
    let text = b"second_hit bank=1 block=5";
    let first = Line::Event(Record {
        log: 3,
        bank: 1,
        number: 7,
        event: Event::Fence,
    });
    defaults.pass(&first);
    let next = Line::Event(Record {
        log: 3,
        bank: 1,
        number: 8,
        event: Event::SecondHit { block: 5 },
    });
    assert!(rt; read_line(2, &defaults, text) == Ok(next));
    Ok(())
}

#[test]
fn fault_of_a_line(rt: HostRuntime) -> Result<(), Fail> {
    let fault = TextFault {
        column: 6,
        expected: Expected::Field(Name::Port),
    };
    let told = format!(in rt.alloc(); "{fault}")?;
    assert_eq!(rt; told.as_str(), "column=6 expected port=");
    assert!(rt; read_line(2, &Defaults::new(1), b"fence") == Err(fault));
    Ok(())
}
