//! Texts with the traces that they give.

use crate::traces::TRACE;
use std::process::Abort;
use std::test::Fail;
use text_assemble::{Refusal, assemble};

fn assert_bytes<T: Abort + AllocGlobal>(rt: &T, text: &str, due: &[u8]) -> Result<(), Fail> {
    match assemble(rt.alloc(), text.as_bytes()) {
        Ok(bytes) => assert_eq!(rt; bytes.as_slice(), due),
        Err(_) => assert!(rt; false),
    }
    Ok(())
}

#[test]
fn trace_of_a_text(rt: HostRuntime) -> Result<(), Fail> {
    let text = "\
; written by hand
lfts version=1 ports=1 banks=1  block=8 factor=1\tmemory=1

memory block=3 bytes=0102030405060708
load port=0 bank=0 number=0 tag=0 size=8 address=0x0\r
end count=1";
    assert_bytes(&rt, text, &TRACE)
}

fn assert_refusal<T: Abort + AllocGlobal>(rt: &T, text: &str, due: &str) -> Result<(), Fail> {
    let text = text.as_bytes();
    match assemble(rt.alloc(), text) {
        Ok(_) => assert!(rt; false),
        Err(fault) => {
            let refusal = Refusal { fault, text };
            let told = format!(in rt.alloc(); "{refusal}")?;
            assert_eq!(rt; told.as_str(), due);
        }
    }
    Ok(())
}

#[test]
fn marked_line(rt: HostRuntime) -> Result<(), Fail> {
    let text =
        "lfts version=1 ports=1 banks=1 block=8 factor=1 memory=0\n\n\thit bank=0 prt=0 \u{e9}";
    let due = "\
text line=3 column=13 expected port=
3 |  hit bank=0 prt=0 ??
  |             ^ expected port=";
    assert_refusal(&rt, text, due)
}
