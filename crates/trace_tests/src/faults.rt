//! Traces that are refused, each with its cause and its place.

use crate::reading::assert_fault;
use lf_codec::{CodecCause, CodecFault, Told};
use trace_samples::FENCE_LAST;

#[test]
fn fence_faults(rt: HostRuntime) {
    for (place, byte, cause) in [
        (126usize, 0x00u8, CodecCause::BankRange),
        (128, 0x01, CodecCause::Reserved),
        (125, 0x01, CodecCause::LogKind),
        (4, 0x01, CodecCause::Kind),
    ] {
        let mut bytes = FENCE_LAST;
        bytes[place] = byte;
        assert_fault(&rt, rt.alloc(), &bytes, cause, 124);
    }
}

/// The load's block is the second of a second-level block of bank 0.
#[test]
fn bank_by_wide_block(rt: HostRuntime) {
    let trace = [
        0x4c, 0x46, 0x54, 0x53, 0x03, 0x00, 0x01, 0x02, 0x08, 0x00, 0x02, 0x00, 0x00, 0x00, 0x00,
        0x00, 0x01, 0x00, 0x01, 0x00, 0x00, 0x00, 0x00, 0x00, 0x00, 0x00, 0x08, 0x00, 0x08, 0x00,
        0x00, 0x00, 0x00, 0x00, 0x00, 0x00,
    ];
    assert_fault(&rt, rt.alloc(), &trace, CodecCause::WrongBank, 16);
}

/// A fault is the same however often it was told.
#[test]
fn fault_told_again(rt: HostRuntime) {
    let fault = CodecFault {
        cause: CodecCause::Truncated,
        offset: 16,
    };
    assert_eq!(rt; Told::Fault(fault).fault(), fault);
    assert_eq!(rt; Told::Failed(fault).fault(), fault);
}
