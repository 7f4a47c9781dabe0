//! Streams that are read piece by piece, and bytes that are written whole.

ghost use Rattle.std.specs.Prelude.{◌≡◌, ◌≤◌, ◌<◌, ◌≢◌};

use crate::streams::Pieces;
use run_stream::{Counted, Sink, gather, put, zeros};
use std::alloc::AllocError;
use std::process::Abort;
use std::test::Fail;

/// Keeps what it is fed, until that is so many bytes.
#[derive(Drop)]
struct Jar {
    kept: Vec<u8>,
    room: usize,
}

impl Sink for Jar {
    type Setting = usize;

    type Fault = AllocError;

    ghost use Rattle.std.specs.Prelude.{◌≡◌, ◌≤◌, length};

    ghost setting = { λ jar. jar.room };

    ghost fed = { λ jar bytes. jar.kept.items ≡ bytes };

    ghost has_enough = { λ room bytes. room ≤ length bytes };

    fn feed(&mut self, piece: &[u8]) -> Result<bool, AllocError> {
        self.kept.extend_from_slice(piece)?;
        Ok(self.kept.len() >= self.room)
    }
}

/// Ten bytes, three at a time.
fn ten<'a>() -> Pieces<'a> {
    Pieces::new(b"0123456789", 3)
}

/// Fails where a jar with so much room keeps other bytes, or after another number of reads.
fn assert_gathered<T: Abort + AllocGlobal>(
    rt: &T,
    room: usize,
    kept: &[u8],
    reads: u64,
) -> Result<(), Fail>
    requires { 0 < room }
{
    let mut reader = Counted::new(ten());
    let mut buffer = zeros(rt.alloc(), 4)?;
    let mut jar = Jar {
        kept: Vec::new(rt.alloc()),
        room,
    };
    let end = gather(&mut reader, buffer.as_mut_slice(), &mut jar, 100);
    assert!(rt; end.is_ok());
    assert_eq!(rt; jar.kept.as_slice(), kept);
    assert_eq!(rt; reader.calls(), reads);
    Ok(())
}

/// What came with the last read is fed too.
#[test]
fn gathered_until_it_is_enough(rt: HostRuntime) -> Result<(), Fail> {
    assert_gathered(&rt, 4, b"012345", 2)
}

#[test]
fn put_whole(rt: HostRuntime) -> Result<(), Fail> {
    let mut writer = Counted::new(Vec::new(rt.alloc()));
    assert_eq!(rt; put(&mut writer, b"0123456789"), Ok(()));
    assert_eq!(rt; writer.inner().as_slice(), b"0123456789".as_slice());
    Ok(())
}
