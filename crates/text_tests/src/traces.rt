//! A trace that more than one test has, and its text.

/// A load that hits nothing yet: the header, one memory record, one event record and the end.
pub const TRACE: [u8; 56] = [
    0x4c, 0x46, 0x54, 0x53, 1, 0, 1, 1, 8, 0, 0, 0, 1, 0, 0, 0, 3, 0, 0, 0, 1, 2, 3, 4, 5, 6, 7, 8,
    1, 0, 0, 0, 0, 0, 0, 0, 0, 0, 8, 0, 0, 0, 0, 0, 0, 0, 0, 0, 0, 0, 0, 0, 1, 0, 0, 0,
];

/// What `dump` prints of it.
pub const TEXT: &str = "\
lfts version=1 ports=1 banks=1 block=8 factor=1 memory=1 ; at 0
memory block=3 bytes=0102030405060708 ; at 16
load port=0 bank=0 number=0 tag=0 size=8 address=0x0 ; at 28
end count=1 ; at 48
";
