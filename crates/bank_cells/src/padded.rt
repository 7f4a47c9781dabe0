//! The bytes of a block, with zeros behind them.

ghost use Rattle.std.specs.Prelude.{◌≡◌, ◌+◌, ◌≤◌, length, slice_index};
ghost use Rattle.bank_state.specs.Bytes.{put};

/// The bytes of a block, and zeros behind them.
pub type Bytes = [u8; 64];

/// A block that nothing wrote.
pub static ZEROS: Bytes = [0; 64];

/// The bytes with new ones from a place on.
pub fn put(bytes: &mut Bytes, offset: usize, new: &[u8])
    requires { offset + length new.now ≤ 64 }
    ensures { slice_index bytes.new ≡ put (slice_index bytes.old) offset new.now }
{
    bytes[offset..offset + new.len()].copy_from_slice(new);
}

/// The bytes, and zeros behind them.
pub fn padded(bytes: &[u8]) -> Bytes
    requires { length bytes.now ≤ 64 }
    ensures { slice_index result ≡ slice_index bytes.now }
{
    let mut all = ZEROS;
    put(&mut all, 0, bytes);
    all
}
