//! Words of 64 bits, one bit for each register or place.

ghost use Rattle.std.specs.Prelude.{◌≡◌, ◌<◌, ◌≤◌, ◌-◌, ◌*◌, ◌==◌, ◌&&◌, ◌||◌, not, true, false, length, ℕ};
ghost use Rattle.std.specs.Prelude.{slice_index};
ghost use Rattle.lf_rules.specs.Address.{is_under};
ghost use Rattle.lf_mshr.specs.Places.{is_marked};

/// Whether the bit is set.
pub fn is_marked(words: &[u64], bit: u16) -> bool
    requires { bit < 64 * length words.now }
    ensures { result ≡ is_marked words.now bit }
{
    words[usize::from(bit / 64)] >> (bit % 64) & 1 == 1
}

/// Sets the bit.
pub fn mark(words: &mut [u64], bit: u16)
    requires { bit < 64 * length words.old }
    ensures long { length words.new ≡ length words.old }
    ensures bits { (b : ℕ) → is_marked words.new b ≡ (b == bit || is_marked words.old b) }
{
    words[usize::from(bit / 64)] |= 1 << (bit % 64);
}

/// Clears the bit.
pub fn unmark(words: &mut [u64], bit: u16)
    requires { bit < 64 * length words.old }
    ensures long { length words.new ≡ length words.old }
    ensures bits { (b : ℕ) → is_marked words.new b ≡ (not (b == bit) && is_marked words.old b) }
{
    words[usize::from(bit / 64)] &= !(1 << (bit % 64));
}

/// Whether the bit of one word is set.
pub fn has_bit(word: u64, bit: u32) -> bool
    requires { bit < 64 }
    ensures { result ≡ is_under word bit }
{
    word >> bit & 1 == 1
}

/// How many bits there are up to the last that is set.
pub fn reach(word: u64) -> u32
    ensures few { result ≤ 64 }
    ensures last { 0 < result → is_under word (result - 1) ≡ true }
    ensures behind { (bit : ℕ) → result ≤ bit → is_under word bit ≡ false }
{
    64 - word.leading_zeros()
}

/// A bit for each block that is this one, the lowest for the first. Each is looked at, since a search that ends at
/// the first has a branch that the processor often predicts wrongly.
pub fn marks_of(blocks: &[u32], block: u32) -> u64
    requires { length blocks.now ≤ 64 }
    ensures { (at : ℕ) → at < length blocks.now → is_under result at ≡ (slice_index blocks.now at == block) }
{
    let mut marks = 0;
    for at in 0..blocks.len() {
        if blocks[at] == block {
            marks |= 1 << at;
        }
    }
    marks
}
