//! The masks of a second-level block where they stand.

ghost use Rattle.std.specs.Prelude.{◌≡◌, ◌/◌, ◌≤◌, length, slice_index_or};
ghost use Rattle.lf_rules.specs.Address.{clean_mask, mask_at};
ghost use Rattle.trace_views.specs.Views.{masks_of, spelled_masks};

use lf_rules::{Mask, Masks};

/// How many bytes spell a mask.
const MASK_BYTES: usize = 8;

/// The masks of a second-level block: one for each of its first-level blocks.
#[derive(Clone, Copy, Drop)]
pub enum MasksView<'a> {
    /// They are kept as masks.
    Kept(&'a [Mask]),
    /// They are spelled: eight bytes for each, the lowest first.
    Spelled(&'a [u8]),
}

/// The mask at a place of those that are kept, and that of no bytes where there is none.
fn kept_mask(masks: &[Mask], place: usize) -> Mask
    ensures { result ≡ slice_index_or masks.now place clean_mask }
{
    match masks.get(place) {
        Some(mask) => *mask,
        None => Mask(0),
    }
}

/// The mask at a place of those that the bytes spell, and that of no bytes where there is none.
fn spelled_mask(bytes: &[u8], place: usize) -> Mask
    ensures { result ≡ slice_index_or (spelled_masks (length bytes.now / 8) bytes.now) place clean_mask }
{
    if place >= bytes.len() / MASK_BYTES {
        return Mask(0);
    }
    let at = MASK_BYTES * place;
    let mut word = [0; MASK_BYTES];
    word.copy_from_slice(&bytes[at..at + MASK_BYTES]);
    Mask(u64::from_le_bytes(word))
}

impl<'a> MasksView<'a> {
    /// Lends masks that are kept.
    pub fn of(masks: &'a Masks) -> MasksView<'a>
        ensures same { masks_of result ≡ masks.now }
        ensures few { length (masks_of result).items ≤ 4 }
    {
        MasksView::Kept(masks.as_slice())
    }

    /// How many there are.
    pub fn len(&self) -> usize
        ensures { result ≡ length (masks_of self.now).items }
    {
        match self {
            MasksView::Kept(masks) => masks.len(),
            MasksView::Spelled(bytes) => bytes.len() / MASK_BYTES,
        }
    }

    /// The mask at a place, and that of no bytes where there is none.
    pub fn get(&self, place: usize) -> Mask
        ensures { result.0 ≡ mask_at (masks_of self.now) place }
    {
        match self {
            MasksView::Kept(masks) => kept_mask(masks, place),
            MasksView::Spelled(bytes) => spelled_mask(bytes, place),
        }
    }

    /// A copy of them.
    pub fn to_masks(&self) -> Masks
        requires { length (masks_of self.now).items ≤ 4 }
        ensures { result ≡ masks_of self.now }
    {
        let mut masks = Masks::new();
        for place in 0..self.len() {
            masks.push(self.get(place));
        }
        masks
    }
}
