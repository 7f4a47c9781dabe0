//! Records that are kept in the form of their bytes.

ghost use Rattle.std.specs.Prelude.{◌≡◌, ◌++◌, ◌∷◌, [], IfOk, OnOk};

use lf_codec::Packed;
use lf_rules::{NoMemory, Record};
use std::alloc::Global;
use trace_views::RecordView;

/// Packs a copy of the record behind the others.
fn pack(packed: &mut Packed, item: &Record) -> Result<(), NoMemory>
    ensures { OnOk result (packed.new.records ≡ packed.old.records ++ item.now ∷ []) }
{
    packed.push(RecordView::of(item).to_record())?;
    Ok(())
}

/// Copies of the records, packed.
pub fn packed(alloc: Global, records: &[Record]) -> Result<Packed, NoMemory>
    ensures { IfOk result (λ packed. packed.records ≡ records.now) }
{
    let mut packed = Packed::new(alloc);
    for item in records {
        pack(&mut packed, item)?;
    }
    Ok(packed)
}
