//! What a thread promises that judges a share.

ghost use Rattle.std.specs.Prelude.{◌≡◌};
ghost use Rattle.lf_verdict.specs.inner.Shares.{IsShareAfter};

use crate::session::share::{Share, ShareKind};
use crate::session::standing::Standing;
use lf_codec::Packed;
use std::snapshot::Snapshot;
use std::thread::Promise;

/// The share of this kind, which stood so with the others, is given back once it was judged on the records.
#[derive(Drop)]
pub struct Judges {
    pub kind: ShareKind,
    pub standing: Snapshot<Standing>,
    pub records: Snapshot<Packed>,
}

impl Promise<Share> for Judges {
    ghost kept_by = { λ p share. IsShareAfter p.standing.value p.records.value.records p.kind share };
}

impl Judges {
    /// The promise to judge the share of this kind on the records.
    pub fn of(kind: ShareKind, standing: &Standing, records: &Packed) -> Judges
        ensures kind { result.kind ≡ kind }
        ensures standing { result.standing.value ≡ standing.now }
        ensures records { result.records.value ≡ records.now }
    {
        Judges {
            kind,
            standing: Snapshot::of(standing),
            records: Snapshot::of(records),
        }
    }
}
