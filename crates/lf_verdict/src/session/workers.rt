//! The workers that judge a batch while the next one is read: one has the entries of the logs, the other one the banks.

ghost use Rattle.std.specs.Prelude.{◌≡◌, ◌<◌, [], IfOk};
ghost use Rattle.std.specs.Arc.{arc_value};
ghost use Rattle.lf_verdict.specs.inner.Shares.{MayFollow, IsJudged, StandsAfterNext};
ghost use Rattle.lf_verdict.specs.inner.Workers.{AreWorkers};

use crate::session::promise::Judges;
use crate::session::share::{Share, ShareKind, together};
use crate::session::standing::Standing;
use crate::session::worker::{Batch, Worker};
use lf_codec::Packed;
use lf_pool::Gate;
use lf_rules::NoMemory;
use std::alloc::Global;
use std::snapshot::Snapshot;
use std::sync::Arc;
use std::thread::Threads;

/// Two workers, each of which judges its share of the parts on the batch, and how the parts stood before.
/// It cannot be dropped: only `end` and `stop` do away with it, so no thread is left at work.
pub struct Workers {
    pub alloc: Global,
    pub standing: Snapshot<Standing>,
    pub batch: Batch,
    pub entries: Worker,
    pub banks: Worker,
}

impl Workers {
    /// Has the parts judged on the records, while the caller goes on. The banks are judged in so many threads.
    pub fn begin<R: Threads + Sync + Send + Copy + 'static, G: Gate + Sync + Send + Copy + 'static>(
        alloc: Global,
        rt: &R,
        threads: usize,
        gate: G,
        standing: Standing,
        records: Packed,
    ) -> Result<Workers, NoMemory>
        requires threads { 0 < threads }
        requires follow { MayFollow standing records.records }
        ensures standing { IfOk result (λ w. w.standing.value ≡ standing) }
        ensures records { IfOk result (λ w. (arc_value w.batch).records ≡ records.records) }
        ensures workers { IfOk result AreWorkers }
    {
        let before = Snapshot::of(&standing);
        let of_entries = Judges::of(ShareKind::Entries, &standing, &records);
        let of_banks = Judges::of(ShareKind::Banks, &standing, &records);
        let batch = Arc::new(alloc, records)?;
        let (for_entries, for_banks) = (Arc::try_clone(&batch)?, Arc::try_clone(&batch)?);
        let Standing {
            entries,
            banks,
            watch: _,
        } = standing;
        let entries = Share::Entries(entries, Ok(()));
        let entries = Worker::lend(rt, threads, gate, of_entries, entries, for_entries);
        let banks = Worker::lend(rt, threads, gate, of_banks, Share::Banks(banks), for_banks);
        Ok(Workers {
            alloc,
            standing: before,
            batch,
            entries,
            banks,
        })
    }

    /// Whether both are done: then no thread has the batch.
    pub fn are_done(&self) -> bool {
        Arc::strong_count(&self.batch) == 1
    }

    /// How the parts stand once both are done, and the room of the batch for other records.
    pub fn end<R: Threads>(self, rt: &R) -> Result<(Standing, Packed), NoMemory>
        requires workers { AreWorkers self }
        requires follow { MayFollow self.standing.value (arc_value self.batch).records }
        ensures none { IfOk result (λ r. r.1.records ≡ []) }
        ensures judged { IfOk result (λ r. StandsAfterNext self.standing.value (arc_value self.batch).records r.0) }
    {
        let Workers {
            alloc,
            standing: _,
            batch,
            entries,
            banks,
        } = self;
        let entries = entries.join(rt);
        let banks = banks.join(rt);
        let room = match Arc::try_unwrap(batch) {
            Ok(mut records) => {
                records.clear();
                records
            }
            Err(_) => Packed::new(alloc),
        };
        Ok((together(entries, banks)?, room))
    }

    /// Waits for both, and lets all go.
    pub fn stop<R: Threads>(self, rt: &R) {
        let Workers {
            alloc: _,
            standing: _,
            batch: _,
            entries,
            banks,
        } = self;
        drop(entries.join(rt));
        drop(banks.join(rt));
    }
}
