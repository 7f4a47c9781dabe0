//! A share of the parts of a trace, and the thread that judges it.

ghost use Rattle.std.specs.Prelude.{◌≡◌, ◌<◌};
ghost use Rattle.std.specs.Arc.{arc_value};
ghost use Rattle.std.specs.Thread.{IsSync};
ghost use Rattle.lf_verdict.specs.declared.session.share.Share.{Share};
ghost use Rattle.lf_verdict.specs.inner.Shares.{CanTake, Takes};
ghost use Rattle.lf_verdict.specs.inner.Workers.{IsShareOf, KeepsIfTaken, WorksOn};

use crate::session::promise::Judges;
use crate::session::share::Share;
use lf_codec::Packed;
use lf_pool::Gate;
use std::alloc::Global;
use std::sync::Arc;
use std::thread;
use std::thread::{PromisedHandle, Threads};

/// Records that are judged together, by threads that share them.
pub type Batch = Arc<Packed, Global>;

/// A share, or the thread that judges it.
#[derive(Drop)]
pub enum Worker {
    Idle(Share),
    Busy(PromisedHandle<Share, Judges>),
}

impl Worker {
    /// The share, once the thread is done.
    pub fn join<R: Threads>(self, rt: &R) -> Share
        ensures { IsShareOf self result }
    {
        match self {
            Worker::Idle(share) => share,
            Worker::Busy(thread) => thread.join(rt),
        }
    }

    /// Has the share judged on the batch in a thread, the banks in so many more. Where no thread can be made it is
    /// done at once.
    pub fn lend<R: Threads + Sync + Send + Copy + 'static, G: Gate + Sync + Send + Copy + 'static>(
        rt: &R,
        threads: usize,
        gate: G,
        promise: Judges,
        share: Share,
        batch: Batch,
    ) -> Worker
        requires threads { 0 < threads }
        requires can { CanTake (arc_value batch).records share }
        requires keeps { KeepsIfTaken promise (arc_value batch).records share }
        ensures { WorksOn promise result }
    {
        let own = *rt;
        let judge = move || -> Share
            requires { IsSync R.row × ((0 < threads) × CanTake (arc_value batch).records share) }
            ensures { Takes (arc_value batch).records share result }
        { share.after(&own, threads, &gate, &batch) };
        match thread::spawn_with(rt, promise, judge) {
            Ok(thread) => Worker::Busy(thread),
            Err(refused) => Worker::Idle((refused.value)()),
        }
    }
}
