//! A place that each worker passes before each job.

/// What a worker calls after it claimed a job and before it does it.
pub trait Gate {
    /// `job` is the number that was claimed.
    fn enter(&self, job: u32);
}

impl<G: Gate> Gate for &G {
    fn enter(&self, job: u32) {
        (**self).enter(job);
    }
}

/// Returns at once.
#[derive(Clone, Copy)]
pub struct NoGate;

impl Gate for NoGate {
    fn enter(&self, _job: u32) {}
}
