//! Why there is no trace of a demonstration.

use lf_recorder::RecordFault;
use lf_rules::NoMemory;
use std::alloc::{AllocError, AllocFailed};
use thiserror::Error;

/// Why there is no trace of a demonstration.
#[derive(Clone, Copy, Debug, PartialEq, Eq, Error)]
pub enum DemoFault {
    /// A thread made as many turns as it may without an event, or its event was not one to record.
    #[error("a thread made too many turns without an event")]
    Turns,
    /// A growth was refused.
    #[error("out of memory")]
    Memory,
    /// A thread was refused.
    #[error("a thread could not be started")]
    Thread,
}

impl From<AllocError> for DemoFault {
    fn from(_: AllocError) -> DemoFault {
        DemoFault::Memory
    }
}

impl<T: Drop> From<AllocFailed<T>> for DemoFault {
    fn from(_: AllocFailed<T>) -> DemoFault {
        DemoFault::Memory
    }
}

impl From<NoMemory> for DemoFault {
    fn from(_: NoMemory) -> DemoFault {
        DemoFault::Memory
    }
}

impl From<RecordFault> for DemoFault {
    fn from(fault: RecordFault) -> DemoFault {
        match fault {
            RecordFault::NoMemory => DemoFault::Memory,
            _ => DemoFault::Turns,
        }
    }
}
