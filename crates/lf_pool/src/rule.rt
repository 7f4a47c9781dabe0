//! The rule over the claim word and over what each seat knows, and the three kinds of step that keep
//! it: a seat for a further worker, a claim, and a worker that is taken in.

use atomic_table::{Join, Play, Shared, Split, Table, TableRule};
use std::alloc::Global;
use std::collections::LinkedList;

/// What a seat at the table knows. No value of it is made.
pub enum View {
    /// The pool's: how many workers have a seat, and the numbers that each worker that it took in had claimed.
    Keeper(u64, LinkedList<(u64, LinkedList<u64>)>),
    /// A worker's: its own number, and those that it claimed.
    Worker(u64, LinkedList<u64>),
    /// That of a seat that was taken in.
    Spent,
}

/// The key is the number of jobs.
pub struct Claiming;

impl TableRule<(), View, u64> for Claiming {
    ghost use Rattle.lf_pool.specs.Rule.{AreClaimed, new_keeper};

    ghost holds = { AreClaimed };

    ghost first = { λ _. new_keeper };
}

/// A claim of the next number.
pub struct Claim;

impl Play<(), View> for Claim {
    ghost use Rattle.lf_pool.specs.Rule.{Claims};

    ghost then = { Claims };
}

/// A seat for the next worker.
pub struct NextWorker;

impl Split<View> for NextWorker {
    ghost use Rattle.lf_pool.specs.Rule.{one_more, next_worker};

    ghost left = { one_more };

    ghost right = { next_worker };
}

/// The pool takes in a worker.
pub struct Takes;

impl Join<View> for Takes {
    ghost use Rattle.lf_pool.specs.declared.rule.View.TheVariants.{Spent};
    ghost use Rattle.lf_pool.specs.Rule.{with_worker};

    ghost both = { with_worker };

    ghost spent = { Spent };
}

pub type PoolTable = Table<(), View, u64, Claiming, Global>;

pub type PoolShared = Shared<(), View, u64, Claiming>;
