//! The rule over the banks' words and over what each seat knows, and the four kinds of step that keep
//! it: a draw of a number, a fence, a seat for a further log, and a log that is taken in.

use atomic_table::{Join, Play, Shared, Split, Table, TableRule};
use lf_rules::Record;
use std::alloc::Global;
use std::collections::LinkedList;
use std::marker::{Brand, PhantomData};

/// What a seat at the table knows. No value of it is made.
pub enum View {
    /// The desk's: how many logs have a seat, and the logs that it took in, each with its records.
    Collector(u64, LinkedList<(u8, LinkedList<Record>)>),
    /// A log's: its number and its records.
    Log(u8, LinkedList<Record>),
    /// That of a seat that was joined.
    Spent,
}

/// The key is the number of banks.
pub struct Numbering;

impl TableRule<(), View, u64> for Numbering {
    ghost use Rattle.lf_recorder.specs.Rule.{HasRecords, new_collector};

    ghost holds = { HasRecords };

    ghost first = { λ _. new_collector };
}

/// The event that a draw records.
pub trait Noted {
    ghost use Rattle.lf_rules.specs.declared.event.Event.{Event};

    ghost event: { Event };
}

impl Noted for Brand {
    ghost use Rattle.lf_rules.specs.declared.event.Event.TheVariants.{Hit};

    ghost event = { Hit 0 0 };
}

/// A draw of a number, which records N's event.
pub struct Draw<N> {
    noted: PhantomData<N>,
}

impl<N: Noted> Play<(), View> for Draw<N> {
    ghost use Rattle.lf_recorder.specs.Rule.{Draws};

    ghost then = { Draws N.event };
}

/// The record of a fence, for which no number is drawn.
pub struct Pass;

impl Play<(), View> for Pass {
    ghost use Rattle.lf_recorder.specs.Rule.{Passes};

    ghost then = { Passes };
}

/// A seat for the next log.
pub struct NextLog;

impl Split<View> for NextLog {
    ghost use Rattle.lf_recorder.specs.Rule.{one_more, next_log};

    ghost left = { one_more };

    ghost right = { next_log };
}

/// The desk takes in a log.
pub struct Takes;

impl Join<View> for Takes {
    ghost use Rattle.lf_recorder.specs.declared.rule.View.TheVariants.{Spent};
    ghost use Rattle.lf_recorder.specs.Rule.{with_log};

    ghost both = { with_log };

    ghost spent = { Spent };
}

pub type DeskTable = Table<(), View, u64, Numbering, Global>;

pub type DeskShared = Shared<(), View, u64, Numbering>;
