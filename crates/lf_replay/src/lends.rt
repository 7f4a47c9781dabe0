//! Records, and references to records that stand elsewhere.

ghost use Rattle.std.specs.Prelude.{◌≡◌};
ghost use Rattle.lf_rules.specs.declared.event.Record.{Record};

use lf_rules::Record;

/// A place that lends a record.
pub trait Lends {
    ghost lent: { Self → Record };

    fn lend(&self) -> &Record
        ensures { result.now ≡ lent self.now };
}

impl Lends for Record {
    ghost lent = { λ item. item };

    fn lend(&self) -> &Record {
        self
    }
}

impl Lends for &Record {
    ghost lent = { λ place. place.now };

    fn lend(&self) -> &Record {
        self
    }
}
