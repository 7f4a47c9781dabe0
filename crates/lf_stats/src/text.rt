//! The lines of statistics.

ghost use Rattle.std.specs.Prelude.{Some};
ghost use Rattle.lf_stats.specs.Text.{bank_text, bank_line, port_line, lines_from, stats_text};

use crate::counts::{BankStats, Stats};
use std::fmt;

impl fmt::Display for BankStats {
    ghost output = { λ counts. Some (bank_text counts) };

    fn fmt<W: fmt::Write>(&self, f: &mut fmt::Formatter<W>) -> fmt::Result {
        let BankStats {
            hits,
            primary,
            merges,
            stalls,
            peak,
        } = *self;
        write!(
            f,
            "hits={hits} primary={primary} merges={merges} stalls={stalls} peak={peak}"
        )
    }
}

/// A line for each bank.
#[derive(Clone, Copy)]
struct BankLines<'a>(&'a [BankStats]);

impl fmt::Display for BankLines<'_> {
    ghost output = { λ lines. Some (lines_from bank_line 0 lines.0.now) };

    fn fmt<W: fmt::Write>(&self, f: &mut fmt::Formatter<W>) -> fmt::Result {
        for (bank, counts) in self.0.iter().enumerate() {
            writeln!(f, "bank={bank} {counts}")?;
        }
        Ok(())
    }
}

/// A line for each port.
#[derive(Clone, Copy)]
struct PortLines<'a>(&'a [u32]);

impl fmt::Display for PortLines<'_> {
    ghost output = { λ lines. Some (lines_from port_line 0 lines.0.now) };

    fn fmt<W: fmt::Write>(&self, f: &mut fmt::Formatter<W>) -> fmt::Result {
        for (port, unanswered) in self.0.iter().enumerate() {
            writeln!(f, "port={port} unanswered={unanswered}")?;
        }
        Ok(())
    }
}

/// A line for each bank, then one for each port, each ended by a newline.
impl fmt::Display for Stats {
    ghost output = { λ stats. Some (stats_text stats) };

    fn fmt<W: fmt::Write>(&self, f: &mut fmt::Formatter<W>) -> fmt::Result {
        let banks = BankLines(self.banks.as_slice());
        let ports = PortLines(self.unanswered.as_slice());
        write!(f, "{banks}{ports}")
    }
}
