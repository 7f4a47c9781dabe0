//! The lines of records.

ghost use Rattle.std.specs.Prelude.{Some};
ghost use Rattle.std.specs.Option.{option_map};
ghost use Rattle.explain_lines.specs.Marks.{beside, besides};
ghost use Rattle.explain_lines.specs.Lines.{time_text, line_if, line_at, lines_text};

use crate::mark::{Mark, Marks};
use explain_history::{record_at, room};
use lf_codec::Packed;
use lf_rules::Record;
use std::fmt;
use text_print::{PlacedLine, TextLine};

/// The records of a trace, and what stands beside them.
#[derive(Clone, Copy)]
pub struct Listing<'a> {
    pub records: &'a Packed,
    pub marks: &'a Marks,
}

/// The time of a record behind its offset, where a map tells it.
#[derive(Clone, Copy)]
struct TimeText<'a>(Option<&'a str>);

impl fmt::Display for TimeText<'_> {
    ghost output = { λ text. Some (time_text (option_map (λ time. time.now) text.0)) };

    fn fmt<W: fmt::Write>(&self, f: &mut fmt::Formatter<W>) -> fmt::Result {
        match self.0 {
            Some(time) => write!(f, ", time {time}"),
            None => Ok(()),
        }
    }
}

/// The line of a record and its mark.
#[derive(Clone, Copy)]
struct MarkedLine<'a> {
    item: &'a Record,
    mark: Mark<'a>,
}

impl fmt::Display for MarkedLine<'_> {
    ghost output = { λ line. Some (line_if (Some line.item.now) (Some (beside line.mark))) };

    fn fmt<W: fmt::Write>(&self, f: &mut fmt::Formatter<W>) -> fmt::Result {
        let placed = PlacedLine {
            line: TextLine::Event(self.item),
            offset: self.mark.offset,
        };
        let time = TimeText(self.mark.time);
        write!(f, "{placed}{time}\n")
    }
}

/// The line of the record at a place, with its newline, where there is one.
#[derive(Clone, Copy)]
pub struct RecordLine<'a> {
    pub listing: Listing<'a>,
    pub place: Option<usize>,
}

impl fmt::Display for RecordLine<'_> {
    ghost output = { λ line. Some
        (line_at line.listing.records.now.records (besides line.listing.marks.now) line.place) };

    fn fmt<W: fmt::Write>(&self, f: &mut fmt::Formatter<W>) -> fmt::Result {
        let Some(place) = self.place else {
            return Ok(());
        };
        let mut room = room();
        let Some(item) = record_at(self.listing.records, self.place, &mut room) else {
            return Ok(());
        };
        let Some(mark) = self.listing.marks.mark(place) else {
            return Ok(());
        };
        let line = MarkedLine { item, mark };
        write!(f, "{line}")
    }
}

/// A line for each place.
#[derive(Clone, Copy)]
pub struct RecordLines<'a> {
    pub listing: Listing<'a>,
    pub places: &'a [usize],
}

impl fmt::Display for RecordLines<'_> {
    ghost output = { λ lines. Some
        (lines_text lines.listing.records.now.records (besides lines.listing.marks.now) lines.places.now) };

    fn fmt<W: fmt::Write>(&self, f: &mut fmt::Formatter<W>) -> fmt::Result {
        for place in self.places {
            let line = RecordLine {
                listing: self.listing,
                place: Some(*place),
            };
            write!(f, "{line}")?;
        }
        Ok(())
    }
}
