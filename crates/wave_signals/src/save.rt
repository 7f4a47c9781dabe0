//! The file of signals that GTKWave opens beside a wave.

ghost use Rattle.std.specs.Prelude.{◌≡◌, Some};
ghost use Rattle.wave_signals.specs.Save.{port_row, bank_row, title, tag_row, port_rows, bank_rows};
ghost use Rattle.wave_signals.specs.Save.{bank_request_rows, bank_register_rows, bank_traffic_rows, register_row};
ghost use Rattle.wave_signals.specs.Save.{level_rows, time_row, mark_rows, opens_at, picoseconds, marked_at, zoom};
ghost use Rattle.wave_signals.specs.Save.{opening, save_text};

use crate::each::{Each, EachByte, Numbered};
use crate::registers::Level;
use crate::view::{Marker, View};
use std::fmt;
use wave_order::Clock;

/// A signal of a port, and how its values are shown.
#[derive(Clone, Copy)]
struct PortRow {
    port: u8,
    flags: &'static str,
    name: &'static str,
}

impl fmt::Display for PortRow {
    ghost output = { λ r. Some (port_row r.port r.flags.now r.name.now) };

    fn fmt<W: fmt::Write>(&self, f: &mut fmt::Formatter<W>) -> fmt::Result {
        let PortRow { port, flags, name } = *self;
        write!(f, "@{flags}\nscore.port{port}.{name}\n")
    }
}

/// A signal of a bank.
#[derive(Clone, Copy)]
struct BankRow {
    bank: u8,
    flags: &'static str,
    name: &'static str,
}

impl fmt::Display for BankRow {
    ghost output = { λ r. Some (bank_row r.bank r.flags.now r.name.now) };

    fn fmt<W: fmt::Write>(&self, f: &mut fmt::Formatter<W>) -> fmt::Result {
        let BankRow { bank, flags, name } = *self;
        write!(f, "@{flags}\nscore.bank{bank}.{name}\n")
    }
}

/// A line of text above the signals of a port or a bank.
#[derive(Clone, Copy)]
struct Title {
    scope: &'static str,
    index: u8,
}

impl fmt::Display for Title {
    ghost output = { λ t. Some (title t.scope.now t.index) };

    fn fmt<W: fmt::Write>(&self, f: &mut fmt::Formatter<W>) -> fmt::Result {
        let Title { scope, index } = *self;
        write!(f, "@200\n-{scope} {index}\n")
    }
}

/// A tag of a port.
#[derive(Clone, Copy)]
struct TagRow {
    port: u8,
    tag: u16,
}

impl fmt::Display for TagRow {
    ghost output = { λ r. Some (tag_row r.port r.tag) };

    fn fmt<W: fmt::Write>(&self, f: &mut fmt::Formatter<W>) -> fmt::Result {
        let TagRow { port, tag } = *self;
        write!(f, "@28\nscore.port{port}.busy{tag}\n")
    }
}

impl Numbered<u16> for TagRow {
    ghost text_at = { λ p. tag_row p.port };

    fn at(self, tag: u16) -> Self {
        TagRow { tag, ..self }
    }
}

/// The signals of a port.
#[derive(Clone, Copy)]
struct PortRows {
    tags: u16,
    port: u8,
}

impl fmt::Display for PortRows {
    ghost output = { λ r. Some (port_rows r.tags r.port) };

    fn fmt<W: fmt::Write>(&self, f: &mut fmt::Formatter<W>) -> fmt::Result {
        let PortRows { tags, port } = *self;
        let title = Title {
            scope: "port",
            index: port,
        };
        let event = PortRow {
            port,
            flags: "820",
            name: "event",
        };
        let tag = PortRow {
            port,
            flags: "24",
            name: "tag[7:0]",
        };
        let address = PortRow {
            port,
            flags: "22",
            name: "address[63:0]",
        };
        let outstanding = PortRow {
            port,
            flags: "24",
            name: "outstanding[15:0]",
        };
        let busy = Each {
            part: TagRow { port, tag: 0 },
            count: tags,
        };
        write!(f, "{title}{event}{tag}{address}{outstanding}{busy}")
    }
}

impl Numbered<u8> for PortRows {
    ghost text_at = { λ p. port_rows p.tags };

    fn at(self, port: u8) -> Self {
        PortRows { port, ..self }
    }
}

/// The signals of a bank.
#[derive(Clone, Copy)]
struct BankRows<'a> {
    view: &'a View,
    bank: u8,
}

impl fmt::Display for BankRows<'_> {
    ghost output = { λ r. Some (bank_rows r.view.now r.bank) };

    fn fmt<W: fmt::Write>(&self, f: &mut fmt::Formatter<W>) -> fmt::Result {
        let BankRows { view, bank } = *self;
        let title = Title {
            scope: "bank",
            index: bank,
        };
        let event = BankRow {
            bank,
            flags: "820",
            name: "event",
        };
        let number = BankRow {
            bank,
            flags: "24",
            name: "number[31:0]",
        };
        let block = BankRow {
            bank,
            flags: "24",
            name: "block[31:0]",
        };
        let request = BankRequestRows { bank };
        let held = BankRegisterRows { bank };
        let counts = BankTrafficRows { bank };
        let registers = LevelRows { view, bank };
        write!(
            f,
            "{title}{event}{number}{block}{request}{held}{counts}{registers}"
        )
    }
}

impl Numbered<u8> for BankRows<'_> {
    ghost text_at = { λ p. bank_rows p.view.now };

    fn at(self, bank: u8) -> Self {
        BankRows { bank, ..self }
    }
}

/// Those that name a request and its register.
#[derive(Clone, Copy)]
struct BankRequestRows {
    bank: u8,
}

impl fmt::Display for BankRequestRows {
    ghost output = { λ r. Some (bank_request_rows r.bank) };

    fn fmt<W: fmt::Write>(&self, f: &mut fmt::Formatter<W>) -> fmt::Result {
        let bank = self.bank;
        let port = BankRow {
            bank,
            flags: "24",
            name: "port[7:0]",
        };
        let tag = BankRow {
            bank,
            flags: "24",
            name: "tag[7:0]",
        };
        let register = BankRow {
            bank,
            flags: "24",
            name: "register[15:0]",
        };
        write!(f, "{port}{tag}{register}")
    }
}

/// Those that say how many registers are held.
#[derive(Clone, Copy)]
struct BankRegisterRows {
    bank: u8,
}

impl fmt::Display for BankRegisterRows {
    ghost output = { λ r. Some (bank_register_rows r.bank) };

    fn fmt<W: fmt::Write>(&self, f: &mut fmt::Formatter<W>) -> fmt::Result {
        let bank = self.bank;
        let level1 = BankRow {
            bank,
            flags: "24",
            name: "level1_registers[15:0]",
        };
        let level2 = BankRow {
            bank,
            flags: "24",
            name: "level2_registers[15:0]",
        };
        write!(f, "{level1}{level2}")
    }
}

/// Those that say how many blocks go between the levels, and how many lines are dirty.
#[derive(Clone, Copy)]
struct BankTrafficRows {
    bank: u8,
}

impl fmt::Display for BankTrafficRows {
    ghost output = { λ r. Some (bank_traffic_rows r.bank) };

    fn fmt<W: fmt::Write>(&self, f: &mut fmt::Formatter<W>) -> fmt::Result {
        let bank = self.bank;
        let asked = BankRow {
            bank,
            flags: "24",
            name: "asked[15:0]",
        };
        let supplied = BankRow {
            bank,
            flags: "24",
            name: "supplied[15:0]",
        };
        let level1 = BankRow {
            bank,
            flags: "24",
            name: "level1_dirty[31:0]",
        };
        let level2 = BankRow {
            bank,
            flags: "24",
            name: "level2_dirty[31:0]",
        };
        write!(f, "{asked}{supplied}{level1}{level2}")
    }
}

/// The block that a register holds, and how many targets wait in it.
#[derive(Clone, Copy)]
struct RegisterRow {
    level: Level,
    bank: u8,
    register: u16,
}

impl fmt::Display for RegisterRow {
    ghost output = { λ r. Some (register_row r.level r.bank r.register) };

    fn fmt<W: fmt::Write>(&self, f: &mut fmt::Formatter<W>) -> fmt::Result {
        let RegisterRow {
            level,
            bank,
            register,
        } = *self;
        write!(
            f,
            "@24\nscore.bank{bank}.{level}_register{register}[31:0]\n"
        )?;
        write!(f, "@24\nscore.bank{bank}.{level}_targets{register}[15:0]\n")
    }
}

impl Numbered<u16> for RegisterRow {
    ghost text_at = { λ p. register_row p.level p.bank };

    fn at(self, register: u16) -> Self {
        RegisterRow { register, ..self }
    }
}

/// Those of both levels.
#[derive(Clone, Copy)]
struct LevelRows<'a> {
    view: &'a View,
    bank: u8,
}

impl fmt::Display for LevelRows<'_> {
    ghost output = { λ r. Some (level_rows r.view.now r.bank) };

    fn fmt<W: fmt::Write>(&self, f: &mut fmt::Formatter<W>) -> fmt::Result {
        let LevelRows { view, bank } = *self;
        let level1 = RegisterRow {
            level: Level::One,
            bank,
            register: 0,
        };
        let level1 = Each {
            part: level1,
            count: view.level1_registers,
        };
        let level2 = RegisterRow {
            level: Level::Two,
            bank,
            register: 0,
        };
        let level2 = Each {
            part: level2,
            count: view.level2_registers,
        };
        write!(f, "{level1}{level2}")
    }
}

/// The signals of the marks.
#[derive(Clone, Copy)]
struct MarkRows;

impl fmt::Display for MarkRows {
    ghost output = { λ _. Some mark_rows };

    fn fmt<W: fmt::Write>(&self, f: &mut fmt::Formatter<W>) -> fmt::Result {
        write!(
            f,
            "@28\nscore.fault\n@820\nscore.rule\n@28\nscore.first_fault\n@820\nscore.first_rule\n"
        )
    }
}

/// The place of the first record on the screen: a few before the one that the verdict names.
fn opens_at(view: &View) -> u64
    ensures { result ≡ opens_at view.now }
{
    match view.marker {
        Some(Marker { place, .. }) => place.saturating_sub(6).max(view.from),
        None => view.from,
    }
}

/// Where a place is on the axis, in picoseconds.
#[derive(Clone, Copy)]
struct Picoseconds<'a> {
    times: &'a Option<Clock>,
    place: u64,
}

impl fmt::Display for Picoseconds<'_> {
    ghost output = { λ p. Some (picoseconds p.times.now p.place) };

    fn fmt<W: fmt::Write>(&self, f: &mut fmt::Formatter<W>) -> fmt::Result {
        let Picoseconds { times, place } = *self;
        let Some(clock) = times else {
            return write!(f, "{place}000");
        };
        let at = clock.at(place);
        write!(f, "{at}")
    }
}

/// Where a mark is, or that there is none.
#[derive(Clone, Copy)]
struct MarkedAt<'a> {
    times: &'a Option<Clock>,
    marker: Option<Marker>,
}

impl fmt::Display for MarkedAt<'_> {
    ghost output = { λ m. Some (marked_at m.times.now m.marker) };

    fn fmt<W: fmt::Write>(&self, f: &mut fmt::Formatter<W>) -> fmt::Result {
        let Some(Marker { place, .. }) = self.marker else {
            return write!(f, "-1");
        };
        let at = Picoseconds {
            times: self.times,
            place,
        };
        write!(f, "{at}")
    }
}

/// How much GTKWave shows at once.
#[derive(Clone, Copy)]
struct Zoom<'a> {
    times: &'a Option<Clock>,
}

impl fmt::Display for Zoom<'_> {
    ghost output = { λ z. Some (zoom z.times.now) };

    fn fmt<W: fmt::Write>(&self, f: &mut fmt::Formatter<W>) -> fmt::Result {
        let Some(clock) = self.times else {
            return write!(f, "10");
        };
        let zoom = clock.zoom();
        write!(f, "{zoom}")
    }
}

/// Where GTKWave begins, how much it shows, and its markers.
#[derive(Clone, Copy)]
struct Opening<'a> {
    times: &'a Option<Clock>,
    view: &'a View,
}

impl fmt::Display for Opening<'_> {
    ghost output = { λ o. Some (opening o.times.now o.view.now) };

    fn fmt<W: fmt::Write>(&self, f: &mut fmt::Formatter<W>) -> fmt::Result {
        let Opening { times, view } = *self;
        let opens = Picoseconds {
            times,
            place: opens_at(view),
        };
        let zoom = Zoom { times };
        let marked = MarkedAt {
            times,
            marker: view.marker,
        };
        let first = MarkedAt {
            times,
            marker: view.first,
        };
        write!(
            f,
            "[timestart] {opens}\n[size] 1600 900\n*-{zoom}.5 {marked} {first}\n"
        )
    }
}

/// The signal of the times, where the wave has it.
#[derive(Clone, Copy)]
struct TimeRow<'a> {
    times: &'a Option<Clock>,
}

impl fmt::Display for TimeRow<'_> {
    ghost output = { λ r. Some (time_row r.times.now) };

    fn fmt<W: fmt::Write>(&self, f: &mut fmt::Formatter<W>) -> fmt::Result {
        let Some(_) = self.times else {
            return Ok(());
        };
        write!(f, "@820\nscore.time\n")
    }
}

/// The file of signals for the wave of a trace with so many ports and banks: where GTKWave begins, its
/// marker, and the signals that it shows.
#[derive(Clone, Copy)]
pub struct SaveFile<'a> {
    /// The times of the records, where the wave has them.
    pub times: &'a Option<Clock>,
    pub view: &'a View,
    pub ports: u8,
    pub banks: u8,
}

impl fmt::Display for SaveFile<'_> {
    ghost output = { λ s. Some (save_text s.times.now s.view.now s.ports s.banks) };

    fn fmt<W: fmt::Write>(&self, f: &mut fmt::Formatter<W>) -> fmt::Result {
        let SaveFile {
            times,
            view,
            ports,
            banks,
        } = *self;
        let opening = Opening { times, view };
        let time = TimeRow { times };
        let marks = MarkRows;
        let ports = EachByte {
            part: PortRows {
                tags: view.tags,
                port: 0,
            },
            count: ports,
        };
        let banks = EachByte {
            part: BankRows { view, bank: 0 },
            count: banks,
        };
        write!(
            f,
            "{opening}[signals_width] 210\n{time}{marks}{ports}{banks}"
        )
    }
}
