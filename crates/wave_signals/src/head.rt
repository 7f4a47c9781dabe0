//! The head of a wave: its scopes, its signals, and their first values.

ghost use Rattle.std.specs.Prelude.{◌≡◌, Some};
ghost use Rattle.wave_signals.specs.Head.{scope_begin, scope_end, port_values, port_scope, bank_values, bank_scope};
ghost use Rattle.wave_signals.specs.Head.{register_values, traffic_values, tag_variable, held_variable};
ghost use Rattle.wave_signals.specs.Head.{targets_variable, register_variable, time_variable, mark_values, scopes};
ghost use Rattle.wave_signals.specs.Head.{tag_start, port_start, no_counts, bank_start, time_start, mark_start};
ghost use Rattle.wave_signals.specs.Head.{start_time, start, timescale, head_text};

use crate::change::{BitChange, FreeChange, NumberChange, TextChange};
use crate::each::{Each, EachByte, Numbered};
use crate::moment::{Marked, Time};
use crate::registers::Level;
use crate::signal::{Named, Signal};
use crate::traffic_changes::AllCounts;
use crate::variable::{NumberVariable, TextVariable};
use crate::view::{Marker, View};
use std::fmt;
use wave_traffic::Counts;

/// The line at which a scope begins.
#[derive(Clone, Copy)]
struct ScopeBegin {
    kind: &'static str,
    index: u8,
}

impl fmt::Display for ScopeBegin {
    ghost output = { λ s. Some (scope_begin s.kind.now s.index) };

    fn fmt<W: fmt::Write>(&self, f: &mut fmt::Formatter<W>) -> fmt::Result {
        let ScopeBegin { kind, index } = *self;
        write!(f, "$scope module {kind}{index} $end\n")
    }
}

/// The line at which one ends.
#[derive(Clone, Copy)]
struct ScopeEnd;

impl fmt::Display for ScopeEnd {
    ghost output = { λ _. Some scope_end };

    fn fmt<W: fmt::Write>(&self, f: &mut fmt::Formatter<W>) -> fmt::Result {
        write!(f, "$upscope $end\n")
    }
}

/// The line of a tag's signal.
#[derive(Clone, Copy)]
struct TagVariable {
    port: u8,
    tag: u16,
}

impl fmt::Display for TagVariable {
    ghost output = { λ v. Some (tag_variable v.port v.tag) };

    fn fmt<W: fmt::Write>(&self, f: &mut fmt::Formatter<W>) -> fmt::Result {
        let TagVariable { port, tag } = *self;
        let signal = Signal::Busy { port, tag };
        write!(f, "$var wire 1 {signal} busy{tag} $end\n")
    }
}

impl Numbered<u16> for TagVariable {
    ghost text_at = { λ p. tag_variable p.port };

    fn at(self, tag: u16) -> Self {
        TagVariable { tag, ..self }
    }
}

/// The lines of the other signals of a port.
#[derive(Clone, Copy)]
struct PortValues {
    port: u8,
}

impl fmt::Display for PortValues {
    ghost output = { λ v. Some (port_values v.port) };

    fn fmt<W: fmt::Write>(&self, f: &mut fmt::Formatter<W>) -> fmt::Result {
        let port = self.port;
        let event = TextVariable {
            signal: Signal::PortEvent { port },
            name: "event",
        };
        let tag = NumberVariable {
            width: 8,
            signal: Signal::PortTag { port },
            name: "tag [7:0]",
        };
        let address = NumberVariable {
            width: 64,
            signal: Signal::Address { port },
            name: "address [63:0]",
        };
        let outstanding = NumberVariable {
            width: 16,
            signal: Signal::Outstanding { port },
            name: "outstanding [15:0]",
        };
        write!(f, "{event}{tag}{address}{outstanding}")
    }
}

/// The scope of a port.
#[derive(Clone, Copy)]
struct PortScope {
    tags: u16,
    port: u8,
}

impl fmt::Display for PortScope {
    ghost output = { λ s. Some (port_scope s.tags s.port) };

    fn fmt<W: fmt::Write>(&self, f: &mut fmt::Formatter<W>) -> fmt::Result {
        let PortScope { tags, port } = *self;
        let begin = ScopeBegin {
            kind: "port",
            index: port,
        };
        let values = PortValues { port };
        let busy = Each {
            part: TagVariable { port, tag: 0 },
            count: tags,
        };
        let end = ScopeEnd;
        write!(f, "{begin}{values}{busy}{end}")
    }
}

impl Numbered<u8> for PortScope {
    ghost text_at = { λ p. port_scope p.tags };

    fn at(self, port: u8) -> Self {
        PortScope { port, ..self }
    }
}

/// The lines of a bank's signals.
#[derive(Clone, Copy)]
struct BankValues {
    bank: u8,
}

impl fmt::Display for BankValues {
    ghost output = { λ v. Some (bank_values v.bank) };

    fn fmt<W: fmt::Write>(&self, f: &mut fmt::Formatter<W>) -> fmt::Result {
        let bank = self.bank;
        let event = TextVariable {
            signal: Signal::BankEvent { bank },
            name: "event",
        };
        let number = NumberVariable {
            width: 32,
            signal: Signal::Number { bank },
            name: "number [31:0]",
        };
        let port = NumberVariable {
            width: 8,
            signal: Signal::Requester { bank },
            name: "port [7:0]",
        };
        let tag = NumberVariable {
            width: 8,
            signal: Signal::BankTag { bank },
            name: "tag [7:0]",
        };
        let block = NumberVariable {
            width: 32,
            signal: Signal::Block { bank },
            name: "block [31:0]",
        };
        let register = NumberVariable {
            width: 16,
            signal: Signal::Register { bank },
            name: "register [15:0]",
        };
        write!(f, "{event}{number}{port}{tag}{block}{register}")
    }
}

/// The lines of the signals that say how many registers are held.
#[derive(Clone, Copy)]
struct RegisterValues {
    bank: u8,
}

impl fmt::Display for RegisterValues {
    ghost output = { λ v. Some (register_values v.bank) };

    fn fmt<W: fmt::Write>(&self, f: &mut fmt::Formatter<W>) -> fmt::Result {
        let bank = self.bank;
        let level1 = NumberVariable {
            width: 16,
            signal: Signal::InUse {
                level: Level::One,
                bank,
            },
            name: "level1_registers [15:0]",
        };
        let level2 = NumberVariable {
            width: 16,
            signal: Signal::InUse {
                level: Level::Two,
                bank,
            },
            name: "level2_registers [15:0]",
        };
        write!(f, "{level1}{level2}")
    }
}

/// The lines of the signals that say how many blocks go between the levels and how many lines are dirty.
#[derive(Clone, Copy)]
struct TrafficValues {
    bank: u8,
}

impl fmt::Display for TrafficValues {
    ghost output = { λ v. Some (traffic_values v.bank) };

    fn fmt<W: fmt::Write>(&self, f: &mut fmt::Formatter<W>) -> fmt::Result {
        let bank = self.bank;
        let asked = NumberVariable {
            width: 16,
            signal: Signal::Asked { bank },
            name: "asked [15:0]",
        };
        let supplied = NumberVariable {
            width: 16,
            signal: Signal::Supplied { bank },
            name: "supplied [15:0]",
        };
        let level1 = NumberVariable {
            width: 32,
            signal: Signal::Dirty {
                level: Level::One,
                bank,
            },
            name: "level1_dirty [31:0]",
        };
        let level2 = NumberVariable {
            width: 32,
            signal: Signal::Dirty {
                level: Level::Two,
                bank,
            },
            name: "level2_dirty [31:0]",
        };
        write!(f, "{asked}{supplied}{level1}{level2}")
    }
}

/// The line of the block that a register holds.
#[derive(Clone, Copy)]
struct HeldVariable {
    level: Level,
    bank: u8,
    register: u16,
}

impl fmt::Display for HeldVariable {
    ghost output = { λ v. Some (held_variable v.level v.bank v.register) };

    fn fmt<W: fmt::Write>(&self, f: &mut fmt::Formatter<W>) -> fmt::Result {
        let HeldVariable {
            level,
            bank,
            register,
        } = *self;
        let signal = Signal::HeldBlock {
            level,
            bank,
            register,
        };
        write!(
            f,
            "$var wire 32 {signal} {level}_register{register} [31:0] $end\n"
        )
    }
}

/// The line of the targets that wait in it.
#[derive(Clone, Copy)]
struct TargetsVariable {
    level: Level,
    bank: u8,
    register: u16,
}

impl fmt::Display for TargetsVariable {
    ghost output = { λ v. Some (targets_variable v.level v.bank v.register) };

    fn fmt<W: fmt::Write>(&self, f: &mut fmt::Formatter<W>) -> fmt::Result {
        let TargetsVariable {
            level,
            bank,
            register,
        } = *self;
        let signal = Signal::Targets {
            level,
            bank,
            register,
        };
        write!(
            f,
            "$var wire 16 {signal} {level}_targets{register} [15:0] $end\n"
        )
    }
}

/// Both lines of a register.
#[derive(Clone, Copy)]
struct RegisterVariable {
    level: Level,
    bank: u8,
    register: u16,
}

impl fmt::Display for RegisterVariable {
    ghost output = { λ v. Some (register_variable v.level v.bank v.register) };

    fn fmt<W: fmt::Write>(&self, f: &mut fmt::Formatter<W>) -> fmt::Result {
        let RegisterVariable {
            level,
            bank,
            register,
        } = *self;
        let held = HeldVariable {
            level,
            bank,
            register,
        };
        let targets = TargetsVariable {
            level,
            bank,
            register,
        };
        write!(f, "{held}{targets}")
    }
}

impl Numbered<u16> for RegisterVariable {
    ghost text_at = { λ p. register_variable p.level p.bank };

    fn at(self, register: u16) -> Self {
        RegisterVariable { register, ..self }
    }
}

/// The lines of the registers of a level.
fn register_variables(count: u16, level: Level, bank: u8) -> Each<RegisterVariable>
    ensures { result ≡ record { part = record { level = level; bank = bank; register = 0 }; count = count } }
{
    let part = RegisterVariable {
        level,
        bank,
        register: 0,
    };
    Each { part, count }
}

/// The scope of a bank.
#[derive(Clone, Copy)]
struct BankScope<'a> {
    view: &'a View,
    bank: u8,
}

impl fmt::Display for BankScope<'_> {
    ghost output = { λ s. Some (bank_scope s.view.now s.bank) };

    fn fmt<W: fmt::Write>(&self, f: &mut fmt::Formatter<W>) -> fmt::Result {
        let BankScope { view, bank } = *self;
        let begin = ScopeBegin {
            kind: "bank",
            index: bank,
        };
        let values = BankValues { bank };
        let held = RegisterValues { bank };
        let counts = TrafficValues { bank };
        let level1 = register_variables(view.level1_registers, Level::One, bank);
        let level2 = register_variables(view.level2_registers, Level::Two, bank);
        let end = ScopeEnd;
        write!(f, "{begin}{values}{held}{counts}{level1}{level2}{end}")
    }
}

impl Numbered<u8> for BankScope<'_> {
    ghost text_at = { λ p. bank_scope p.view.now };

    fn at(self, bank: u8) -> Self {
        BankScope { bank, ..self }
    }
}

/// The line of the signal of the times, where the wave has it.
#[derive(Clone, Copy)]
struct TimeVariable {
    shown: bool,
}

impl fmt::Display for TimeVariable {
    ghost output = { λ v. Some (time_variable v.shown) };

    fn fmt<W: fmt::Write>(&self, f: &mut fmt::Formatter<W>) -> fmt::Result {
        if !self.shown {
            return Ok(());
        }
        let time = TextVariable {
            signal: Signal::Time,
            name: "time",
        };
        write!(f, "{time}")
    }
}

/// The lines of the signals of the marks.
#[derive(Clone, Copy)]
struct MarkValues;

impl fmt::Display for MarkValues {
    ghost output = { λ _. Some mark_values };

    fn fmt<W: fmt::Write>(&self, f: &mut fmt::Formatter<W>) -> fmt::Result {
        let named = Named::ByVerdict;
        let fault = NumberVariable {
            width: 1,
            signal: Signal::Fault { named },
            name: "fault",
        };
        let rule = TextVariable {
            signal: Signal::Rule { named },
            name: "rule",
        };
        let named = Named::First;
        let first_fault = NumberVariable {
            width: 1,
            signal: Signal::Fault { named },
            name: "first_fault",
        };
        let first_rule = TextVariable {
            signal: Signal::Rule { named },
            name: "first_rule",
        };
        write!(f, "{fault}{rule}{first_fault}{first_rule}")
    }
}

/// All scopes.
#[derive(Clone, Copy)]
struct Scopes<'a> {
    times: bool,
    view: &'a View,
    ports: u8,
    banks: u8,
}

impl fmt::Display for Scopes<'_> {
    ghost output = { λ s. Some (scopes s.times s.view.now s.ports s.banks) };

    fn fmt<W: fmt::Write>(&self, f: &mut fmt::Formatter<W>) -> fmt::Result {
        let Scopes {
            times,
            view,
            ports,
            banks,
        } = *self;
        let time = TimeVariable { shown: times };
        let marks = MarkValues;
        let ports = EachByte {
            part: PortScope {
                tags: view.tags,
                port: 0,
            },
            count: ports,
        };
        let banks = EachByte {
            part: BankScope { view, bank: 0 },
            count: banks,
        };
        let end = ScopeEnd;
        write!(
            f,
            "$scope module score $end\n{time}{marks}{ports}{banks}{end}"
        )
    }
}

/// A tag of a port, which is free.
#[derive(Clone, Copy)]
struct TagStart {
    port: u8,
    tag: u16,
}

impl fmt::Display for TagStart {
    ghost output = { λ s. Some (tag_start s.port s.tag) };

    fn fmt<W: fmt::Write>(&self, f: &mut fmt::Formatter<W>) -> fmt::Result {
        let TagStart { port, tag } = *self;
        let free = BitChange {
            up: false,
            signal: Signal::Busy { port, tag },
        };
        write!(f, "{free}")
    }
}

impl Numbered<u16> for TagStart {
    ghost text_at = { λ p. tag_start p.port };

    fn at(self, tag: u16) -> Self {
        TagStart { tag, ..self }
    }
}

/// A port with no record yet and no busy tag.
#[derive(Clone, Copy)]
struct PortStart {
    tags: u16,
    port: u8,
}

impl fmt::Display for PortStart {
    ghost output = { λ s. Some (port_start s.tags s.port) };

    fn fmt<W: fmt::Write>(&self, f: &mut fmt::Formatter<W>) -> fmt::Result {
        let PortStart { tags, port } = *self;
        let word = TextChange {
            text: "",
            signal: Signal::PortEvent { port },
        };
        let none = NumberChange::new(0, Signal::Outstanding { port });
        let free = Each {
            part: TagStart { port, tag: 0 },
            count: tags,
        };
        write!(f, "{word}{none}{free}")
    }
}

impl Numbered<u8> for PortStart {
    ghost text_at = { λ p. port_start p.tags };

    fn at(self, port: u8) -> Self {
        PortStart { port, ..self }
    }
}

/// A bank that nothing happened in.
fn no_counts() -> Counts
    ensures { result ≡ no_counts }
{
    Counts {
        asked: 0,
        supplied: 0,
        dirty1: 0,
        dirty2: 0,
    }
}

/// The registers of a level, all free.
fn register_starts(count: u16, level: Level, bank: u8) -> Each<FreeChange>
    ensures { result ≡ record { part = record { level = level; bank = bank; register = 0 }; count = count } }
{
    let part = FreeChange {
        level,
        bank,
        register: 0,
    };
    Each { part, count }
}

/// A bank with no record yet and no register held.
#[derive(Clone, Copy)]
struct BankStart<'a> {
    view: &'a View,
    bank: u8,
}

impl fmt::Display for BankStart<'_> {
    ghost output = { λ s. Some (bank_start s.view.now s.bank) };

    fn fmt<W: fmt::Write>(&self, f: &mut fmt::Formatter<W>) -> fmt::Result {
        let BankStart { view, bank } = *self;
        let word = TextChange {
            text: "",
            signal: Signal::BankEvent { bank },
        };
        let level = Level::One;
        let none1 = NumberChange::new(0, Signal::InUse { level, bank });
        let free1 = register_starts(view.level1_registers, level, bank);
        let counts = AllCounts {
            bank,
            counts: no_counts(),
        };
        let level = Level::Two;
        let none2 = NumberChange::new(0, Signal::InUse { level, bank });
        let free2 = register_starts(view.level2_registers, level, bank);
        write!(f, "{word}{none1}{none2}{counts}{free1}{free2}")
    }
}

impl Numbered<u8> for BankStart<'_> {
    ghost text_at = { λ p. bank_start p.view.now };

    fn at(self, bank: u8) -> Self {
        BankStart { bank, ..self }
    }
}

/// The signal of the times before the first record, where the wave has it.
#[derive(Clone, Copy)]
struct TimeStart {
    shown: bool,
}

impl fmt::Display for TimeStart {
    ghost output = { λ s. Some (time_start s.shown) };

    fn fmt<W: fmt::Write>(&self, f: &mut fmt::Formatter<W>) -> fmt::Result {
        if !self.shown {
            return Ok(());
        }
        let none = TextChange {
            text: "",
            signal: Signal::Time,
        };
        write!(f, "{none}")
    }
}

/// A mark, where the record that is marked is before the first one that is shown.
#[derive(Clone, Copy)]
struct MarkStart {
    named: Named,
    marker: Option<Marker>,
    from: u64,
}

impl fmt::Display for MarkStart {
    ghost output = { λ s. Some (mark_start s.named s.marker s.from) };

    fn fmt<W: fmt::Write>(&self, f: &mut fmt::Formatter<W>) -> fmt::Result {
        let MarkStart {
            named,
            marker,
            from,
        } = *self;
        if let Some(Marker { place, why }) = marker {
            if place < from {
                let marked = Marked { named, why };
                return write!(f, "{marked}");
            }
        }
        let fine = BitChange {
            up: false,
            signal: Signal::Fault { named },
        };
        let rule = TextChange {
            text: "",
            signal: Signal::Rule { named },
        };
        write!(f, "{fine}{rule}")
    }
}

/// The time of the values before the first record that is shown.
#[derive(Clone, Copy)]
struct StartTime {
    times: bool,
    from: u64,
}

impl fmt::Display for StartTime {
    ghost output = { λ s. Some (start_time s.times s.from) };

    fn fmt<W: fmt::Write>(&self, f: &mut fmt::Formatter<W>) -> fmt::Result {
        let StartTime { times, from } = *self;
        if times {
            let begin = Time::at(0);
            write!(f, "{begin}")
        } else {
            let begin = Time {
                count: from,
                tenth: "0",
            };
            write!(f, "{begin}")
        }
    }
}

/// The values before the first record that is shown.
#[derive(Clone, Copy)]
struct Start<'a> {
    times: bool,
    view: &'a View,
    ports: u8,
    banks: u8,
}

impl fmt::Display for Start<'_> {
    ghost output = { λ s. Some (start s.times s.view.now s.ports s.banks) };

    fn fmt<W: fmt::Write>(&self, f: &mut fmt::Formatter<W>) -> fmt::Result {
        let from = self.view.from;
        let begin = StartTime {
            times: self.times,
            from,
        };
        let time = TimeStart { shown: self.times };
        let fault = MarkStart {
            named: Named::ByVerdict,
            marker: self.view.marker,
            from,
        };
        let first = MarkStart {
            named: Named::First,
            marker: self.view.first,
            from,
        };
        let ports = EachByte {
            part: PortStart {
                tags: self.view.tags,
                port: 0,
            },
            count: self.ports,
        };
        let banks = EachByte {
            part: BankStart {
                view: self.view,
                bank: 0,
            },
            count: self.banks,
        };
        write!(
            f,
            "{begin}$dumpvars\n{time}{fault}{first}{ports}{banks}$end\n"
        )
    }
}

/// What a time counts.
fn timescale(times: bool) -> &'static str
    ensures { result.now ≡ timescale times }
{
    if times { "1 ps" } else { "100 ps" }
}

/// The head of the wave of a trace with so many ports and banks.
#[derive(Clone, Copy)]
pub struct Head<'a> {
    /// The wave has the times of the records.
    pub times: bool,
    pub view: &'a View,
    pub ports: u8,
    pub banks: u8,
}

impl fmt::Display for Head<'_> {
    ghost output = { λ head. Some (head_text head.times head.view.now head.ports head.banks) };

    fn fmt<W: fmt::Write>(&self, f: &mut fmt::Formatter<W>) -> fmt::Result {
        let Head {
            times,
            view,
            ports,
            banks,
        } = *self;
        let scopes = Scopes {
            times,
            view,
            ports,
            banks,
        };
        let start = Start {
            times,
            view,
            ports,
            banks,
        };
        let timescale = timescale(times);
        write!(
            f,
            "$timescale {timescale} $end\n{scopes}$enddefinitions $end\n{start}"
        )
    }
}
