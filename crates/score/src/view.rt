//! `score view`: writes a waveform of a trace.

ghost use Rattle.lf_rules.specs.InRange.{IsShape};

use crate::configuration::{bytes_at, bytes_within, text_in};
use crate::ending::Ending;
use crate::map::times_if;
use crate::output::{
    Part, Target, create_part, finish, put, refuse, refuse_write, target_of, tell,
};
use crate::progress::{clear, reader_by_itself, tells_by_itself};
use crate::trace::{Trace, size_of_file};
use command_line::{ViewOptions, Window};
use explain_lines::Times;
use lf_rules::{Rule, Shape};
use lf_verdict::{Asked, Broken, Conclusion, Fault, Incomplete, Outcome, PartFault};
use run_engine::{Counted, InputFault, Judged, Line, Needs, judge, shape_for};
use std::alloc::AllocError;
use std::io;
use std::io::{ErrorKind, Read, Write};
use std::rt::Files;
use std::thread::Threads;
use wave_draw::{Clock, Drawing, Front, Sought, ViewFault, order_of_no, view as draw};
use wave_signals::{Marker, SaveFile, View, Why};

/// So many records before the first one that is marked are shown, where nothing else is asked for.
const BEFORE: u64 = 200;

/// What the wave shows of a trace of this shape, in which these records are marked.
fn view_in(window: Window, shape: &Shape, marks: Marks) -> View {
    let Marks { marker, first } = marks;
    let earlier = match (marker, first) {
        (Some(marker), Some(first)) => marker.place.min(first.place),
        (Some(marker), None) => marker.place,
        _ => 0,
    };
    View {
        from: window.from.unwrap_or(earlier.saturating_sub(BEFORE)),
        to: window.to.unwrap_or(u64::MAX),
        marker,
        first,
        ..View::whole(shape)
    }
}

/// Where the wave goes, and what it shows.
#[derive(Drop)]
struct Output<'a> {
    out: &'a str,
    window: Window,
    times: Option<Times>,
    /// Each request of a legal trace must have a reply.
    complete: bool,
    /// A terminal shows how far the reading is.
    clears: bool,
}

/// Readers of one trace.
#[derive(Drop)]
struct Readers<R> {
    judged: R,
    searched: Searched<R>,
    shown: R,
}

/// Those in which the fault that the verdict names is searched, and what broke first.
#[derive(Drop)]
struct Searched<R> {
    named: R,
    first: R,
}

/// The records that are marked.
#[derive(Clone, Copy)]
struct Marks {
    marker: Option<Marker>,
    first: Option<Marker>,
}

/// The order in which the records are drawn, and those that are marked.
#[derive(Drop)]
struct Course {
    logs: Option<Vec<u8>>,
    marks: Marks,
}

/// The record of a fault that breaks a rule, and the rule.
#[derive(Clone, Copy, PartialEq, Eq)]
struct Breach {
    sought: Sought,
    why: Why,
}

impl Breach {
    fn of_port(log: u8, at: u32, rule: Rule) -> Breach {
        Breach {
            sought: Sought::InLog { log, at },
            why: Why::Rule(rule),
        }
    }

    fn of_bank(bank: u8, number: u32, rule: Rule) -> Breach {
        Breach {
            sought: Sought::InBank { bank, number },
            why: Why::Rule(rule),
        }
    }
}

/// The record that a no names.
fn breach_named(fault: &Fault) -> Option<Breach> {
    match fault {
        Fault::Port { port, at, rule } => Some(Breach::of_port(*port, *at, *rule)),
        Fault::Bank { bank, number, rule } => Some(Breach::of_bank(*bank, *number, *rule)),
        _ => None,
    }
}

/// The record that broke a rule first.
fn breach_first(broken: Option<Broken>) -> Option<Breach> {
    let Some(Broken::Part { fault, .. }) = broken else {
        return None;
    };
    match fault {
        PartFault::Port { port, at, rule } => Some(Breach::of_port(port, at, rule)),
        PartFault::Bank { bank, number, rule } => Some(Breach::of_bank(bank, number, rule)),
        PartFault::Double { .. } => None,
    }
}

/// The order of a trace up to this record, or as far as records can come.
fn front_to<T: AllocGlobal, R: Read + Drop>(
    rt: &T,
    times: &Option<Times>,
    breach: Option<Breach>,
    reader: R,
) -> Result<Front, ViewFault> {
    let sought = match breach {
        Some(breach) => breach.sought,
        None => Sought::Nothing,
    };
    let mut reader = Counted::new(reader);
    order_of_no(rt, &mut reader, times, sought, u32::MAX)
}

/// The mark of the last record of an order that goes up to this record, where it has one.
fn mark_of(front: &Front, breach: Option<Breach>) -> Option<Marker> {
    let place = (front.logs.len() as u64).checked_sub(1)?;
    let why = match breach {
        Some(breach) if front.reached => breach.why,
        _ => Why::Stop,
    };
    Some(Marker { place, why })
}

/// The order of a no, up to the later one of the record that it names and the record that broke a rule first. Both
/// orders take the records alike, so the shorter one is the beginning of the other.
fn course_of_no<T: AllocGlobal, R: Read + Drop>(
    rt: &T,
    times: &Option<Times>,
    named: Option<Breach>,
    broke: Option<Breach>,
    searched: Searched<R>,
) -> Result<Course, ViewFault> {
    let front = front_to(rt, times, named, searched.named)?;
    let marker = mark_of(&front, named);
    let mut marks = Marks {
        marker,
        first: None,
    };
    let Front { mut logs, reached } = front;
    if reached && broke == named {
        marks.first = marker;
    } else if broke.is_some() && broke != named {
        let other = front_to(rt, times, broke, searched.first)?;
        if other.reached {
            marks.first = mark_of(&other, broke);
        }
        if other.reached && other.logs.len() > logs.len() {
            logs = other.logs;
        }
    }
    Ok(Course {
        logs: Some(logs),
        marks,
    })
}

/// The order of a yes is that of its verdict or, with times, one by them.
fn course_of<T: AllocGlobal, R: Read + Drop>(
    rt: &T,
    times: &Option<Times>,
    outcome: &Outcome,
    order: Option<Vec<u8>>,
    broken: Option<Broken>,
    searched: Searched<R>,
) -> Result<Course, ViewFault> {
    if let Outcome::No(fault) = outcome {
        return course_of_no(
            rt,
            times,
            breach_named(fault),
            breach_first(broken),
            searched,
        );
    }
    let logs = if times.is_some() {
        Some(front_to(rt, times, None, searched.named)?.logs)
    } else {
        order
    };
    Ok(Course {
        logs,
        marks: Marks {
            marker: None,
            first: None,
        },
    })
}

/// Tells why the trace was not read to its end.
fn refuse_read<T: Print + Eprint>(rt: &T, out: &str, why: ViewFault) -> io::Result<Ending> {
    match why {
        ViewFault::Memory => refuse(rt, out, Line::Refused(InputFault::Memory)),
        _ => refuse(rt, out, "refused read trace"),
    }
}

/// Writes the wave of the trace, of which the order may name a part alone. A trace that is none any more, or is not
/// that of the order, was changed while it was read.
fn write_wave<T: AllocGlobal, R: Read + Drop, W: Write + Drop>(
    rt: &T,
    drawing: Drawing,
    is_part: bool,
    reader: R,
    writer: W,
) -> io::Result<()> {
    let mut reader = Counted::new(reader);
    let mut writer = Counted::new(writer);
    match draw(rt, &mut reader, &mut writer, drawing, u32::MAX) {
        Ok(None) => Ok(()),
        Err(ViewFault::Order) if is_part => Ok(()),
        Err(ViewFault::Memory) => Err(io::Error::from(ErrorKind::OutOfMemory)),
        _ => Err(io::Error::from(ErrorKind::Other)),
    }
}

/// The name of the file of signals beside the wave.
fn save_name<T: AllocGlobal>(rt: &T, out: &str) -> Result<String, AllocError> {
    let name = out.strip_suffix(".vcd").unwrap_or(out);
    format!(in rt.alloc(); "{name}.gtkw")
}

/// The text of the file of signals.
fn save_text<T: AllocGlobal>(
    rt: &T,
    drawing: &Drawing,
    shape: &Shape,
) -> Result<String, AllocError> {
    let save = SaveFile {
        times: &drawing.times,
        view: &drawing.view,
        ports: u8::try_from(shape.ports).unwrap_or(u8::MAX),
        banks: u8::try_from(shape.banks).unwrap_or(u8::MAX),
    };
    format!(in rt.alloc(); "{save}")
}

/// Writes the wave beside its place and renames it, and then the file of signals.
fn put_files<T: Print + Files + AllocGlobal, R: Read + Drop>(
    rt: &T,
    out: &str,
    drawing: Drawing,
    is_part: bool,
    shape: &Shape,
    reader: R,
) -> io::Result<()>
where
    T::File: Drop,
{
    let save = save_text(rt, &drawing, shape)?;
    let beside = save_name(rt, out)?;
    let Part { name, file } = create_part(rt, out)?;
    let written = write_wave(rt, drawing, is_part, reader, file);
    finish(rt, name.as_str(), out, written)?;
    put(rt, beside.as_str(), save.as_bytes())
}

/// Writes the wave to standard output or to a file, and to a regular file also that of the signals.
fn put_wave<T: Print + Files + AllocGlobal, R: Read + Drop>(
    rt: &T,
    out: &str,
    drawing: Drawing,
    is_part: bool,
    shape: &Shape,
    reader: R,
) -> io::Result<()>
where
    T::File: Drop,
{
    match target_of(rt, out) {
        Target::StandardOutput => write_wave(rt, drawing, is_part, reader, io::writer(rt)),
        Target::Special => write_wave(rt, drawing, is_part, reader, std::fs::create(rt, out)?),
        Target::File => put_files(rt, out, drawing, is_part, shape, reader),
    }
}

/// What is drawn of a trace in its order. With the times of a map, the axis is that of the map.
fn drawing_of<T: AllocGlobal>(
    rt: &T,
    window: Window,
    times: Option<Times>,
    shape: &Shape,
    course: Course,
) -> Result<Drawing, AllocError> {
    let Course { logs, marks } = course;
    let times = match (times, &logs) {
        (Some(times), Some(logs)) => Some(Clock::new(rt.alloc(), times, logs.as_slice())?),
        _ => None,
    };
    Ok(Drawing {
        view: view_in(window, shape, marks),
        times,
        order: logs,
    })
}

/// Tells the line of the verdict, or that of a request without a reply.
fn tell_answer<T: Print + Eprint>(
    rt: &T,
    out: &str,
    outcome: &Outcome,
    request: Option<Incomplete>,
) -> io::Result<Ending> {
    if let Some(request) = request {
        tell(rt, out, Line::Incomplete(request))?;
        return Ok(Ending::No);
    }
    tell(rt, out, Line::Concluded(outcome))?;
    Ok(Ending::of(outcome))
}

/// Writes the wave of a trace in its order, and tells its line.
fn hand_out<T: Print + Eprint + Files + AllocGlobal, R: Read + Drop>(
    rt: &T,
    shape: &Shape,
    output: Output<'_>,
    conclusion: Conclusion,
    searched: Searched<R>,
    shown: R,
) -> io::Result<Ending>
where
    T::File: Drop,
{
    let Output {
        out,
        window,
        times,
        complete,
        clears,
    } = output;
    let Conclusion {
        outcome,
        order,
        broken,
        incomplete,
        ..
    } = conclusion;
    let found = course_of(rt, &times, &outcome, order, broken, searched);
    if clears {
        clear(rt);
    }
    let course = match found {
        Ok(course) => course,
        Err(why) => return refuse_read(rt, out, why),
    };
    let Ok(drawing) = drawing_of(rt, window, times, shape, course) else {
        return refuse_read(rt, out, ViewFault::Memory);
    };
    let is_part = matches!(&outcome, Outcome::No(_));
    let written = put_wave(rt, out, drawing, is_part, shape, shown);
    if clears {
        clear(rt);
    }
    if let Err(why) = written {
        return refuse_write(rt, out, why);
    }
    let request = if complete { incomplete } else { None };
    tell_answer(rt, out, &outcome, request)
}

/// Judges the trace, and shows one that has a yes or a no.
fn view_of<
    T: Print + Eprint + Files + AllocGlobal + Threads + Sync + Send + Copy + 'static,
    R: Read + Drop,
>(rt: &T, shape: &Shape, output: Output<'_>, readers: Readers<R>) -> io::Result<Ending>
where
    T::File: Drop,
    requires { IsShape shape.now }
{
    let out = output.out;
    let Readers {
        judged,
        searched,
        shown,
    } = readers;
    let mut reader = Counted::new(judged);
    let needs = Needs {
        asked: Asked {
            ordered: true,
            watched: true,
            counted: false,
        },
        early: false,
        bytes: false,
    };
    let judged = judge(rt, &mut reader, shape, 1, needs, u32::MAX);
    if output.clears {
        clear(rt);
    }
    match judged {
        Ok(Judged { conclusion, .. }) => match &conclusion.outcome {
            Outcome::Refused(_) => refuse(rt, out, Line::Concluded(&conclusion.outcome)),
            _ => hand_out(rt, shape, output, conclusion, searched, shown),
        },
        Err(_) => refuse_read(rt, out, ViewFault::Read),
    }
}

/// Judges and shows the trace at this path. One that is no regular file is kept, since it can be read once alone.
fn view_at<
    T: Print + Eprint + Input + Files + AllocGlobal + Threads + Sync + Send + Copy + 'static,
>(rt: &T, shape: &Shape, trace: &str, output: Output<'_>, on_terminal: bool) -> io::Result<Ending>
where
    T::File: Drop,
    requires { IsShape shape.now }
{
    if size_of_file(rt, trace).is_some() {
        let readers = Readers {
            judged: reader_by_itself(rt, trace, "judged", on_terminal),
            searched: Searched {
                named: reader_by_itself(rt, trace, "searched", on_terminal),
                first: reader_by_itself(rt, trace, "searched", on_terminal),
            },
            shown: reader_by_itself(rt, trace, "drawn", on_terminal),
        };
        return view_of(rt, shape, output, readers);
    }
    let kept = match bytes_within(rt.alloc(), Trace::open(rt, trace), u32::MAX) {
        Ok(kept) => kept,
        Err(e) if e.kind() == ErrorKind::OutOfMemory => {
            return refuse_read(rt, output.out, ViewFault::Memory);
        }
        Err(_) => return refuse_read(rt, output.out, ViewFault::Read),
    };
    let readers = Readers {
        judged: kept.as_slice(),
        searched: Searched {
            named: kept.as_slice(),
            first: kept.as_slice(),
        },
        shown: kept.as_slice(),
    };
    view_of(rt, shape, output, readers)
}

/// Judges the configuration and reads the map before the trace is read.
pub fn view<
    T: Print + Eprint + Input + Files + AllocGlobal + Threads + Sync + Send + Copy + 'static,
>(
    rt: &T,
    config: &str,
    trace: &str,
    out: &str,
    options: ViewOptions<'_>,
    on_terminal: bool,
) -> io::Result<Ending>
where
    T::File: Drop,
{
    let read = bytes_at(rt, config);
    let text = match text_in(&read) {
        Ok(text) => text,
        Err(why) => return refuse(rt, out, Line::Refused(why)),
    };
    let times = match times_if(rt, options.map) {
        Ok(times) => times,
        Err(why) => return refuse(rt, out, format_args!("refused {why}")),
    };
    let shape = match shape_for(rt.alloc(), text, 1) {
        Ok(shape) => shape,
        Err(refusal) => {
            let outcome = Outcome::Refused(refusal);
            return refuse(rt, out, Line::Concluded(&outcome));
        }
    };
    let output = Output {
        out,
        window: options.window,
        times,
        complete: options.complete,
        clears: tells_by_itself(size_of_file(rt, trace), on_terminal),
    };
    view_at(rt, &shape, trace, output, on_terminal)
}
