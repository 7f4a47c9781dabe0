//! What a command line asks for.

use crate::check::CheckOptions;
use crate::dump::DumpOptions;
use crate::explain::ExplainOptions;
use crate::shrink::ShrinkOptions;
use crate::view::ViewOptions;

/// A command, with the words that it was given.
#[derive(Drop)]
pub enum Request<'a> {
    /// Judge the traces in files for the configuration in a file. There is one at least.
    Check {
        config: &'a str,
        traces: Vec<&'a str>,
        options: CheckOptions,
    },
    /// Count over the trace in a file, judged for the configuration in a file.
    Stats {
        config: &'a str,
        trace: &'a str,
        progress: bool,
    },
    /// Judge the trace in a file for the configuration in a file, and tell why the verdict is what it is.
    Explain {
        config: &'a str,
        trace: &'a str,
        options: ExplainOptions<'a>,
    },
    /// Count what the trace in a file reached, judged for the configuration in a file, and write Verilator's file where
    /// it is asked for.
    Cover {
        config: &'a str,
        trace: &'a str,
        dat: Option<&'a str>,
        progress: bool,
    },
    /// Run the demonstration for the configuration in a file, and write its trace to another.
    Demo {
        config: &'a str,
        out: &'a str,
    },
    /// Judge the trace in a file or on standard input while it comes, for the configuration in a file.
    Watch {
        config: &'a str,
        trace: &'a str,
    },
    /// Print the text of the trace in a file or on standard input, or the lines that are chosen.
    Dump {
        trace: &'a str,
        options: DumpOptions,
    },
    /// Write the trace of the text in a file or on standard input.
    Assemble {
        text: &'a str,
        out: &'a str,
    },
    /// Search for a smaller trace with the same rule broken, and write it to another file.
    Shrink {
        config: &'a str,
        trace: &'a str,
        out: &'a str,
        options: ShrinkOptions<'a>,
    },
    /// Judge the trace in a file for the configuration in a file, and write its waveform to another.
    View {
        config: &'a str,
        trace: &'a str,
        out: &'a str,
        options: ViewOptions<'a>,
    },
}

/// The one of these, where there are not several.
fn only<'a>(traces: &[&'a str]) -> Option<&'a str> {
    match traces {
        [trace] => Some(*trace),
        _ => None,
    }
}

impl<'a> Request<'a> {
    /// The name of the command.
    pub fn name(&self) -> &'static str {
        match self {
            Request::Check { .. } => "check",
            Request::Stats { .. } => "stats",
            Request::Explain { .. } => "explain",
            Request::Cover { .. } => "cover",
            Request::Demo { .. } => "demo",
            Request::Watch { .. } => "watch",
            Request::Dump { .. } => "dump",
            Request::Assemble { .. } => "assemble",
            Request::Shrink { .. } => "shrink",
            Request::View { .. } => "view",
        }
    }

    /// The files that it reads, in the order in which they are read, but for several traces.
    pub fn inputs(&self) -> [Option<&'a str>; 3] {
        match *self {
            Request::Check {
                config,
                ref traces,
                ..
            } => [Some(config), None, only(traces)],
            Request::Stats { config, trace, .. }
            | Request::Cover { config, trace, .. }
            | Request::Watch { config, trace } => [Some(config), None, Some(trace)],
            Request::Explain {
                config,
                trace,
                options,
            } => [Some(config), options.map, Some(trace)],
            Request::Shrink {
                config,
                trace,
                options,
                ..
            } => [Some(config), options.map, Some(trace)],
            Request::View {
                config,
                trace,
                options,
                ..
            } => [Some(config), options.map, Some(trace)],
            Request::Demo { config, .. } => [Some(config), None, None],
            Request::Dump { trace, .. } => [None, None, Some(trace)],
            Request::Assemble { text, .. } => [Some(text), None, None],
        }
    }

    /// The file that it writes.
    pub fn output(&self) -> Option<&'a str> {
        match *self {
            Request::Cover { dat, .. } => dat,
            Request::Demo { out, .. }
            | Request::Assemble { out, .. }
            | Request::Shrink { out, .. }
            | Request::View { out, .. } => Some(out),
            _ => None,
        }
    }
}
