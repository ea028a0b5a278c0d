//! The words that `plant` takes.

use clap::{Arg, ArgAction, Command, value_parser};
use source_run::DEFAULT_BUDGET_TEXT;
use std::alloc::{AllocError, Global};

static STARTS: [&str; 2] = ["warm", "cold"];

static PACES: [&str; 2] = ["settle", "free"];

static MACHINES: [&str; 2] = ["quick", "values"];

fn source<'a>(alloc: Global) -> Arg<'a> {
    Arg::new(alloc, "source")
        .value_name("SRC")
        .help("The source, in Structured Text")
        .required(true)
}

fn file<'a>(alloc: Global, name: &'a str, help: &'a str) -> Arg<'a> {
    Arg::new(alloc, name).long(name).value_name("F").help(help)
}

fn start<'a>(alloc: Global) -> Arg<'a> {
    Arg::new(alloc, "start")
        .long("start")
        .help("Continue from the retain file, or begin with initial values")
        .value_parser(STARTS.as_slice())
        .required(true)
}

fn budget<'a>(alloc: Global) -> Arg<'a> {
    Arg::new(alloc, "budget")
        .long("budget")
        .value_name("N")
        .help("How many ticks an execution may take")
        .value_parser(value_parser!(u32))
        .default_value(DEFAULT_BUDGET_TEXT)
}

fn pace<'a>(alloc: Global) -> Arg<'a> {
    Arg::new(alloc, "pace")
        .long("pace")
        .help("Latch a row when all earlier ones are settled, or at once, to measure")
        .value_parser(PACES.as_slice())
        .default_value("settle")
}

fn machine<'a>(alloc: Global) -> Arg<'a> {
    Arg::new(alloc, "machine")
        .long("machine")
        .help("Run programs with quick code where possible, or all on values, to compare")
        .value_parser(MACHINES.as_slice())
        .default_value("quick")
}

fn plant_file<'a>(alloc: Global) -> Arg<'a> {
    file(alloc, "plant", "The plant, a CSV file").required(true)
}

fn trace_file<'a>(alloc: Global) -> Arg<'a> {
    file(
        alloc,
        "trace",
        "The trace to replay, or a folder of segments from `plant live`",
    )
    .required(true)
}

fn segments_plant<'a>(alloc: Global) -> Arg<'a> {
    file(
        alloc,
        "plant",
        "The plant of a trace, a CSV file; segments need none",
    )
}

fn flag<'a>(alloc: Global, name: &'a str, help: &'a str) -> Arg<'a> {
    Arg::new(alloc, name)
        .long(name)
        .help(help)
        .action(ArgAction::SetTrue)
}

fn explain_flag<'a>(alloc: Global) -> Arg<'a> {
    flag(alloc, "explain", "Say where a fault is, and what it means")
}

fn check<'a>(alloc: Global) -> Result<Command<'a>, AllocError> {
    let args = vec![in alloc; source(alloc), explain_flag(alloc)]?;
    Command::new(alloc, "check")
        .about("Builds a source and prints its sizes")
        .args(args)
}

fn run<'a>(alloc: Global) -> Result<Command<'a>, AllocError> {
    let args = vec![in alloc;
        source(alloc),
        plant_file(alloc),
        file(alloc, "store", "The retain file").required(true),
        start(alloc),
        budget(alloc),
        pace(alloc),
        machine(alloc),
        flag(alloc, "stats", "Count the program runs of each machine"),
        explain_flag(alloc),
        file(alloc, "trace", "The trace to write after the run"),
    ]?;
    Command::new(alloc, "run")
        .about("Runs a source against a plant and prints the report")
        .args(args)
}

fn live<'a>(alloc: Global) -> Result<Command<'a>, AllocError> {
    let args = vec![in alloc;
        source(alloc),
        file(alloc, "store", "The retain file").required(true),
        start(alloc),
        budget(alloc),
        flag(
            alloc,
            "stamp",
            "Take rows without `t`, and give each the moment at which it comes"
        ),
        flag(
            alloc,
            "newest",
            "Latch only the newest of the rows that wait, and answer the others with `missed`"
        ),
        Arg::new(alloc, "every").long("every").value_name("T").help(
            "Make a row each T, such as 10ms or 2s, with the newest inputs; lines have no `t`"
        ),
        Arg::new(alloc, "trace")
            .long("trace")
            .value_name("DIR")
            .help("A folder for the trace, in segments of about 1 MiB"),
        explain_flag(alloc),
    ]?;
    Command::new(alloc, "live")
        .about(
            "Runs a source against rows from standard input and writes outputs to standard output",
        )
        .args(args)
}

fn replay<'a>(alloc: Global) -> Result<Command<'a>, AllocError> {
    let args = vec![in alloc;
        source(alloc),
        segments_plant(alloc),
        trace_file(alloc),
        explain_flag(alloc),
    ]?;
    Command::new(alloc, "replay")
        .about("Replays a trace in one thread and prints the report")
        .args(args)
}

fn show<'a>(alloc: Global) -> Result<Command<'a>, AllocError> {
    let store = Arg::new(alloc, "store")
        .value_name("FILE")
        .help("The retain file")
        .required(true);
    let both = flag(alloc, "both", "Show both areas of the file").conflicts_with("against")?;
    let against = Arg::new(alloc, "against")
        .long("against")
        .value_name("SRC")
        .help("Show what a warm start of this source would keep, change and drop");
    let args = vec![in alloc; store, both, against]?;
    Command::new(alloc, "show")
        .about("Prints a retain file's contents and never writes")
        .args(args)
}

fn plot<'a>(alloc: Global) -> Result<Command<'a>, AllocError> {
    let paths = Arg::new(alloc, "path")
        .value_name("PATH")
        .help("The variables to show; by default the first ones")
        .num_args(0..);
    let args = vec![in alloc;
        source(alloc),
        segments_plant(alloc),
        trace_file(alloc),
        file(alloc, "out", "The file for the picture"),
        paths,
    ]?;
    Command::new(alloc, "plot")
        .about("Draws a run from its trace, as an SVG picture")
        .args(args)
}

fn explain<'a>(alloc: Global) -> Result<Command<'a>, AllocError> {
    let code = Arg::new(alloc, "code")
        .value_name("CODE")
        .help("A code, such as C3 or S2")
        .required(true);
    Command::new(alloc, "explain")
        .about("Says what a code means")
        .arg(code)
}

/// The command `plant` with its first subcommand.
fn plant<'a>(alloc: Global) -> Result<Command<'a>, AllocError> {
    let plant = Command::new(alloc, "plant").bin_name("plant")?;
    let first = Command::new(alloc, "first").about("Runs the built-in configuration");
    plant
        .about("Runs Structured Text against a plant, recorded or live")
        .subcommand_required(true)
        .subcommand(first)
}

/// The command with one more subcommand, if memory sufficed for both.
fn with<'a>(
    command: Result<Command<'a>, AllocError>,
    made: Result<Command<'a>, AllocError>,
) -> Result<Command<'a>, AllocError> {
    command?.subcommand(made?)
}

/// The command `plant` with its subcommands.
pub(crate) fn command<'a>(alloc: Global) -> Result<Command<'a>, AllocError> {
    let command = with(plant(alloc), check(alloc));
    let command = with(command, run(alloc));
    let command = with(command, live(alloc));
    let command = with(command, replay(alloc));
    let command = with(command, show(alloc));
    let command = with(command, plot(alloc));
    with(command, explain(alloc))
}
