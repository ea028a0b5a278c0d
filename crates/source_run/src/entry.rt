//! The explanation of a code.

/// The place of the lines of an example.
#[derive(Clone, Copy, Debug, PartialEq, Eq)]
pub enum Frame {
    /// They are a whole text.
    Text,
    /// Types, functions, blocks and programs, before a configuration that runs the program Main.
    Units,
    /// Statements of the program Main, where n is an INT.
    Statements,
    /// A block of globals, in a configuration before its resources.
    Globals,
    /// Tasks and programs of a resource that has the task Cycle, in a text with the program Main.
    Resource,
    /// The plant of a text without inputs.
    Plant,
    /// A line in the trace of one program over rows at 0, 10 and 20.
    Trace,
    /// Command lines, next to a text, a plant and a plant with later rows.
    Command,
    /// A command line during which memory runs out.
    ShortMemory,
}

/// Lines that give a code, and lines that are right in their place.
#[derive(Clone, Copy, Debug, PartialEq, Eq)]
pub struct Example {
    pub frame: Frame,
    pub wrong: &'static [&'static str],
    pub right: &'static [&'static str],
}

/// The meaning of the exit status of a command that reported a code.
#[derive(Clone, Copy, Debug, PartialEq, Eq)]
pub enum Status {
    /// 2: the source is refused.
    Source,
    /// 3: the plant is refused.
    Plant,
    /// 3: a trace is refused or not written.
    Trace,
    /// 4: the start is refused.
    Start,
    /// 5: the run is refused.
    Run,
    /// 0: an execution ended with a fault, and the run went on.
    Execution,
}

/// The explanation of a code.
#[derive(Clone, Copy, Debug, PartialEq, Eq)]
pub struct Explanation {
    /// Its letter, in upper case, and its number.
    pub code: &'static str,
    /// When it is reported, in a line.
    pub title: &'static str,
    /// Its meaning, a sentence or two in a line.
    pub meaning: &'static [&'static str],
    /// None for a code that no command is known to report.
    pub example: Option<Example>,
    pub status: Status,
}
