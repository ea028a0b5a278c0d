//! The job that a command line asks for.

ghost use Rattle.std.specs.Prelude.{◌≡◌};

/// The budget of an execution in ticks if none is given.
pub const DEFAULT_BUDGET: u32 = 10_000;

/// `DEFAULT_BUDGET` in decimal digits, as a command line spells it.
pub const DEFAULT_BUDGET_TEXT: &str = "10000";

/// The budget is this number. A law.
pub fn default_of_a_budget()
    ensures { DEFAULT_BUDGET ≡ 10000 }
{}

/// How a life starts.
#[derive(Clone, Copy, Debug, PartialEq, Eq)]
pub enum Start {
    /// The retained variables take the values of the last record.
    Warm,
    /// All variables take their initial values.
    Cold,
}

/// When the next row of the plant is latched.
#[derive(Clone, Copy, Debug, PartialEq, Eq)]
pub enum Pace {
    /// When nothing waits and all is acknowledged.
    Settle,
    /// One row after another.
    Free,
}

/// The machine that programs are to run by.
#[derive(Clone, Copy, Debug, PartialEq, Eq)]
pub enum AskedMachine {
    /// Quick code if there is some, and the machine on values if quick code cannot predict how a run ends.
    Quick,
    /// The machine on values alone, to compare the two.
    Values,
}

/// A run of a source against a plant.
#[derive(Clone, Copy, Debug, PartialEq, Eq)]
pub struct RunJob<'a> {
    pub source: &'a str,
    pub plant: &'a str,
    pub store: &'a str,
    pub start: Start,
    /// How many ticks an execution may take, as the words say: any number of 32 bits.
    pub budget: u32,
    pub pace: Pace,
    pub machine: AskedMachine,
    pub trace: Option<&'a str>,
    /// Whether the number of runs by each machine is reported.
    pub stats: bool,
    /// Whether a fault is explained.
    pub explain: bool,
}

impl RunJob<'_> {
    ghost use Rattle.source_run.specs.Jobs.{has_own_store};

    /// Whether the name of the retain file differs from that of each other file of the run.
    pub fn has_own_store(&self) -> bool
        ensures { result ≡ has_own_store self.now }
    {
        let is_trace = match self.trace {
            Some(trace) => trace == self.store,
            None => false,
        };
        self.store != self.source && self.store != self.plant && !is_trace
    }
}

/// A run of a source against rows that come on the standard input.
#[derive(Clone, Copy, Debug, PartialEq, Eq)]
pub struct LiveJob<'a> {
    pub source: &'a str,
    pub store: &'a str,
    pub start: Start,
    /// How many ticks an execution may take, as the words say: any number of 32 bits.
    pub budget: u32,
    /// Whether rows come without moments, and the clock gives them.
    pub stamp: bool,
    /// Whether of the rows that were read together only the newest is latched.
    pub newest: bool,
    /// Milliseconds from row to row, if the clock makes rows with the newest inputs.
    pub every: Option<u64>,
    /// The folder for the segments of the trace.
    pub trace: Option<&'a str>,
    /// Whether a fault is explained.
    pub explain: bool,
}

impl LiveJob<'_> {
    ghost use Rattle.source_run.specs.Jobs.{has_own_live_store};

    /// Whether the name of the retain file differs from that of the source.
    pub fn has_own_store(&self) -> bool
        ensures { result ≡ has_own_live_store self.now }
    {
        self.store != self.source
    }
}

/// The run of a trace again.
#[derive(Clone, Copy, Debug, PartialEq, Eq)]
pub struct ReplayJob<'a> {
    pub source: &'a str,
    /// The plant of a trace; segments have their rows.
    pub plant: Option<&'a str>,
    /// The trace or a segment, or a folder of segments.
    pub trace: &'a str,
    /// Whether a fault is explained.
    pub explain: bool,
}

/// The sizes of a source.
#[derive(Clone, Copy, Debug, PartialEq, Eq)]
pub struct CheckJob<'a> {
    pub source: &'a str,
    /// Whether a fault is explained.
    pub explain: bool,
}

/// The part of a retain file that is shown.
#[derive(Clone, Copy, Debug, PartialEq, Eq)]
pub enum View<'a> {
    /// The last record.
    Last,
    /// Both areas, one after the other.
    Both,
    /// The effect of a warm start of this source.
    Against(&'a str),
}

/// A look into a retain file.
#[derive(Clone, Copy, Debug, PartialEq, Eq)]
pub struct ShowJob<'a> {
    pub store: &'a str,
    pub view: View<'a>,
}

/// A picture of a run, from its trace.
#[derive(Debug)]
pub struct PlotJob<'a> {
    pub source: &'a str,
    /// The plant of a trace; segments have their rows.
    pub plant: Option<&'a str>,
    /// The trace or a segment, or a folder of segments.
    pub trace: &'a str,
    /// The file for the picture; the standard output if none is given.
    pub picture: Option<&'a str>,
    /// The paths of the variables that it shows; if there are none, the first variables are shown.
    pub paths: Vec<&'a str>,
}

impl Drop for PlotJob<'_> {
    fn drop(self) {
        let Self {
            source: _,
            plant: _,
            trace: _,
            picture: _,
            paths: _,
        } = self;
    }
}

impl PlotJob<'_> {
    ghost use Rattle.source_run.specs.Jobs.{has_own_picture};

    /// Whether the name of the file for the picture differs from that of each file that is read.
    pub fn has_own_picture(&self) -> bool
        ensures { result ≡ has_own_picture self.now }
    {
        match self.picture {
            Some(picture) => {
                let is_plant = match self.plant {
                    Some(plant) => plant == picture,
                    None => false,
                };
                picture != self.source && !is_plant && picture != self.trace
            }
            None => true,
        }
    }
}

/// The job that a command line asks for. Files go by their names.
#[derive(Debug)]
pub enum Job<'a> {
    /// The built-in configuration.
    First,
    Check(CheckJob<'a>),
    Run(RunJob<'a>),
    Live(LiveJob<'a>),
    Replay(ReplayJob<'a>),
    Show(ShowJob<'a>),
    Plot(PlotJob<'a>),
    /// The meaning of a code.
    Explain { code: &'a str },
}

impl Drop for Job<'_> {
    fn drop(self) {
        match self {
            Self::First
            | Self::Check(_)
            | Self::Run(_)
            | Self::Live(_)
            | Self::Replay(_)
            | Self::Show(_)
            | Self::Plot(_)
            | Self::Explain { code: _ } => {}
        }
    }
}
