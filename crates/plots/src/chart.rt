//! The contents of a chart.

/// Strips, one below the other, over one axis of moments.
pub struct Chart {
    /// Its subject.
    pub title: String,
    /// A further note, in small print.
    pub note: String,
    /// The moment in milliseconds at which the axis begins.
    pub begin: u64,
    /// The moment at which it ends; not before it begins.
    pub end: u64,
    pub strips: Vec<Strip>,
}

impl Drop for Chart {
    fn drop(self) {
        let Self {
            title: _,
            note: _,
            begin: _,
            end: _,
            strips: _,
        } = self;
    }
}

pub enum Strip {
    /// How a number changes.
    Line(Line),
    /// What happens, and when.
    Lanes(Lanes),
}

impl Drop for Strip {
    fn drop(self) {
        match self {
            Self::Line(_) | Self::Lanes(_) => {}
        }
    }
}

/// How a number changes: it stays as it is until the next point.
pub struct Line {
    pub label: String,
    pub shape: Shape,
    /// The numbers that are marked at the left, at most `MOST_LEVELS`.
    pub levels: Vec<Level>,
    /// In the order of their moments.
    pub points: Vec<Point>,
}

impl Drop for Line {
    fn drop(self) {
        let Self {
            label: _,
            shape: _,
            levels: _,
            points: _,
        } = self;
    }
}

#[derive(Clone, Copy, Debug, PartialEq, Eq)]
pub enum Shape {
    /// A line of steps.
    Steps,
    /// A low strip that is filled while the number is not the least.
    Band,
}

/// A number that is marked, and how it is spelled.
pub struct Level {
    pub number: i128,
    pub text: String,
}

impl Drop for Level {
    fn drop(self) {
        let Self { number: _, text: _ } = self;
    }
}

/// From this moment in milliseconds on the value is this number.
#[derive(Clone, Copy, Debug, PartialEq, Eq)]
pub struct Point {
    pub moment: u64,
    pub number: i128,
}

/// Lanes, one below the other.
pub struct Lanes {
    pub label: String,
    pub lanes: Vec<Lane>,
}

impl Drop for Lanes {
    fn drop(self) {
        let Self { label: _, lanes: _ } = self;
    }
}

/// Marks in the order of their moments.
pub struct Lane {
    pub label: String,
    pub marks: Vec<Mark>,
}

impl Drop for Lane {
    fn drop(self) {
        let Self { label: _, marks: _ } = self;
    }
}

/// Something that happened at a moment in milliseconds.
#[derive(Clone, Copy, Debug, PartialEq, Eq)]
pub struct Mark {
    pub moment: u64,
    pub sign: Sign,
    /// The word that is shown while the mouse is over it.
    pub word: &'static str,
}

#[derive(Clone, Copy, Debug, PartialEq, Eq)]
pub enum Sign {
    /// An upright line.
    Tick,
    /// A red cross.
    Cross,
    /// An orange triangle, below the others.
    Triangle,
}
