//! The fate of a variable at a warm start.

ghost use Rattle.std.specs.Prelude.{◌≡◌, OnOk};
ghost use Rattle.std.specs.Io.KnownBytes.{Appends};
ghost use Rattle.retain_show.specs.Against.{changes_of, changes_shown, count_of, count_shown, fate_by, is_fate, word_of};

use std::io;
use std::io::Write;

/// The fate of a retained variable at a warm start.
#[derive(Clone, Copy, Debug, PartialEq, Eq, Drop)]
pub enum Fate {
    /// It takes the value of its line.
    Carried,
    /// The record has no line of its path: it takes its initial value.
    New,
    /// The record has its path with another type: it takes its initial value.
    Retyped,
}

impl Fate {
    /// The fate of a variable by whether it has a line of its own, and whether a line has its path.
    pub(crate) fn by(has_own: bool, has_path: bool) -> Fate
        ensures { result ≡ fate_by has_own has_path }
    {
        if has_own {
            Fate::Carried
        } else if has_path {
            Fate::Retyped
        } else {
            Fate::New
        }
    }

    /// Its word, and a blank.
    pub(crate) fn word(self) -> &'static [u8]
        ensures { result.now ≡ word_of self }
    {
        match self {
            Fate::Carried => b"carried ",
            Fate::New => b"new ",
            Fate::Retyped => b"retyped ",
        }
    }

    fn is(self, other: Fate) -> bool
        ensures { result ≡ is_fate self other }
    {
        match (self, other) {
            (Fate::Carried, Fate::Carried)
            | (Fate::New, Fate::New)
            | (Fate::Retyped, Fate::Retyped) => { true }
            _ => false,
        }
    }
}

/// How many of the retained variables of a text a warm start carries over and how many not, and how many lines of the
/// record it drops.
#[derive(Clone, Copy, Debug, PartialEq, Eq)]
pub struct Changes {
    /// Variables that take the value of their line.
    pub carried: usize,
    /// Variables whose path the record doesn't have: they take their initial value.
    pub new: usize,
    /// Variables whose path the record has with another type: they take their initial value.
    pub retyped: usize,
    /// Lines of the record whose path none of the variables has.
    pub dropped: usize,
}

/// How many of them are this fate.
fn count_of(fate: Fate, fates: &[Fate]) -> usize
    ensures { result ≡ count_of fate fates.now }
{
    fates.iter().filter(|other| fate.is(**other)).count()
}

/// Writes a count and the word after it.
fn write_count<W: Write>(out: &mut W, count: usize, word: &str) -> io::Result<()>
    ensures { OnOk result (Appends (W.contents out.old) (W.contents out.new) (count_shown count word.now)) }
{
    write!(out, "{count}{word}")
}

impl Changes {
    /// How many there are of each among these variables, with the number of lines that are dropped.
    pub(crate) fn of(fates: &[Fate], dropped: usize) -> Changes
        ensures { result ≡ changes_of fates.now dropped }
    {
        Changes {
            carried: count_of(Fate::Carried, fates),
            new: count_of(Fate::New, fates),
            retyped: count_of(Fate::Retyped, fates),
            dropped,
        }
    }

    /// Writes them as one line.
    pub(crate) fn write<W: Write>(&self, out: &mut W) -> io::Result<()>
        ensures { OnOk result (Appends (W.contents out.old) (W.contents out.new) (changes_shown self.now)) }
    {
        write_count(out, self.carried, " carried, ")?;
        write_count(out, self.new, " new, ")?;
        write_count(out, self.retyped, " retyped, ")?;
        write_count(out, self.dropped, " dropped\n")
    }
}
