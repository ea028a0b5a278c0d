//! A label of a CASE by itself: its type (C3), its numbers (C4), or its name.

ghost use Rattle.std.specs.Prelude.{◌≡◌};
ghost use Rattle.st_meaning.specs.NameTypes.{Declared};
ghost use Rattle.st_rules.specs.Collecting.{Collects};
ghost use Rattle.st_rules.specs.LabelRules.{is_selected, wrong_label_number, wrong_label_value, wrong_label};
ghost use Rattle.symbols.specs.Enumerated.{reading_view};
ghost use Rattle.symbols.specs.Tables.{ServesTables};

use crate::kinds::kind_or_taken;
use crate::literals::wrong_number;
use crate::readings::wrong_reading;
use st_rules::{BrokenRules, Reason};
use st_types::{Kind, Label, Number};
use symbols::{Reading, TextTables};

/// Whether a label's type is the selector's, if that is known.
fn is_selected(selector: Option<Kind>, kind: Kind) -> bool
    ensures { result ≡ is_selected selector kind }
{
    match selector {
        Some(other) => other.is(kind),
        None => true,
    }
}

fn wrong_label_number(selector: Option<Kind>, number: &Number, broken: &mut BrokenRules)
    ensures { Collects (wrong_label_number selector number.now) broken.old broken.new }
{
    let kind = kind_or_taken(selector, number.written);
    broken.add_unless(
        is_selected(selector, kind),
        Reason::LabelType(selector, kind),
        number.place,
    );
    wrong_number(selector, number, broken);
}

fn wrong_label_value(
    selector: Option<Kind>,
    place: usize,
    reading: Reading,
    broken: &mut BrokenRules,
)
    ensures { Collects (wrong_label_value selector place (reading_view reading)) broken.old broken.new }
{
    match reading {
        Reading::Value(member) => broken.add_unless(
            is_selected(selector, member.kind),
            Reason::LabelType(selector, member.kind),
            place,
        ),
        _ => wrong_reading(place, reading, broken),
    }
}

/// Adds the faults in a label by itself: its type, its numbers, or its name.
pub fn wrong_label(
    tables: &TextTables,
    selector: Option<Kind>,
    label: &Label,
    broken: &mut BrokenRules,
)
    ensures { (text : Declared) → ServesTables tables.now text
        → Collects (wrong_label text selector label.now) broken.old broken.new }
{
    match label {
        Label::Single(number) => wrong_label_number(selector, number, broken),
        Label::Range(lower, upper) => {
            wrong_label_number(selector, lower, broken);
            wrong_label_number(selector, upper, broken);
        }
        Label::Enumerated(value) => {
            let reading = tables.reading_written(value);
            wrong_label_value(selector, value.place, reading, broken);
        }
    }
}
