//! How long a record of the variables is.

ghost use Rattle.std.specs.Prelude.{◌≡◌, ◌≤◌, length};
ghost use Rattle.st_types.specs.declared.limits.TheConstants.{MAX_PATHS};
ghost use Rattle.st_types.specs.Kinds.{width_of};
ghost use Rattle.st_meaning.specs.Layouts.{Enumerations, layout_text, record_length, values_length};

use st_meaning::PlanVariable;
use st_types::Kind;

/// How many bytes a value of the type takes.
#[tactic(auto, using(crate::proofs::RecordLemmas::width_small))]
fn width_of(kind: Kind) -> usize
    ensures exact { result ≡ width_of kind }
    ensures small { result ≤ 8 }
{
    (usize::from(kind.row().bits) + 7) / 8
}

/// How many bytes the values of a record take.
fn values_length(variables: &[PlanVariable]) -> usize
    requires few { length variables.now ≤ MAX_PATHS }
    ensures exact { result ≡ values_length variables.now }
    ensures small { result ≤ 32768 }
{
    let mut total = 0;
    for i in 0..variables.len() {
        if variables[i].retained {
            total += width_of(variables[i].initial.kind());
        }
    }
    total
}

/// The length in bytes of the body of a record of these variables, with this layout text.
pub fn record_length(text: &[u8], variables: &[PlanVariable]) -> usize
    requires few { length variables.now ≤ MAX_PATHS }
    ensures { (types : Enumerations) → text.now ≡ layout_text types variables.now
        → result ≡ record_length types variables.now }
{
    12 + text.len() + values_length(variables)
}
