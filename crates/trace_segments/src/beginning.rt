//! The first lines of a segment.

ghost use Rattle.std.specs.Prelude.{◌≡◌, ◌≤◌, ◌++◌, List, ℕ, IfOk, IfErr, option_map};
ghost use Rattle.st_types.specs.declared.limits.TheConstants.{MAX_BUDGET};
ghost use Rattle.trace.specs.Reads.{BeginsWith};
ghost use Rattle.trace_segments.specs.Segments.{begin_text};

use st_types::limits::MAX_BUDGET;
use trace::{ReplayError, after_words, first_field, first_number};

/// The budget in the first two lines, if they are of the format and it is 1 to 1,000,000.
fn budget(text: &[u8]) -> Option<(u32, &[u8])>
    ensures { BeginsWith (λ (n : ℕ). (1 ≤ n) × (n ≤ MAX_BUDGET)) begin_text text.now
        (option_map (λ p. (p.0, p.1.now)) result) }
{
    let field = after_words(text, b"trace 2\nbudget ")?;
    let (budget, rest) = first_number(b'\n', field)?;
    if budget < 1 || budget > MAX_BUDGET as u64 {
        return None;
    }
    Some((budget as u32, rest))
}

/// The budget of ticks in a segment: 1 to 1,000,000. V1 if its first lines are not of the format, or the number is another.
pub fn segment_budget(text: &[u8]) -> Result<u32, ReplayError>
    ensures told { IfOk result
        (λ n. (1 ≤ n) × (n ≤ MAX_BUDGET) × (rest : List ℕ) × (text.now ≡ begin_text n ++ rest)) }
    ensures form { IfErr result (λ error. (error ≡ ReplayError.Form) × ((n : ℕ) (rest : List ℕ) → 1 ≤ n → n ≤ MAX_BUDGET
        → text.now ≡ begin_text n ++ rest → ⊥)) }
{
    match budget(text) {
        Some((budget, _)) => Ok(budget),
        None => Err(ReplayError::Form),
    }
}

/// Whether the text is the first segment of a life.
pub fn is_first(text: &[u8]) -> bool {
    let Some(lines) = after_words(text, b"trace 2\nbudget ") else {
        return false;
    };
    match first_field(b'\n', lines) {
        Some((_, lines)) => lines.starts_with(b"segment 0\n"),
        None => false,
    }
}
