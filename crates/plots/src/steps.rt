//! The steps of an axis.

ghost use Rattle.std.specs.Prelude.{◌≡◌, ◌≤◌, ◌<◌, ◌*◌, ◌/◌, ◌^◌, ℕ};
ghost use Rattle.plots.specs.Steps.{IsRound};

/// The first of 1, 2, 5, 10 and so on times `unit` of which the span has at most `most`.
fn step_from(unit: u128, span: u64, most: u64) -> u128
    requires some { 0 < most }
    requires unit { 0 < unit }
    requires power { (k : ℕ) × (unit ≡ 10 ^ k) }
    requires small { unit < 2 ^ 65 }
    ensures few { span / result ≤ most }
    ensures round { IsRound result }
{
    let (span_wide, most_wide) = (u128::from(span), u128::from(most));
    if span_wide / unit <= most_wide {
        unit
    } else if span_wide / (unit * 2) <= most_wide {
        unit * 2
    } else if span_wide / (unit * 5) <= most_wide {
        unit * 5
    } else {
        step_from(unit * 10, span, most)
    }
}

/// The least of 1, 2, 5, 10, 20, 50 and so on of which a span has at most `most`.
pub fn round_step(span: u64, most: u64) -> u128
    requires some { 0 < most }
    ensures few { span / result ≤ most }
    ensures round { IsRound result }
{
    step_from(1, span, most)
}
