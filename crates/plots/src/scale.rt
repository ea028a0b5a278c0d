//! Numbers on a line.

ghost use Rattle.std.specs.Prelude.{◌≡◌, ◌≤◌, ◌<◌, ◌^◌, ◌-ℤ◌, ◌≤ℤ◌, ℤ, unsigned_abs};
ghost use Rattle.plots.specs.Shares.{share};

/// The share of a length that corresponds to a part of a whole; the half if the whole is 0.
fn share(part: u128, whole: u128, length: u32) -> u32
    requires part { part ≤ whole }
    requires short { whole < 2 ^ 96 }
    ensures share { result ≡ share part whole length }
    ensures within { result ≤ length }
{
    if whole == 0 {
        return length / 2;
    }
    (part * u128::from(length) / whole) as u32
}

/// The numbers between two bounds, spread over a line.
#[derive(Clone, Copy, Debug, PartialEq, Eq)]
pub struct Scale {
    least: i128,
    span: u128,
    ghost short: { span < 2 ^ 96 },
}

/// No two numbers of a scale are further apart.
const WIDEST: u128 = (1 << 96) - 1;

impl Scale {
    ghost use Rattle.plots.specs.Places.{place_on};

    /// The scale from one number to another that isn't less. Numbers of 64 bits are near enough: one that is 2^96 or more
    /// above the least counts as the greatest.
    pub fn over(least: i128, greatest: i128) -> Scale
        ensures least { result.least ≡ least }
        ensures span { unsigned_abs (least -ℤ greatest) < 2 ^ 96 → result.span ≡ unsigned_abs (least -ℤ greatest) }
    {
        Scale {
            least,
            span: least.abs_diff(greatest).min(WIDEST),
        }
    }

    /// How far from its beginning the number lies on a line of this length: the least at 0, the greatest at its end. A
    /// number that is out of bounds lies at the nearer end.
    pub fn place(&self, number: i128, length: u32) -> u32
        ensures place { result ≡ place_on self.now number length }
        ensures within { result ≤ length }
        ensures rises { (other : ℤ) → other ≤ℤ number → place_on self.now other length ≤ result }
    {
        let part = number.max(self.least).abs_diff(self.least).min(self.span);
        share(part, self.span, length)
    }
}
