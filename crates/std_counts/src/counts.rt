//! Counts of CTU, CTD and CTUD.

ghost use Rattle.std.specs.Prelude.{◌≡◌};
ghost use Rattle.st_meaning.specs.StandardBlocks.{one_up, one_down, counted, up_count, down_count, up_down_count};

use st_types::Kind;

/// One more, but not past the end of INT.
fn one_up(z: i128) -> i128
    ensures { result ≡ one_up z }
{
    if z < Kind::Int.greatest() { z + 1 } else { z }
}

/// One less, but not past the end of INT.
fn one_down(z: i128) -> i128
    ensures { result ≡ one_down z }
{
    if Kind::Int.least() < z { z - 1 } else { z }
}

/// The next count of a counter that is neither reset nor loaded. Two edges at once count nothing.
fn counted(up: bool, down: bool, z: i128) -> i128
    ensures { result ≡ counted up down z }
{
    if up && down {
        z
    } else if up {
        one_up(z)
    } else if down {
        one_down(z)
    } else {
        z
    }
}

/// The next count of an up counter: 0 if it is reset.
pub fn up_count(reset: bool, up: bool, z: i128) -> i128
    ensures { result ≡ up_count reset up z }
{
    if reset { 0 } else { counted(up, false, z) }
}

/// The next count of a down counter: its preset if it is loaded.
pub fn down_count(load: bool, preset: i128, down: bool, z: i128) -> i128
    ensures { result ≡ down_count load preset down z }
{
    if load {
        preset
    } else {
        counted(false, down, z)
    }
}

/// The next count of an up and down counter: a reset goes before a load, and that before edges.
pub fn up_down_count(reset: bool, load: bool, preset: i128, up: bool, down: bool, z: i128) -> i128
    ensures { result ≡ up_down_count reset load preset up down z }
{
    if reset {
        0
    } else if load {
        preset
    } else {
        counted(up, down, z)
    }
}
