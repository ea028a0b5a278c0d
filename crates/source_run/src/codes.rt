//! The codes, by their letters.

ghost use Rattle.std.specs.Prelude.{◌≡◌, map};
ghost use Rattle.source_run.specs.ListedCodes.{code_bytes, codes_with};

mod configurations;
mod cores;
mod faults;
mod grammar;
mod plants;
mod rules;
mod sizes;
mod sources;
mod starts;
mod stores;
mod threads;
mod traces;
mod words;

use crate::entry::Explanation;
use configurations::configuration_codes;
use cores::core_codes;
use faults::fault_codes;
use grammar::grammar_codes;
use plants::plant_codes;
use rules::rule_codes;
use sizes::size_codes;
use sources::source_codes;
use starts::start_codes;
use stores::store_codes;
use threads::thread_codes;
use traces::trace_codes;
use words::word_codes;

/// The explanations of the codes with this letter, in upper case.
pub fn explanations(letter: u8) -> &'static [Explanation]
    ensures { map code_bytes result.now ≡ codes_with letter }
{
    match letter {
        b'L' => word_codes(),
        b'P' => grammar_codes(),
        b'C' => rule_codes(),
        b'G' => configuration_codes(),
        b'M' => size_codes(),
        b'X' => source_codes(),
        b'I' => plant_codes(),
        b'V' => trace_codes(),
        b'S' => store_codes(),
        b'N' => start_codes(),
        b'K' => core_codes(),
        b'H' => thread_codes(),
        b'F' => fault_codes(),
        _ => &[],
    }
}
