//! All rules of the language that a text breaks.

ghost use Rattle.std.specs.Prelude.{◌⊎◌, IfOk};
ghost use Rattle.std.specs.List.{Contains};
ghost use Rattle.st_types.specs.Sources as trees;
ghost use Rattle.st_rules.specs.declared.rule.Broken.{Broken};
ghost use Rattle.st_rules.specs.Collecting.{Keeps};
ghost use Rattle.st_rules.specs.Rules.{Breaks};
ghost use Rattle.st_check.specs.Complete.{CoversText};
ghost use Rattle.config.specs.Texts.{IsTextOf};

use crate::build_error::BuildError;
use st_check::judge_all;
use st_lex::lex;
use st_parse::parse;
use st_rules::BrokenRules;
use std::alloc::Global;

/// Adds the rules of the language that a text breaks (C1 to C11, C13), until there is no room. It is refused if the text has no
/// tokens or no tree (L1 to L6, P1 to P3), or if memory runs out; what was found until then stays.
pub fn add_broken_rules(
    alloc: Global,
    text: &[u8],
    broken: &mut BrokenRules,
) -> Result<(), BuildError>
    // The text breaks each that is added.
    ensures keeps { Keeps broken.old broken.new }
    ensures true_ones { (b : Broken) → Contains broken.new.found.items b
        → Contains broken.old.found.items b ⊎ ((source : trees.Source) × IsTextOf text.now source × Breaks source b) }
    // If there was room, they are all that it breaks.
    ensures all { IfOk result
        (λ done. (source : trees.Source) × IsTextOf text.now source × CoversText source broken.new) }
{
    let tokens = lex(alloc, text)?;
    let source = parse(alloc, &tokens)?;
    judge_all(alloc, &source, broken)?;
    Ok(())
}
