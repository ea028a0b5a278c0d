//! The view of a fault, with the finding from the tree of its text.

ghost use Rattle.std.specs.Prelude.{◌≡◌, List, ℕ, true, OnOk};
ghost use Rattle.std.specs.List.{list_all};
ghost use Rattle.std.specs.Io.KnownBytes.{Appends};
ghost use Rattle.diagnostics.specs.Pages.{is_shown};

use crate::fault::SourceFault;
use crate::reasoning::{broken_rule_reason, reason};
use crate::spelling::Text;
use crate::viewing::view_of;
use st_lex::lex;
use st_parse::parse;
use st_rules::Broken;
use std::alloc::Global;
use std::io;
use std::io::Write;

/// Writes the view of the fault of a text for a person: this code of it with a sentence that says what is wrong, its place,
/// the line there with a caret under the place, and a hint if there is one. The source is called by a name.
///
/// The finding comes from the text once more, in a time that grows as that of judging it does. If no more is certain, the
/// sentence says what the code means. After an error of the device, or out of memory, a part of the view is written.
pub fn write_reason<W: Write>(
    alloc: Global,
    out: &mut W,
    name: &str,
    text: &[u8],
    code: &str,
    fault: SourceFault,
) -> io::Result<()>
    // The bytes written are printable characters, TABs and LFs alone.
    ensures { OnOk result ((shown : List ℕ) × (list_all is_shown shown ≡ true)
        × Appends (W.contents out.old) (W.contents out.new) shown) }
{
    let finding = reason(alloc, text, fault)?;
    let page = view_of(alloc, name, text, code, fault, finding)?;
    out.write_all(page.as_slice())
}

/// Writes the view of a broken rule.
fn write_rule<W: Write>(out: &mut W, name: &str, text: Text, broken: Broken) -> io::Result<()>
    ensures { OnOk result ((shown : List ℕ) × (list_all is_shown shown ≡ true)
        × Appends (W.contents out.old) (W.contents out.new) shown) }
{
    let finding = broken_rule_reason(text, broken)?;
    let reason = broken.reason;
    let code = format!(in text.alloc; "{reason}")?;
    let fault = SourceFault::Rule(broken);
    let page = view_of(text.alloc, name, text.bytes, &code, fault, finding)?;
    out.write_all(page.as_slice())
}

/// Writes the views of rules that a text breaks, as `write_reason` writes the view of one, but reads the text only once more for
/// all of them. Nothing is written of a text that has no tree.
pub fn write_rules<W: Write>(
    alloc: Global,
    out: &mut W,
    name: &str,
    text: &[u8],
    broken: &[Broken],
) -> io::Result<()>
    ensures { OnOk result ((shown : List ℕ) × (list_all is_shown shown ≡ true)
        × Appends (W.contents out.old) (W.contents out.new) shown) }
{
    let Ok(tokens) = lex(alloc, text) else {
        return Ok(());
    };
    let Ok(source) = parse(alloc, &tokens) else {
        return Ok(());
    };
    let read = Text {
        alloc,
        bytes: text,
        tokens: &tokens,
        source: &source,
    };
    for one in broken {
        write_rule(out, name, read, *one)?;
    }
    Ok(())
}
