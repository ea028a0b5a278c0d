//! The view of a fault.

ghost use Rattle.std.specs.Prelude.{◌≡◌, true, IfOk};
ghost use Rattle.std.specs.List.{list_all};
ghost use Rattle.diagnostics.specs.Pages.{is_shown};

use crate::excerpt::put_excerpt;
use crate::fault::SourceFault;
use crate::finding::Finding;
use crate::page::Page;
use crate::position::position_of;
use std::alloc::{AllocError, Global};

/// Appends the line that says what is wrong.
fn put_head(page: &mut Page, code: &str, sentence: &str) -> Result<(), AllocError> {
    page.put(b"error[")?;
    page.put(code.as_bytes())?;
    page.put(b"]: ")?;
    page.put(sentence.as_bytes())?;
    page.end_line()
}

/// Appends the place of the fault, and the line there.
fn put_place(
    alloc: Global,
    page: &mut Page,
    name: &str,
    text: &[u8],
    place: usize,
) -> Result<usize, AllocError> {
    let position = position_of(text, place);
    let (line, column) = (position.line, position.column);
    let number = format!(in alloc; "{line}")?;
    let column = format!(in alloc; "{column}")?;
    let margin = number.len();
    page.repeat(b' ', margin)?;
    page.put(b"--> ")?;
    page.put(name.as_bytes())?;
    page.put(b":")?;
    page.put(number.as_bytes())?;
    page.put(b":")?;
    page.put(column.as_bytes())?;
    page.end_line()?;
    put_excerpt(page, text, position, number.as_bytes())?;
    Ok(margin)
}

fn put_name(page: &mut Page, name: &str) -> Result<(), AllocError> {
    page.put(b"--> ")?;
    page.put(name.as_bytes())?;
    page.end_line()
}

fn put_help(page: &mut Page, margin: usize, help: &str) -> Result<(), AllocError> {
    page.repeat(b' ', margin)?;
    page.put(b" = help: ")?;
    page.put(help.as_bytes())?;
    page.end_line()
}

fn put_finding(
    alloc: Global,
    page: &mut Page,
    name: &str,
    text: &[u8],
    finding: &Finding,
) -> Result<(), AllocError> {
    let margin = match finding.place {
        Some(place) => put_place(alloc, page, name, text, place)?,
        None => {
            put_name(page, name)?;
            0
        }
    };
    match &finding.help {
        Some(help) => put_help(page, margin, help),
        None => Ok(()),
    }
}

/// The view of the fault of a text for a person: this code of it with a sentence that says what is wrong, its place, the
/// line there with a caret under the place, and a hint if there is one. The source is called by a name. The only error is
/// out of memory.
pub fn view_of(
    alloc: Global,
    name: &str,
    text: &[u8],
    code: &str,
    fault: SourceFault,
    finding: Finding,
) -> Result<Page, AllocError>
    ensures { IfOk result (λ page. list_all is_shown page ≡ true) }
{
    let finding = match fault.place() {
        Some(place) => finding.at(place),
        None => finding,
    };
    let mut page = Page::new(alloc);
    put_head(&mut page, code, &finding.sentence)?;
    put_finding(alloc, &mut page, name, text, &finding)?;
    Ok(page)
}
