//! Text within a picture.

ghost use Rattle.std.specs.Prelude.{◌≡◌, OnOk, true};
ghost use Rattle.std.specs.List.{list_all};
ghost use Rattle.std.specs.Io.KnownBytes.{Appends};
ghost use Rattle.plots.specs.Texts.{escaped, escaped_byte, is_harmless};

use std::io;
use std::io::Write;

fn write_byte<W: Write>(out: &mut W, byte: u8) -> io::Result<()>
    ensures { OnOk result (Appends (W.contents out.old) (W.contents out.new) (escaped_byte byte)) }
{
    match byte {
        b'&' => out.write_all(b"&amp;"),
        b'<' => out.write_all(b"&lt;"),
        b'>' => out.write_all(b"&gt;"),
        b'"' => out.write_all(b"&quot;"),
        b'\'' => out.write_all(b"&apos;"),
        0..=31 => out.write_all(b"?"),
        _ => {
            let alone = [byte];
            out.write_all(alone.as_slice())
        }
    }
}

#[tactic(auto, using(crate::proofs::TextLemmas::all_harmless))]
/// Writes a text as XML spells it, so that it shows as it is, whatever it contains; a control character shows as `?`.
pub fn write_text<W: Write>(out: &mut W, text: &str) -> io::Result<()>
    ensures spelled { OnOk result (Appends (W.contents out.old) (W.contents out.new) (escaped text.now)) }
    ensures harmless { list_all is_harmless (escaped text.now) ≡ true }
{
    for byte in text.as_bytes() {
        write_byte(out, *byte)?;
    }
    Ok(())
}
