//! Pages that are shown to a person.

ghost use Rattle.std.specs.Prelude.{◌≡◌, true};
ghost use Rattle.std.specs.List.{list_all};
ghost use Rattle.diagnostics.specs.Pages as pages;

use std::alloc::{AllocError, Global};
use std::marker::Model;

/// A page for a person: printable ASCII characters, TABs and LFs. Contracts see its bytes.
#[derive(Drop)]
pub struct Page {
    bytes: Vec<u8>,
}

impl Model for Page {
    ghost use Rattle.std.specs.Prelude.{List, ℕ, ◌≡◌, true};
    ghost use Rattle.std.specs.List.{list_all};
    ghost use Rattle.diagnostics.specs.Pages.{is_shown};

    ghost Value = { List ℕ };

    ghost view = { λ p. p.bytes.items };

    ghost invariant = { λ p. list_all is_shown p.bytes.items ≡ true };
}

/// A byte as a terminal may show it: `?` for one that is not printable.
fn printable(byte: u8) -> u8
    ensures { pages.is_printable result ≡ true }
{
    if 32 <= byte && byte <= 126 {
        byte
    } else {
        b'?'
    }
}

/// Whether it is a byte of a character after its first one.
fn is_continuation(byte: u8) -> bool {
    128 <= byte && byte <= 191
}

impl Page {
    /// An empty page.
    pub fn new(alloc: Global) -> Page {
        Page {
            bytes: Vec::new(alloc),
        }
    }

    /// Its bytes.
    pub fn as_slice(&self) -> &[u8]
        ensures same { result.now ≡ self.now }
        ensures shown { list_all pages.is_shown result.now ≡ true }
    {
        self.bytes.as_slice()
    }

    fn push(&mut self, byte: u8) -> Result<(), AllocError>
        requires { pages.is_shown byte ≡ true }
    {
        self.bytes.push(byte)?;
        Ok(())
    }

    /// Ends the line.
    pub fn end_line(&mut self) -> Result<(), AllocError> {
        self.push(b'\n')
    }

    /// Appends a text. A character that is not printable shows as `?`, also one of several bytes.
    pub fn put(&mut self, text: &[u8]) -> Result<(), AllocError> {
        for byte in text {
            if !is_continuation(*byte) {
                self.push(printable(*byte))?;
            }
        }
        Ok(())
    }

    /// Appends a part of a line as it is, with its TABs.
    pub fn put_line(&mut self, line: &[u8]) -> Result<(), AllocError> {
        for byte in line {
            match *byte {
                b'\t' => self.push(b'\t')?,
                other => self.push(printable(other))?,
            }
        }
        Ok(())
    }

    /// Appends a blank for each byte of a line's part, and a TAB for a TAB, so that the next character is under the byte
    /// after that part.
    pub fn put_below(&mut self, line: &[u8]) -> Result<(), AllocError> {
        for byte in line {
            match *byte {
                b'\t' => self.push(b'\t')?,
                _ => self.push(b' ')?,
            }
        }
        Ok(())
    }

    /// Appends a character `count` times.
    pub fn repeat(&mut self, character: u8, count: usize) -> Result<(), AllocError> {
        for _ in 0..count {
            self.push(printable(character))?;
        }
        Ok(())
    }
}
