//! The program `plant`: its command line, read by clap, the real files and the standard outputs.
//!
//! It owns every job and the order of work. A report is printed after a run that ended well, and none beside a refusal,
//! unless the standard output fails half way. A live job prints its answers, and its report goes to the standard error.
#![tactic(auto)]

mod broken_rules;
mod built_in;
mod command;
mod ending;
mod explaining;
mod first_run;
mod live;
mod meaning;
mod number;
mod open_gate;
mod period;
mod plotting;
mod program;
mod reading;
mod replaying;
mod reporting;
mod segments;
mod showing;
mod sizes;
mod source_faults;

use program::plant;
use source_run::{Fault, RealFiles, write_fault};
use std::alloc::{AllocError, Global};
use std::fs::{File, OpenOptions};
use std::io::Write;
use std::process::ExitCode;
use std::rt::{Env, Files};
use std::{env, io};

/// The exit status if the words can't be read as text.
const NO_TEXT: u8 = 1;

/// More bytes of the stack than the deepest text takes, which needs up to 384 KiB.
const STACK_BYTES: usize = 512 * 1024;

/// Takes the room that the program needs on the stack before any memory, as programs under real-time conditions do. So if
/// there is no room for it, the program ends as it begins, and never within its work.
///
/// It writes a value there that no compiler knows, the first byte of the program's name, and reads it again, so that none
/// leaves it out.
#[inline(never)]
fn takes_stack<R: Env>(rt: &R) -> bool {
    let mut name = [0u8; 256];
    let _ = rt.arg(0, &mut name);
    let byte = name[0];
    let room = [byte; STACK_BYTES];
    room[byte as usize] == byte
}

/// The device that takes whatever is written, and is empty to a reader.
const NULL: &str = "/dev/null";

fn null<R: Files<File = File>>(rt: &R) -> Option<File> {
    OpenOptions::new()
        .read(true)
        .write(true)
        .open(rt, NULL)
        .ok()
}

/// Opens that device once for each standard stream, as long as the files are held. A stream that is closed leaves its number
/// free, and the next file that is opened would get it: the retain file, into which all that goes to the stream would be
/// written.
fn guards<R: Files<File = File>>(rt: &R) -> [Option<File>; 3] {
    [null(rt), null(rt), null(rt)]
}

fn words_of(alloc: Global, rt: &(impl Env + AllocGlobal)) -> io::Result<Vec<String>> {
    env::args(rt)?.collect(alloc).map_err(io::Error::from)
}

fn texts_of<'a>(alloc: Global, words: &'a [String]) -> Result<Vec<&'a str>, AllocError> {
    words.iter().map(|word| word.as_str()).collect(alloc)
}

/// Reports that there is no memory for the words, and gives the exit status.
fn no_memory<E: Write>(err: &mut E) -> u8 {
    let _ = write_fault(err, Fault::NO_MEMORY);
    Fault::NO_MEMORY.status()
}

/// Reports why there are no words, and gives the exit status.
fn no_words<E: Write>(error: &io::Error, err: &mut E) -> u8 {
    if error.kind() == io::ErrorKind::OutOfMemory {
        return no_memory(err);
    }
    let _ = writeln!(err, "error: the arguments aren't UTF-8");
    NO_TEXT
}

fn main(rt: HostRuntime) -> ExitCode {
    let _guards = guards(&rt);
    let alloc = rt.alloc();
    let mut out = rt.stdout();
    let mut err = rt.stderr();
    if !takes_stack(&rt) {
        return ExitCode::from(no_memory(&mut err));
    }
    let words = match words_of(alloc, &rt) {
        Ok(words) => words,
        Err(error) => return ExitCode::from(no_words(&error, &mut err)),
    };
    let status = match texts_of(alloc, &words) {
        Ok(texts) => {
            let mut files = RealFiles::new(&rt);
            plant(
                &rt,
                alloc,
                &texts,
                &mut files,
                rt.stdin(),
                &mut out,
                &mut err,
            )
            .status()
        }
        Err(_) => no_memory(&mut err),
    };
    ExitCode::from(status)
}
