//! Code that is being made.

ghost use Rattle.std.specs.Prelude.{◌≡◌, ◌≢◌, ◌<◌, ◌≤◌, ◌+◌, [], length, OnOk, IfErr};
ghost use Rattle.machine_code.specs.declared.limits.TheConstants.{MAX_INSTRUCTIONS};
ghost use Rattle.machine_code.specs.Growing.{◌◂◌, closed};

use crate::compile_error::CompileError;
use machine_code::{Instr, MAX_INSTRUCTIONS};
use std::alloc::Global;
use std::marker::Model;

/// Code from its end on: the instruction that runs first is put last. It has at most `MAX_INSTRUCTIONS` instructions.
pub struct Draft {
    code: Vec<Instr>,
}

impl Drop for Draft {
    fn drop(self) {
        let Self { code: _ } = self;
    }
}

impl Model for Draft {
    ghost use Rattle.std.specs.Prelude.{List, length, ◌≤◌};
    ghost use Rattle.machine_code.specs.declared.instr.Instr as instr;
    ghost use Rattle.machine_code.specs.declared.limits.TheConstants.{MAX_INSTRUCTIONS};

    ghost Value = { List instr.Instr };

    ghost view = { λ d. d.code.items };

    ghost invariant = { λ d. length d.code.items ≤ MAX_INSTRUCTIONS };
}

impl Draft {
    /// No instructions.
    pub fn new(alloc: Global) -> Draft
        ensures { result ≡ [] }
    {
        Draft {
            code: Vec::new(alloc),
        }
    }

    /// How many instructions there are.
    pub fn len(&self) -> u16
        ensures count { result ≡ length self.now }
        ensures few { result ≤ MAX_INSTRUCTIONS }
    {
        self.code.len() as u16
    }

    /// Puts an instruction before the others.
    pub fn put(&mut self, instr: Instr) -> Result<(), CompileError>
        ensures put { OnOk result (self.new ≡ self.old ◂ instr) }
        ensures long { OnOk result (length self.new ≡ 1 + length self.old) }
        ensures wrong { IfErr result (λ e. e ≢ CompileError.NotLinked) }
        ensures full { IfErr result (λ e. e ≡ CompileError.TooManyInstructions
            → MAX_INSTRUCTIONS < 1 + length self.old) }
        ensures room { IfErr result (λ e. e ≢ CompileError.TooManyPlaces) }
    {
        if self.code.len() >= MAX_INSTRUCTIONS {
            return Err(CompileError::TooManyInstructions);
        }
        match self.code.push(instr) {
            Ok(()) => Ok(()),
            Err(_) => Err(CompileError::OutOfMemory),
        }
    }

    /// Makes the jump back at a place lead to the instruction that is now the first.
    pub fn close(&mut self, at: u16)
        requires { at < length self.old }
        ensures closed { self.new ≡ closed at self.old }
        ensures long { length self.new ≡ length self.old }
    {
        self.code[at as usize] = Instr::LoopBack(self.code.len() as u16);
    }

    /// The instructions.
    pub fn into_instructions(self) -> Vec<Instr>
        ensures same { result.items ≡ self }
        ensures few { length result.items ≤ MAX_INSTRUCTIONS }
    {
        let Self { code } = self;
        code
    }
}
