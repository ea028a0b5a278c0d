//! The stack of a run.

ghost use Rattle.std.specs.Prelude.{◌≡◌, ◌<◌, ◌≤◌, [], ◌∷◌, ◌++◌, drop, take, length, reverse, MatchOption, OnOk};
ghost use Rattle.std.specs.Prelude.{IfSome, IfNone};
ghost use Rattle.slot_machine.specs.Steps.{AreTops, IsPopped, IsPushed, IsTop};

use crate::stop::Stop;
use st_types::{Fault, Value};
use std::alloc::{AllocError, Global};
use std::marker::Model;

/// Values, the topmost of them first.
pub struct Stack {
    values: Vec<Value>,
}

impl Drop for Stack {
    fn drop(self) {
        let Self { values: _ } = self;
    }
}

impl Model for Stack {
    ghost use Rattle.std.specs.Prelude.{List, reverse};
    ghost use Rattle.st_types.specs.Values.{Datum};

    ghost Value = { List Datum };

    ghost view = { λ s. reverse s.values.items };
}

impl Stack {
    /// No values.
    pub fn new(alloc: Global) -> Stack
        ensures { result ≡ [] }
    {
        Stack {
            values: Vec::new(alloc),
        }
    }

    /// Puts a value on top.
    #[inline(always)]
    fn push_value(&mut self, value: Value) -> Result<(), AllocError>
        ensures { OnOk result (self.new ≡ value ∷ self.old) }
    {
        self.values.push(value)?;
        Ok(())
    }

    /// Takes the topmost value.
    #[inline(always)]
    pub fn take(&mut self) -> Option<Value>
        ensures { MatchOption result ((self.old ≡ []) × (self.new ≡ [])) (λ v. self.old ≡ v ∷ self.new) }
    {
        self.values.pop()
    }

    /// Takes the topmost value; F4 if there is none.
    #[inline(always)]
    pub fn pop(&mut self) -> Result<Value, Stop>
        ensures { IsPopped result self.old self.new }
    {
        match self.take() {
            Some(value) => Ok(value),
            None => Err(Stop::Fault(Fault::Conversion)),
        }
    }

    /// The topmost value, which stays; F4 if there is none.
    #[inline(always)]
    #[tactic(auto, using(crate::proofs::Looking::top_is))]
    pub fn top(&self) -> Result<Value, Stop>
        ensures { IsTop result self.now }
    {
        match self.tops(1) {
            Some([value]) => Ok(*value),
            _ => Err(Stop::Fault(Fault::Conversion)),
        }
    }

    /// The two topmost values, which stay, the topmost of them first; F4 if there are fewer.
    #[inline(always)]
    #[tactic(auto, using(crate::proofs::Looking::tops_are))]
    pub fn two_tops(&self) -> Result<(Value, Value), Stop>
        ensures { AreTops result self.now }
    {
        match self.tops(2) {
            Some([below, value]) => Ok((*value, *below)),
            _ => Err(Stop::Fault(Fault::Conversion)),
        }
    }

    /// Puts a value on top.
    #[inline(always)]
    pub fn push(&mut self, value: Value) -> Result<(), Stop>
        ensures { IsPushed result value self.old self.new }
    {
        match self.push_value(value) {
            Ok(()) => Ok(()),
            Err(_) => Err(Stop::Memory),
        }
    }

    /// The topmost values, the lowest of them first, if there are `n`.
    #[inline(always)]
    pub fn tops(&self, n: u16) -> Option<&[Value]>
        ensures some { IfSome result (λ xs. xs.now ≡ reverse (take n self.now)) }
        ensures enough { IfSome result (λ xs. n ≤ length self.now) }
        ensures none { IfNone result (length self.now < n) }
    {
        if (n as usize) > self.values.len() {
            return None;
        }
        let start = self.values.len() - n as usize;
        Some(&self.values[start..])
    }

    /// Takes `n` values away, or all.
    #[inline(always)]
    #[tactic(auto, using(crate::proofs::Tops::fewer))]
    pub fn pop_many(&mut self, n: u16)
        ensures { self.new ≡ drop n self.old }
    {
        let kept = self.values.len().saturating_sub(n as usize);
        self.values.truncate(kept);
    }

    /// Reverses the topmost values, if there are `n`.
    pub fn reverse_top(&mut self, n: u16) -> Option<()>
        ensures some { IfSome result (λ u. self.new ≡ reverse (take n self.old) ++ drop n self.old) }
        ensures enough { IfSome result (λ u. n ≤ length self.old) }
        ensures none { IfNone result (length self.old < n) }
    {
        if (n as usize) > self.values.len() {
            return None;
        }
        let start = self.values.len() - n as usize;
        turn_from(&mut self.values, start);
        Some(())
    }
}

/// Reverses the values from a place on.
fn turn_from(values: &mut [Value], start: usize)
    requires { start ≤ length values.old }
    ensures { values.new ≡ take start values.old ++ reverse (drop start values.old) }
{
    values[start..].reverse();
}
