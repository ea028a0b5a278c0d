//! Members of an instance, which are in consecutive slots.

ghost use Rattle.std.specs.Prelude.{◌≡◌, ◌+◌, ◌<◌, ◌≤◌, ◌∷◌, [], length, option_map, IfOk, IfErr, Some, None, false};
ghost use Rattle.st_types.specs.declared.fault.Fault.TheVariants.{Conversion};
ghost use Rattle.st_types.specs.Kinds.{holds};
ghost use Rattle.slot_trees.specs.SlotExecution.{stored_at};
ghost use Rattle.std_blocks.specs.Members.{values_from, all_stored, Leaves};

use st_types::{Fault, Kind, Value};

type Six = (Value, Value, Value, Value, Value, Value);

type Ten = (
    Value,
    Value,
    Value,
    Value,
    Value,
    Value,
    Value,
    Value,
    Value,
    Value,
);

/// The values of `count` slots from one on; F4 if they don't exist.
#[inline(always)]
#[tactic(auto, using(crate::proofs::MemberLemmas::values_there, crate::proofs::MemberLemmas::values_beyond))]
fn members(slots: &[Value], at: usize, count: usize) -> Result<&[Value], Fault>
    requires { 0 < count }
    ensures there { IfOk result (λ r. values_from slots.now at count ≡ Some r.now) }
    ensures within { IfOk result (λ r. at + count ≤ length slots.now) }
    ensures beyond { IfErr result (λ f. values_from slots.now at count ≡ None) }
    ensures fault { IfErr result (λ f. f ≡ Conversion) }
    ensures count { IfOk result (λ r. length r.now ≡ count) }
{
    if at > slots.len() || count > slots.len() - at {
        return Err(Fault::Conversion);
    }
    Ok(&slots[at..at + count])
}

/// The three values from a slot on; F4 if they don't exist.
#[inline(always)]
pub fn three_members(slots: &[Value], at: usize) -> Result<(Value, Value, Value), Fault>
    ensures there { IfOk result (λ r. values_from slots.now at 3 ≡ Some (r.0 ∷ r.1 ∷ r.2 ∷ [])) }
    ensures within { IfOk result (λ r. at + 3 ≤ length slots.now) }
    ensures beyond { IfErr result (λ f. values_from slots.now at 3 ≡ None) }
    ensures fault { IfErr result (λ f. f ≡ Conversion) }
{
    let m = members(slots, at, 3)?;
    Ok((m[0], m[1], m[2]))
}

/// The six values from a slot on; F4 if they don't exist.
#[inline(always)]
pub fn six_members(slots: &[Value], at: usize) -> Result<Six, Fault>
    ensures there { IfOk result (λ r. values_from slots.now at 6
        ≡ Some (r.0 ∷ r.1 ∷ r.2 ∷ r.3 ∷ r.4 ∷ r.5 ∷ [])) }
    ensures within { IfOk result (λ r. at + 6 ≤ length slots.now) }
    ensures beyond { IfErr result (λ f. values_from slots.now at 6 ≡ None) }
    ensures fault { IfErr result (λ f. f ≡ Conversion) }
{
    let m = members(slots, at, 6)?;
    Ok((m[0], m[1], m[2], m[3], m[4], m[5]))
}

/// The ten values from a slot on; F4 if they don't exist.
#[inline(always)]
pub fn ten_members(slots: &[Value], at: usize) -> Result<Ten, Fault>
    ensures there { IfOk result (λ r. values_from slots.now at 10
        ≡ Some (r.0 ∷ r.1 ∷ r.2 ∷ r.3 ∷ r.4 ∷ r.5 ∷ r.6 ∷ r.7 ∷ r.8 ∷ r.9 ∷ [])) }
    ensures within { IfOk result (λ r. at + 10 ≤ length slots.now) }
    ensures beyond { IfErr result (λ f. values_from slots.now at 10 ≡ None) }
    ensures fault { IfErr result (λ f. f ≡ Conversion) }
{
    let m = members(slots, at, 10)?;
    Ok((m[0], m[1], m[2], m[3], m[4], m[5], m[6], m[7], m[8], m[9]))
}

/// The number as a value of a type; F4 if the type does not hold it.
pub fn held_value(kind: Kind, number: i128) -> Result<Value, Fault>
    ensures is { IfOk result (λ v. v ≡ record { kind = kind; number = number }) }
    ensures none { IfErr result (λ f. holds kind number ≡ false) }
    ensures fault { IfErr result (λ f. f ≡ Conversion) }
{
    match Value::new(kind, number) {
        Ok(value) => Ok(value),
        Err(_) => Err(Fault::Conversion),
    }
}

/// Assigns a value to a slot; F4 if that is of another type.
#[inline(always)]
#[tactic(auto, using(crate::proofs::MemberLemmas::stored_where, crate::proofs::MemberLemmas::not_stored))]
fn put(slots: &mut [Value], at: usize, value: Value) -> Result<(), Fault>
    requires { at < length slots.old }
    ensures { Leaves result (stored_at slots.old at value) slots.new }
{
    if !slots[at].kind().is(value.kind()) {
        return Err(Fault::Conversion);
    }
    slots[at] = value;
    Ok(())
}

/// Assigns a value to a slot; F4 if that is of another type.
#[inline(always)]
#[tactic(auto, unfolding(crate::specs::Members::all_stored))]
fn put_one(slots: &mut [Value], at: usize, a: Value) -> Result<(), Fault>
    requires { at + 1 ≤ length slots.old }
    ensures { Leaves result (all_stored slots.old at (a ∷ [])) slots.new }
{
    put(slots, at, a)?;
    Ok(())
}

/// Assigns two values to the slots from one on; F4 if one is of another type.
#[inline(always)]
#[tactic(auto, unfolding(crate::specs::Members::all_stored))]
fn put_two(slots: &mut [Value], at: usize, a: Value, b: Value) -> Result<(), Fault>
    requires { at + 2 ≤ length slots.old }
    ensures { Leaves result (all_stored slots.old at (a ∷ b ∷ [])) slots.new }
{
    put(slots, at, a)?;
    put_one(slots, at + 1, b)
}

/// Assigns three values to the slots from one on; F4 if one is of another type.
#[inline(always)]
#[tactic(auto, unfolding(crate::specs::Members::all_stored))]
fn put_three(slots: &mut [Value], at: usize, a: Value, b: Value, c: Value) -> Result<(), Fault>
    requires { at + 3 ≤ length slots.old }
    ensures { Leaves result (all_stored slots.old at (a ∷ b ∷ c ∷ [])) slots.new }
{
    put(slots, at, a)?;
    put_two(slots, at + 1, b, c)
}

/// Assigns four values to the slots from one on; F4 if one is of another type.
#[inline(always)]
#[tactic(auto, unfolding(crate::specs::Members::all_stored))]
fn put_four(
    slots: &mut [Value],
    at: usize,
    a: Value,
    b: Value,
    c: Value,
    d: Value,
) -> Result<(), Fault>
    requires { at + 4 ≤ length slots.old }
    ensures { Leaves result (all_stored slots.old at (a ∷ b ∷ c ∷ d ∷ [])) slots.new }
{
    put(slots, at, a)?;
    put_three(slots, at + 1, b, c, d)
}

/// Assigns five values to the slots from one on; F4 if one is of another type.
#[inline(always)]
#[tactic(auto, unfolding(crate::specs::Members::all_stored))]
fn put_five(
    slots: &mut [Value],
    at: usize,
    a: Value,
    b: Value,
    c: Value,
    d: Value,
    e: Value,
) -> Result<(), Fault>
    requires { at + 5 ≤ length slots.old }
    ensures { Leaves result (all_stored slots.old at (a ∷ b ∷ c ∷ d ∷ e ∷ [])) slots.new }
{
    put(slots, at, a)?;
    put_four(slots, at + 1, b, c, d, e)
}

/// Assigns six values to the slots from one on; F4 if one is of another type.
#[inline(always)]
#[tactic(auto, unfolding(crate::specs::Members::all_stored))]
fn put_six(
    slots: &mut [Value],
    at: usize,
    a: Value,
    b: Value,
    c: Value,
    d: Value,
    e: Value,
    f: Value,
) -> Result<(), Fault>
    requires { at + 6 ≤ length slots.old }
    ensures { Leaves result (all_stored slots.old at (a ∷ b ∷ c ∷ d ∷ e ∷ f ∷ [])) slots.new }
{
    put(slots, at, a)?;
    put_five(slots, at + 1, b, c, d, e, f)
}

/// Assigns the values to the slots from one on, one after another; F4 if one is of another type.
#[tactic(auto, unfolding(crate::specs::Members::all_stored))]
fn put_each(slots: &mut [Value], at: usize, values: &[Value]) -> Result<(), Fault>
    requires { at + length values.now ≤ length slots.old }
    ensures { Leaves result (all_stored slots.old at values.now) slots.new }
{
    let Some((first, rest)) = values.split_first() else {
        return Ok(());
    };
    put(slots, at, *first)?;
    put_each(slots, at + 1, rest)
}

/// Assigns the values to the slots from one on; F4 if one is of another type.
#[inline(always)]
pub fn put_all(slots: &mut [Value], at: usize, values: &[Value]) -> Result<(), Fault>
    requires { at + length values.now ≤ length slots.old }
    ensures { Leaves result (all_stored slots.old at values.now) slots.new }
{
    match values {
        [a, b, c] => put_three(slots, at, *a, *b, *c),
        [a, b, c, d, e, f] => put_six(slots, at, *a, *b, *c, *d, *e, *f),
        _ => put_each(slots, at, values),
    }
}
