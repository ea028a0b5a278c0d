//! The memory of a run: the values of the slots, and a mark for each.

ghost use Rattle.std.specs.Prelude.{◌≡◌, IfNone, IfSome, List};
ghost use Rattle.st_types.specs.Values.{IsHeld};
ghost use Rattle.machine_code.specs.declared.mark.Mark as mark;
ghost use Rattle.machine_code.specs.Tracking.{tracking, tracked, with_mark, seen, assigned};
ghost use Rattle.slot_memory.specs.TrackedMemories.{found_in, put_in};

use machine_code::Mark;
use st_types::Value;

/// Marks that a slot was looked up.
#[inline(always)]
pub fn mark_seen(marks: &mut [Mark], slot: usize)
    ensures { marks.new ≡ with_mark seen marks.old slot }
{
    if slot < marks.len() {
        let mark = marks[slot];
        if !mark.is_read && !mark.is_assigned {
            marks[slot] = Mark {
                is_read: true,
                is_assigned: false,
            };
        }
    }
}

/// Marks that a slot was assigned.
#[inline(always)]
pub fn mark_assigned(marks: &mut [Mark], slot: usize)
    ensures { marks.new ≡ with_mark assigned marks.old slot }
{
    if slot < marks.len() {
        let mark = marks[slot];
        marks[slot] = Mark {
            is_read: mark.is_read,
            is_assigned: true,
        };
    }
}

/// The value of a slot, if there is one.
#[inline(always)]
pub fn look(values: &[Value], marks: &mut [Mark], slot: usize) -> Option<Value>
    ensures looks { tracking.look (tracked values.now marks.old) slot ≡ found_in result (tracked values.now marks.new) }
    ensures none { IfNone result (marks.new ≡ marks.old) }
    ensures held { IfSome result (λ v. IsHeld v) }
{
    if slot >= values.len() {
        return None;
    }
    let found = values[slot];
    let _number = found.number();
    mark_seen(marks, slot);
    Some(found)
}

/// Assigns a value to a slot that has one of its type, if there is one.
#[inline(always)]
pub fn put(values: &mut [Value], marks: &mut [Mark], slot: usize, value: Value) -> Option<()>
    ensures puts { tracking.put (tracked values.old marks.old) slot value
        ≡ put_in result (tracked values.new marks.new) }
    ensures none { IfNone result (tracked values.new marks.new ≡ tracked values.old marks.old) }
{
    if slot >= values.len() {
        return None;
    }
    let _number = value.number();
    if !values[slot].kind().is(value.kind()) {
        return None;
    }
    values[slot] = value;
    mark_assigned(marks, slot);
    Some(())
}

/// The value of a slot, if there is one, which is not marked yet.
#[inline(always)]
pub fn peek(values: &[Value], slot: usize) -> Option<Value>
    ensures looks { (marks : List mark.Mark) → tracking.look (tracked values.now marks) slot
        ≡ found_in result (tracked values.now (with_mark seen marks slot)) }
    ensures held { IfSome result (λ v. IsHeld v) }
{
    if slot >= values.len() {
        return None;
    }
    let value = values[slot];
    let _number = value.number();
    Some(value)
}

/// Marks that a slot was looked up, and then assigns a value to it, if it has one of its type.
#[inline(always)]
pub fn put_seen(values: &mut [Value], marks: &mut [Mark], slot: usize, value: Value) -> Option<()>
    ensures puts { tracking.put (tracked values.old (with_mark seen marks.old slot)) slot value
        ≡ put_in result (tracked values.new marks.new) }
    ensures none { IfNone result (tracked values.new marks.new
        ≡ tracked values.old (with_mark seen marks.old slot)) }
{
    if slot >= values.len() {
        mark_seen(marks, slot);
        return None;
    }
    let _number = value.number();
    if !values[slot].kind().is(value.kind()) {
        mark_seen(marks, slot);
        return None;
    }
    // the slot is written before the marks, so that its type need not be read again
    values[slot] = value;
    mark_seen(marks, slot);
    mark_assigned(marks, slot);
    Some(())
}

/// Puts a value into a slot, if there is one, whatever was there.
#[inline(always)]
pub fn reset(values: &mut [Value], marks: &mut [Mark], slot: usize, value: Value) -> Option<()>
    ensures resets { tracking.reset (tracked values.old marks.old) slot value
        ≡ put_in result (tracked values.new marks.new) }
    ensures none { IfNone result (tracked values.new marks.new ≡ tracked values.old marks.old) }
{
    if slot >= values.len() {
        return None;
    }
    values[slot] = value;
    mark_assigned(marks, slot);
    Some(())
}
