//! The memory with which a run begins.

ghost use Rattle.std.specs.Prelude.{◌≡◌, IfOk, replicate};
ghost use Rattle.slot_run.specs.Runs.{memory_over};
ghost use Rattle.slot_code.specs.Quick.{unmarked};

use machine_code::Mark;
use st_types::Value;
use std::alloc::{AllocError, Global};

/// The values of the slots, and FALSE `extra` times after them.
pub fn memory_over(alloc: Global, values: &[Value], extra: usize) -> Result<Vec<Value>, AllocError>
    ensures { IfOk result (λ memory. memory.items ≡ memory_over values.now extra) }
{
    let mut memory = Vec::new(alloc);
    memory.extend_from_slice(values)?;
    let falses = vec![in alloc; Value::from_bool(false); extra]?;
    memory.extend_from_slice(&falses)?;
    Ok(memory)
}

/// `count` marks that nothing is read or assigned.
pub fn unmarked(alloc: Global, count: usize) -> Result<Vec<Mark>, AllocError>
    ensures { IfOk result (λ marks. marks.items ≡ replicate count unmarked) }
{
    vec![in alloc; Mark {
        is_read: false,
        is_assigned: false
    }; count]
}
