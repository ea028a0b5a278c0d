//! Samples of SINGLE.

ghost use Rattle.std.specs.Prelude.{◌≡◌, length, map, slice_get};
ghost use Rattle.st_meaning.specs.Plans.{is_on};
ghost use Rattle.core_engine.specs.Samples.{sample_at, sample_task};

use plan::{Task, Trigger};
use st_types::Value;

/// Whether a BOOL is there and TRUE.
fn is_on(values: &[Value], slot: usize) -> bool
    ensures { result ≡ is_on (slice_get values.now slot) }
{
    match values.get(slot) {
        Some(value) => value.is_true(),
        None => false,
    }
}

fn sample(values: &[Value], image: &[Value], trigger: Trigger) -> bool
    ensures { result ≡ sample_at values.now image.now trigger }
{
    match trigger {
        Trigger::Absent => false,
        Trigger::Input(i) => is_on(image, i),
        Trigger::Variable(k) => is_on(values, k),
    }
}

/// Samples the SINGLE of each task.
pub fn sample_all(tasks: &[Task], values: &[Value], image: &[Value], samples: &mut Vec<bool>)
    requires { length samples.old.items ≡ length tasks.now }
    ensures { samples.new.items ≡ map (sample_task values.now image.now) tasks.now }
{
    for t in 0..tasks.len() {
        samples[t] = sample(values, image, tasks[t].single);
    }
}
