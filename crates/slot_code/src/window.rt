//! The slots that code names.

ghost use Rattle.std.specs.Prelude.{◌≡◌, length};
ghost use Rattle.quick_trees.specs.Windows.{IsWindow};
ghost use Rattle.slot_code.specs.Windows.{window_of};

use crate::code::Code;

impl Code {
    /// The slots that the quick code names, in increasing order; none if there is no quick code.
    pub fn window(&self) -> &[usize]
        ensures window { result.now ≡ window_of self.now }
        ensures slots { IsWindow (length self.now.kinds.value.items) (window_of self.now) }
    {
        match &self.quick {
            Some(quick) => quick.window(),
            None => &[],
        }
    }
}
