//! Edges of inputs.

ghost use Rattle.std.specs.Prelude.{◌≡◌, not};
ghost use Rattle.st_meaning.specs.StandardBlocks.{edge};

/// Whether the input is TRUE, and its memory is not.
pub fn edge(input: bool, memory: bool) -> bool
    ensures { result ≡ edge input memory }
{
    input && !memory
}

/// Whether the input of F_TRIG is FALSE, and its memory, which starts FALSE, is not TRUE.
pub fn falls(input: bool, memory: bool) -> bool
    ensures { result ≡ edge (not input) memory }
{
    edge(!input, memory)
}
