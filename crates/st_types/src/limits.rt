//! The limits that several crates share, each in one place. Definitions and code take them from here.

ghost use Rattle.std.specs.Prelude.{◌≡◌, ◌^◌};

/// The longest source text in bytes.
pub const MAX_SOURCE_BYTES: usize = 1_048_576;

/// The longest name in characters.
pub const MAX_NAME_LENGTH: usize = 64;

/// The greatest depth of an expression, a statement or an initial value. A leaf has depth 1.
pub const MAX_DEPTH: usize = 64;

/// The most resources of a configuration.
pub const MAX_RESOURCES: usize = 8;

/// The most tasks of one resource.
pub const MAX_TASKS: usize = 32;

/// The greatest number of a PRIORITY, which runs last. The least is 0.
pub const MAX_PRIORITY: u64 = 65_535;

/// How many single bits are addressed as inputs, and as outputs: `%IX0` to `%IX1023`.
pub const BIT_ADDRESSES: u64 = 1_024;

/// How many words are addressed as inputs, and as outputs: `%IW0` to `%IW255`.
pub const WORD_ADDRESSES: u64 = 256;

/// The most program instances of a configuration.
pub const MAX_PROGRAMS: usize = 64;

/// The most paths of a layout, inputs included.
pub const MAX_PATHS: usize = 4_096;

/// The greatest budget of an execution in ticks. The least is 1.
pub const MAX_BUDGET: u32 = 1_000_000;

/// Every moment in milliseconds is less than this: 2 to the power of 62.
pub const MOMENT_LIMIT: u64 = 4_611_686_018_427_387_904;

/// The most rows of a recorded plant.
pub const MAX_ROWS: usize = 10_000;

/// The most entries that a log has room for.
pub const MAX_LOG_ROOM: usize = 65_536;

/// The longest body of a record of a retain file in bytes.
pub const MAX_RECORD_BODY: usize = 131_059;

/// The limits are these numbers. A law.
pub fn limits_of_texts_and_runs()
    ensures source_bytes { MAX_SOURCE_BYTES ≡ 1048576 }
    ensures name_length { MAX_NAME_LENGTH ≡ 64 }
    ensures depth { MAX_DEPTH ≡ 64 }
    ensures resources { MAX_RESOURCES ≡ 8 }
    ensures tasks { MAX_TASKS ≡ 32 }
    ensures priority { MAX_PRIORITY ≡ 65535 }
    ensures bit_addresses { BIT_ADDRESSES ≡ 1024 }
    ensures word_addresses { WORD_ADDRESSES ≡ 256 }
    ensures programs { MAX_PROGRAMS ≡ 64 }
    ensures paths { MAX_PATHS ≡ 4096 }
    ensures budget { MAX_BUDGET ≡ 1000000 }
    ensures moment { MOMENT_LIMIT ≡ 2 ^ 62 }
    ensures rows { MAX_ROWS ≡ 10000 }
    ensures log_room { MAX_LOG_ROOM ≡ 65536 }
    ensures record_body { MAX_RECORD_BODY ≡ 131059 }
{}
