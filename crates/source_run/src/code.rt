//! Codes.

ghost use Rattle.std.specs.Prelude.{◌≡◌, find, is_some, true};
ghost use Rattle.source_run.specs.Codes.{code_text};
ghost use Rattle.source_run.specs.ListedCodes.{codes_like, is_code};

/// A code that a refusal shows. `plant explain CODE` says what it means.
#[derive(Clone, Copy, Debug, PartialEq, Eq)]
pub enum Code {
    // Words of a text.
    L1,
    L2,
    L3,
    L4,
    L5,
    L6,
    // The grammar of a text.
    P1,
    P2,
    P3,
    // Rules on names and types, and C12 out of memory.
    C1,
    C2,
    C3,
    C4,
    C5,
    C6,
    C7,
    C8,
    C9,
    C10,
    C11,
    C12,
    C13,
    // The configuration, and the plan.
    G2,
    G3,
    G4,
    G5,
    G6,
    G7,
    G8,
    G9,
    // The size of the layout and of code.
    M1,
    M2,
    M3,
    // The source as a file.
    X1,
    // A plant.
    I1,
    I2,
    I3,
    I4,
    I5,
    I6,
    // A trace.
    V1,
    V2,
    V3,
    V4,
    V5,
    V6,
    V7,
    // The retain file.
    S1,
    S2,
    S3,
    S4,
    S5,
    S6,
    // A start.
    N2,
    // A call of the core.
    K1,
    K2,
    K3,
    K4,
    K5,
    K6,
    // Threads.
    H1,
    H2,
}

impl Code {
    /// Its letter and its number.
    pub fn text(self) -> &'static str
        ensures { result.now ≡ code_text self }
    {
        match self {
            Code::L1 => "L1",
            Code::L2 => "L2",
            Code::L3 => "L3",
            Code::L4 => "L4",
            Code::L5 => "L5",
            Code::L6 => "L6",
            Code::P1 => "P1",
            Code::P2 => "P2",
            Code::P3 => "P3",
            Code::C1 => "C1",
            Code::C2 => "C2",
            Code::C3 => "C3",
            Code::C4 => "C4",
            Code::C5 => "C5",
            Code::C6 => "C6",
            Code::C7 => "C7",
            Code::C8 => "C8",
            Code::C9 => "C9",
            Code::C10 => "C10",
            Code::C11 => "C11",
            Code::C12 => "C12",
            Code::C13 => "C13",
            Code::G2 => "G2",
            Code::G3 => "G3",
            Code::G4 => "G4",
            Code::G5 => "G5",
            Code::G6 => "G6",
            Code::G7 => "G7",
            Code::G8 => "G8",
            Code::G9 => "G9",
            Code::M1 => "M1",
            Code::M2 => "M2",
            Code::M3 => "M3",
            Code::X1 => "X1",
            Code::I1 => "I1",
            Code::I2 => "I2",
            Code::I3 => "I3",
            Code::I4 => "I4",
            Code::I5 => "I5",
            Code::I6 => "I6",
            Code::V1 => "V1",
            Code::V2 => "V2",
            Code::V3 => "V3",
            Code::V4 => "V4",
            Code::V5 => "V5",
            Code::V6 => "V6",
            Code::V7 => "V7",
            Code::S1 => "S1",
            Code::S2 => "S2",
            Code::S3 => "S3",
            Code::S4 => "S4",
            Code::S5 => "S5",
            Code::S6 => "S6",
            Code::N2 => "N2",
            Code::K1 => "K1",
            Code::K2 => "K2",
            Code::K3 => "K3",
            Code::K4 => "K4",
            Code::K5 => "K5",
            Code::K6 => "K6",
            Code::H1 => "H1",
            Code::H2 => "H2",
        }
    }
}

/// No two codes are written alike. A law.
pub fn codes_are_distinct()
    ensures { (a b : Code) → code_text a ≡ code_text b → a ≡ b }
{}

/// Each code has its entry among the explanations. A law.
pub fn each_code_is_explained()
    ensures { (code : Code) → is_some (find (is_code (code_text code)) (codes_like (code_text code))) ≡ true }
{}
