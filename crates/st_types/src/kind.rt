//! The elementary types, as one table.

ghost use Rattle.std.specs.Prelude.{◌≡◌};
ghost use Rattle.st_types.specs.Kinds.{least, greatest, same_kind};

/// An elementary type: the type of a variable.
///
/// IEC 61131-3:2003, table 10, without reals, texts and dates.
#[derive(Clone, Copy, Debug, PartialEq, Eq)]
pub enum Kind {
    Sint,
    Int,
    Dint,
    Lint,
    Usint,
    Uint,
    Udint,
    Ulint,
    Byte,
    Word,
    Dword,
    Lword,
    /// A signed count of milliseconds (our profile).
    Time,
    Bool,
    /// An enumerated type of a text. Its values are their places among its names, from 0.
    Enumerated {
        /// How many names it has, at least 1.
        names: u16,
        /// Its place among the enumerated types of the text, from 0.
        number: u32,
    },
}

/// The sort of an elementary type's values.
#[derive(Clone, Copy, Debug, PartialEq, Eq)]
pub enum Sort {
    /// Whole numbers in two's complement.
    Signed,
    /// Unsigned whole numbers.
    Unsigned,
    /// Bit strings, compared and converted as unsigned numbers.
    Bits,
    /// Signed milliseconds.
    Duration,
    /// FALSE, which counts as 0, and TRUE, which counts as 1.
    Truth,
    /// Places of names.
    Place,
}

/// A line of the table of elementary types.
#[derive(Clone, Copy, Debug, PartialEq, Eq)]
pub struct KindRow {
    /// The type's keyword, in upper case.
    pub keyword: &'static str,
    pub sort: Sort,
    /// The width in bits: 1, 8, 16, 32 or 64.
    pub bits: u8,
}

impl Kind {
    ghost use Rattle.st_types.specs.KindRows.{IsTableRowOf};

    /// All elementary types, in the order of the table of types.
    pub const ALL: [Kind; 14] = [
        Kind::Sint,
        Kind::Int,
        Kind::Dint,
        Kind::Lint,
        Kind::Usint,
        Kind::Uint,
        Kind::Udint,
        Kind::Ulint,
        Kind::Byte,
        Kind::Word,
        Kind::Dword,
        Kind::Lword,
        Kind::Time,
        Kind::Bool,
    ];

    /// The type's line of the table.
    pub fn row(self) -> KindRow
        ensures { IsTableRowOf self result }
    {
        let (keyword, sort, bits) = match self {
            Kind::Sint => ("SINT", Sort::Signed, 8),
            Kind::Int => ("INT", Sort::Signed, 16),
            Kind::Dint => ("DINT", Sort::Signed, 32),
            Kind::Lint => ("LINT", Sort::Signed, 64),
            Kind::Usint => ("USINT", Sort::Unsigned, 8),
            Kind::Uint => ("UINT", Sort::Unsigned, 16),
            Kind::Udint => ("UDINT", Sort::Unsigned, 32),
            Kind::Ulint => ("ULINT", Sort::Unsigned, 64),
            Kind::Byte => ("BYTE", Sort::Bits, 8),
            Kind::Word => ("WORD", Sort::Bits, 16),
            Kind::Dword => ("DWORD", Sort::Bits, 32),
            Kind::Lword => ("LWORD", Sort::Bits, 64),
            Kind::Time => ("TIME", Sort::Duration, 64),
            Kind::Bool => ("BOOL", Sort::Truth, 1),
            Kind::Enumerated { .. } => ("", Sort::Place, 8),
        };
        KindRow {
            keyword,
            sort,
            bits,
        }
    }

    /// The least number that a value of the type may be.
    pub fn least(self) -> i128
        ensures { result ≡ least self }
    {
        match self {
            Kind::Sint => i8::MIN as i128,
            Kind::Int => i16::MIN as i128,
            Kind::Dint => i32::MIN as i128,
            Kind::Lint | Kind::Time => i64::MIN as i128,
            _ => 0,
        }
    }

    /// The greatest number that a value of the type may be.
    pub fn greatest(self) -> i128
        ensures { result ≡ greatest self }
    {
        match self {
            Kind::Sint => i8::MAX as i128,
            Kind::Int => i16::MAX as i128,
            Kind::Dint => i32::MAX as i128,
            Kind::Lint | Kind::Time => i64::MAX as i128,
            Kind::Usint | Kind::Byte => u8::MAX as i128,
            Kind::Uint | Kind::Word => u16::MAX as i128,
            Kind::Udint | Kind::Dword => u32::MAX as i128,
            Kind::Ulint | Kind::Lword => u64::MAX as i128,
            Kind::Bool => 1,
            Kind::Enumerated { names, .. } => i128::from(names.saturating_sub(1)),
        }
    }

    /// Whether the two are one type.
    pub fn is(self, other: Kind) -> bool
        ensures { result ≡ same_kind self other }
    {
        self == other
    }
}
