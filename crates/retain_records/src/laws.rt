//! Laws of the spelling of records. The functions do nothing: their contracts are the laws.

ghost use Rattle.std.specs.Prelude.{◌≡◌, ℕ, List, Some, length};
ghost use Rattle.st_types.specs.Values.{Datum};
ghost use Rattle.st_types.specs.Kinds.{width_of};
ghost use Rattle.retain_records.specs.Records.{Content, IsRecord, value_bytes};
ghost use Rattle.retain_records.specs.Reading.{decoded};
ghost use Rattle.retain_records.specs.FieldLaws.{IsBytes};

/// Bytes are decoded to a content exactly when they are a record of it. So a content has one spelling, and a spelling
/// has one content.
pub fn records_have_one_spelling()
    ensures decoded { (body : List ℕ) (c : Content) → IsRecord body c → decoded body ≡ Some c }
    ensures recorded { (body : List ℕ) (c : Content) → IsBytes body → decoded body ≡ Some c → IsRecord body c }
    ensures one_spelling { (a b : List ℕ) (c : Content) → IsRecord a c → IsRecord b c → a ≡ b }
    ensures one_content { (body : List ℕ) (c d : Content) → IsRecord body c → IsRecord body d → c ≡ d }
{}

/// A value takes as many bytes as its type's width says.
pub fn values_have_their_width()
    ensures { (d : Datum) → length (value_bytes d) ≡ width_of d.kind }
{}
