//! Tables of words. The case of letters is not significant.

ghost use Rattle.std.specs.Prelude.{◌≡◌, map};
ghost use Rattle.std.specs.Str.{str_eq_ignore_ascii_case};
ghost use Rattle.st_lex.specs.Tables as tables;

/// The two are one word.
pub fn same_word(this: &[u8], that: &[u8]) -> bool
    ensures { result ≡ str_eq_ignore_ascii_case this.now that.now }
{
    this.eq_ignore_ascii_case(that)
}

/// The entry for the word in a table; none if the table has no such word.
pub fn lookup<T: Copy>(mut table: &[(&[u8], T)], word: &[u8]) -> Option<T>
    ensures { result ≡ tables.lookup (map (λ row. (row.0.now, row.1)) table.entry.now) word.now }
{
    while let [row, rows @ ..] = table {
        if same_word(row.0, word) {
            return Some(row.1);
        }
        table = rows;
    }
    None
}
