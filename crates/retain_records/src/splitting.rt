//! Splitting bytes at a mark.

ghost use Rattle.std.specs.Prelude.{◌≡◌, ◌==◌, option_map, position};
ghost use Rattle.retain_records.specs.Splits.{split_at};

/// The bytes before the first such byte, and the bytes after it.
pub fn split_at(mark: u8, bytes: &[u8]) -> Option<(&[u8], &[u8])>
    ensures { option_map (λ p. (p.0.now, p.1.now)) result ≡ split_at mark bytes.now }
{
    let end = position_of(mark, bytes)?;
    Some((&bytes[..end], &bytes[end + 1..]))
}

fn position_of(mark: u8, bytes: &[u8]) -> Option<usize>
    ensures { result ≡ position (λ byte. byte == mark) bytes.now }
{
    bytes.iter().position(|byte| *byte == mark)
}
