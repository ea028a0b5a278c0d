//! Parts of a text.

/// The bytes from one offset to another; none if these are out of order or beyond the text.
pub fn part(text: &[u8], from: usize, to: usize) -> &[u8] {
    if from <= to && to <= text.len() {
        &text[from..to]
    } else {
        &[]
    }
}

/// A word as text.
pub fn shown(word: &[u8]) -> &str {
    match str::from_utf8(word) {
        Ok(text) => text,
        Err(_) => "?",
    }
}

fn is_in_word(byte: u8) -> bool {
    byte.is_ascii_alphanumeric() || byte == b'_' || byte == b'#'
}

/// How many bytes the name or literal in front has; 0 if there is none.
pub fn word_length(text: &[u8]) -> usize {
    match text {
        [b'%', behind @ ..] => behind
            .iter()
            .take_while(|b| is_in_word(**b))
            .count()
            .saturating_add(1),
        _ => text.iter().take_while(|b| is_in_word(**b)).count(),
    }
}

/// The name or literal in front.
pub fn word_in_front(text: &[u8]) -> &[u8] {
    part(text, 0, word_length(text))
}
