//! The slots that have words, word by word.

ghost use Rattle.std.specs.Prelude.{◌≡◌, ◌<◌, ◌+◌, ℕ, IsTrue, Some, slice_get};
ghost use Rattle.quick_trees.specs.Windows.{IsWindow};

use std::alloc::{AllocError, Global};

/// Whether the slot at an index is below `count`, and after the one before it.
fn is_next(window: &[usize], index: usize, count: usize) -> bool
    ensures inside { IsTrue result → (k : ℕ) → slice_get window.now index ≡ Some k → k < count }
    ensures behind { IsTrue result → (u j k : ℕ) → index ≡ u + 1 → slice_get window.now u ≡ Some j
        → slice_get window.now index ≡ Some k → j < k }
{
    let Some(slot) = window.get(index) else {
        return false;
    };
    if *slot >= count {
        return false;
    }
    match index.checked_sub(1) {
        Some(before) => match window.get(before) {
            Some(there) => *there < *slot,
            None => false,
        },
        None => true,
    }
}

/// Whether slots are in increasing order, and below `count`.
pub fn is_window(window: &[usize], count: usize) -> bool
    ensures { IsTrue result → IsWindow count window.now }
{
    let mut index = 0;
    while index < window.len() {
        if !is_next(window, index, count) {
            return false;
        }
        index += 1;
    }
    true
}

/// The word of each slot that has one, among `count` slots. No promise is made of it: code that takes a word from it looks
/// at the window again.
pub fn words_by_slot(
    alloc: Global,
    window: &[usize],
    count: usize,
) -> Result<Vec<u16>, AllocError> {
    let mut words = vec![in alloc; 0; count]?;
    let mut index = 0;
    while index < window.len() {
        put_word(&mut words, window[index], index);
        index += 1;
    }
    Ok(words)
}

/// A slot has a word.
fn put_word(words: &mut [u16], slot: usize, word: usize) {
    if slot >= words.len() {
        return;
    }
    if let Ok(word) = u16::try_from(word) {
        words[slot] = word;
    }
}
