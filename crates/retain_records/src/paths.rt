//! Paths of a layout text, by the offsets where their lines begin.

ghost use Rattle.std.specs.Prelude.{◌≡◌, ◌≤◌, length, map};
ghost use Rattle.std.specs.Vec.{vec_capacity};
ghost use Rattle.std.specs.List.Sorted.{IsPermutation, IsSortedByKey};
ghost use Rattle.std.specs.Cmp.Lexicographic.{slice_cmp};
ghost use Rattle.std.specs.Ordering.{nat_cmp};
ghost use Rattle.retain_records.specs.declared.sizes.TheConstants.{MAX_LINES};
ghost use Rattle.retain_records.specs.Reading.{are_distinct, neighbours_differ, path_from};

use crate::sizes::MAX_LINES;
use crate::splitting::split_at;
use std::alloc::{AllocError, Global};

/// Room for the offsets of the lines of any layout text, in bytes. It serves for reading a record, and its content
/// before that doesn't count.
#[derive(Drop)]
pub struct LineRoom {
    pub(crate) starts: Vec<u32>,

    ghost room: { MAX_LINES ≤ vec_capacity starts },
}

impl LineRoom {
    /// It allocates once; `AllocError` if that fails.
    pub fn new(alloc: Global) -> Result<LineRoom, AllocError> {
        Ok(LineRoom {
            starts: Vec::with_capacity(alloc, MAX_LINES)?,
        })
    }
}

/// Whether no two of the lines that begin at these offsets have the same path. It sorts the offsets by their paths, in
/// n log n steps for n lines, and allocates nothing.
pub(crate) fn are_distinct(text: &[u8], starts: &mut [u32]) -> bool
    ensures { result ≡ are_distinct (map (path_from text.now) starts.old) }
{
    sort(text, starts);
    neighbours_differ(text, starts)
}

fn sort(text: &[u8], starts: &mut [u32])
    ensures permutation { IsPermutation starts.old starts.new }
    ensures sorted { IsSortedByKey (path_from text.now) (slice_cmp nat_cmp) starts.new }
{
    starts.sort_unstable_by(|a, b| path_from(text, *a).cmp(path_from(text, *b)));
}

fn neighbours_differ(text: &[u8], starts: &[u32]) -> bool
    ensures { result ≡ neighbours_differ (map (path_from text.now) starts.now) }
{
    let mut last: Option<&[u8]> = None;
    for start in starts {
        let path = path_from(text, *start);
        if last == Some(path) {
            return false;
        }
        last = Some(path);
    }
    true
}

/// The path of the line that begins at this offset, or nothing if there is none.
fn path_from(text: &[u8], start: u32) -> &[u8]
    ensures { result.now ≡ path_from text.now start }
{
    let line = text.get(start as usize..).unwrap_or(&[]);
    match split_at(b' ', line) {
        Some((path, _)) => path,
        None => &[],
    }
}
