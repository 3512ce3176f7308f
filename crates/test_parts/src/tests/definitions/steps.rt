//! Steps of a run, as lines have them: parted by `;`.
use super::words::Words;
use std::alloc::{AllocError, Global};

/// What is read off words.
pub(super) trait Step: Drop {
    fn read(alloc: Global, words: &mut Words) -> Self;
}

/// Adds the steps of a line. It answers whether the line is right.
pub(super) fn add<S: Step>(
    alloc: Global,
    steps: &mut Vec<S>,
    line: &str,
) -> Result<bool, AllocError> {
    if is_blank(line) {
        return Ok(true);
    }
    for part in line.split(';') {
        let mut words = Words::of(part);
        steps.push(S::read(alloc, &mut words))?;
        if !words.end() {
            return Ok(false);
        }
    }
    Ok(true)
}

pub(super) fn is_blank(line: &str) -> bool {
    line.split_whitespace().next().is_none()
}

/// A remark, which says nothing.
pub(super) fn is_remark(line: &str) -> bool {
    line.starts_with('#')
}
