//! Rollbacks that are under way.

/// A rollback that has begun and is not complete: of all changes, or down to a savepoint.
#[derive(Clone, Copy)]
pub enum Rollback {
    Whole,
    To(usize),
}
