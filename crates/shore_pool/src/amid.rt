//! How far a batch is that is on its way to the volume.

/// How many of the four syncs of a batch are made.
#[derive(Clone, Copy, PartialEq)]
pub enum Amid {
    /// None, or all: no batch is under way.
    Rest,
    /// Its images are in the area, behind a shut gate. Nothing of it counts.
    Written,
    /// The gate is open: the volume shows its pages.
    Opened,
    /// They are in place.
    Placed,
}
