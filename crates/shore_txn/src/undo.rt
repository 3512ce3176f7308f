//! What a rollback puts back.
ghost use Rattle.std.specs.Prelude.{◌≡◌};
ghost use Rattle.shore_types.specs.Images.{image_len};

use shore_types::{Bytes, Lsn, Rid, images};

/// A change of a transaction under way.
#[derive(Drop)]
pub struct UndoEntry {
    /// The record that it changed.
    pub id: Rid,
    /// The number of its Change.
    pub lsn: Lsn,
    /// The image before the change; None if there was no record.
    pub before: Option<Bytes>,
    /// What the slot claimed before the change, in bytes: an undo lowers the claim to it again.
    pub claim: u16,
}

impl UndoEntry {
    /// The length of the image before the change, 0 if there was no record.
    pub fn image_len(&self) -> usize
        ensures { result ≡ image_len self.now.before }
    {
        images::bytes_in(&self.before)
    }
}
