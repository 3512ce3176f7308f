//! How long images and global ids may be.
ghost use Rattle.std.specs.Prelude.{◌↔◌, ◌≤◌, IsTrue};
ghost use Rattle.shore_analysis.specs.Sizes.{HasSizes};
ghost use Rattle.shore_types.specs.Images.{image_len};
ghost use Rattle.shore_types.specs.Versions.{record_limit};

use shore_model::Payload;
use shore_types::{Bytes, Version, images};

/// Whether the images and the global id that a record names are no longer than a version allows.
pub(crate) fn has_sizes(version: Version, payload: &Payload) -> bool
    ensures { IsTrue result ↔ HasSizes version payload.now }
{
    match payload {
        Payload::Change { before, after, .. } => {
            is_short(version, before) && is_short(version, after)
        }
        Payload::Compensation { after, .. } => is_short(version, after),
        Payload::Prepare { global, .. } => global.as_slice().len() <= version.global_limit(),
        Payload::Commit => true,
        Payload::End => true,
        Payload::RollbackDecided => true,
        Payload::CheckpointBegin => true,
        Payload::CheckpointEnd { .. } => true,
        Payload::Anchor { .. } => true,
    }
}

// Whether a record may be so long.
fn is_short(version: Version, image: &Option<Bytes>) -> bool
    ensures { IsTrue result ↔ (image_len image.now ≤ record_limit version) }
{
    match images::len_of(image) {
        Some(bytes) => bytes <= version.record_limit(),
        None => true,
    }
}
