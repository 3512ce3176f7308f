//! Images of records: the bytes of one, or that there is none.
ghost use Rattle.std.specs.Prelude.{◌≡◌, IfOk, length, option_map};
ghost use Rattle.shore_types.specs.Images.{image_len};

use crate::{Bytes, Sequence};
use std::alloc::{AllocError, Global};

/// How many bytes an image has; None if there is no record.
pub fn len_of(image: &Option<Bytes>) -> Option<usize>
    ensures { result ≡ option_map length image.now }
{
    match image {
        Some(bytes) => Some(bytes.as_slice().len()),
        None => None,
    }
}

/// How many bytes an image takes, 0 if there is no record.
pub fn bytes_in(image: &Option<Bytes>) -> usize
    ensures { result ≡ image_len image.now }
{
    match image {
        Some(bytes) => bytes.as_slice().len(),
        None => 0,
    }
}

/// The bytes of an image, lent.
pub fn bytes_of(image: &Option<Bytes>) -> Option<&[u8]>
    ensures { option_map (λ bytes. bytes.now) result ≡ image.now }
{
    match image {
        Some(bytes) => Some(bytes.as_slice()),
        None => None,
    }
}

/// A second image of the same bytes.
pub fn copy_of(alloc: Global, image: &Option<Bytes>) -> Result<Option<Bytes>, AllocError>
    ensures { IfOk result (λ copy. copy ≡ image.now) }
{
    match image {
        Some(bytes) => Ok(Some(bytes.try_clone(alloc)?)),
        None => Ok(None),
    }
}

/// An image of its own, of one that is lent.
pub fn owned(alloc: Global, image: Option<&[u8]>) -> Result<Option<Bytes>, AllocError>
    ensures { IfOk result (λ copy. copy ≡ option_map (λ bytes. bytes.now) image.entry) }
{
    match image {
        Some(bytes) => Ok(Some(copied(alloc, bytes)?)),
        None => Ok(None),
    }
}

/// A copy of bytes.
pub fn copied(alloc: Global, bytes: &[u8]) -> Result<Bytes, AllocError>
    ensures { IfOk result (λ copy. copy ≡ bytes.now) }
{
    Ok(Sequence::from_vec(Vec::from_slice(alloc, bytes)?))
}
