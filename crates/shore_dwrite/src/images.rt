//! The pages of a batch, with their texts one behind another, as one write takes them.
ghost use Rattle.std.specs.Prelude.{◌≡◌, ◌*◌, ◌+◌, ◌++◌, ◌∷◌, [], ◌<◌, ◌↔◌, ℕ, All, Contains, IsTrue, length, IfOk, IsOk, OnOk, OnErr};
ghost use Rattle.shore_types.specs.declared.layout.Geometry.{Geometry};
ghost use Rattle.shore_types.specs.declared.layout.TheConstants.{MAX_BATCH_PAGES};
ghost use Rattle.shore_types.specs.Versions.{page_bytes};
ghost use Rattle.shore_dwrite.specs.Shown.{IsBatchSoFar};
ghost use Rattle.shore_dwrite.specs.Volumes.{IsImageOf, page_count};

use shore_types::Version;
use shore_types::layout::MAX_BATCH_PAGES;
use std::alloc::{AllocError, Global};

/// Page texts that are written as one batch, with the number of each page on the volume.
#[derive(Drop)]
pub struct PageImages {
    // The version of the texts.
    version: Version,
    // The number of each page on the volume. A batch has no more than 32, so that `new` takes room for all.
    numbers: Vec<u32>,
    // The texts of these pages, in the same order. `push` and `clear` keep as many as there are numbers.
    bytes: Vec<u8>,
    ghost as_many: { length bytes.items ≡ page_bytes version * length numbers.items },
}

impl PageImages {
    ghost use Rattle.shore_dwrite.specs.Images.{HasRoomFor, numbers_of, texts_of, version_of};

    /// No pages, with room for a batch.
    pub fn new(alloc: Global, version: Version) -> Result<PageImages, AllocError>
        ensures version { IfOk result (λ images. version_of images ≡ version) }
        ensures numbers { IfOk result (λ images. numbers_of images ≡ []) }
        ensures texts { IfOk result (λ images. texts_of images ≡ []) }
        ensures room { IfOk result (λ images. HasRoomFor images MAX_BATCH_PAGES) }
    {
        let numbers = Vec::with_capacity(alloc, MAX_BATCH_PAGES)?;
        let bytes = Vec::with_capacity(alloc, MAX_BATCH_PAGES * version.page_bytes())?;
        Ok(PageImages {
            version,
            numbers,
            bytes,
        })
    }

    /// These pages, with their texts one behind another.
    pub fn of(version: Version, numbers: Vec<u32>, bytes: Vec<u8>) -> PageImages
        requires { length bytes.items ≡ page_bytes version * length numbers.items }
        ensures version { version_of result ≡ version }
        ensures numbers { numbers_of result ≡ numbers.items }
        ensures texts { texts_of result ≡ bytes.items }
    {
        PageImages {
            version,
            numbers,
            bytes,
        }
    }

    /// Drops all pages, and keeps the room.
    pub fn clear(&mut self)
        ensures version { version_of self.new ≡ version_of self.old }
        ensures numbers { numbers_of self.new ≡ [] }
        ensures texts { texts_of self.new ≡ [] }
        ensures room { (most : ℕ) → HasRoomFor self.old most → HasRoomFor self.new most }
    {
        self.numbers.clear();
        self.bytes.clear();
    }

    /// One page more, after the others. After an error none was added: an allocation failed, and none is made while there is room. The text goes into the room of the batch in one copy.
    pub fn push(&mut self, number: u32, text: &[u8]) -> Result<(), AllocError>
        requires { length text.now ≡ page_bytes (version_of self.old) }
        ensures version { version_of self.new ≡ version_of self.old }
        ensures numbers { OnOk result (numbers_of self.new ≡ numbers_of self.old ++ number ∷ []) }
        ensures texts { OnOk result (texts_of self.new ≡ texts_of self.old ++ text.now) }
        ensures refused { OnErr result ((numbers_of self.new ≡ numbers_of self.old) × (texts_of self.new ≡ texts_of self.old)) }
        ensures idle { (most : ℕ) → HasRoomFor self.old most → length (numbers_of self.old) < most → IsOk result }
        ensures room { (most : ℕ) → HasRoomFor self.old most → HasRoomFor self.new most }

        // A batch goes on with a page that rises above the others, if this is its text.
        ensures goes_on { (g : Geometry) → IsBatchSoFar g (numbers_of self.old) (texts_of self.old) → All (λ k. k < number) (numbers_of self.old)
            → version_of self.old ≡ g.version → number < page_count g → IsImageOf g number text.now → OnOk result (IsBatchSoFar g (numbers_of self.new) (texts_of self.new)) }
    {
        self.numbers.reserve(1)?;
        self.bytes.extend_from_slice(text)?;
        self.numbers.push_reserved(number);
        Ok(())
    }

    /// Whether it has an image of a page.
    pub fn has(&self, number: u32) -> bool
        ensures { IsTrue result ↔ Contains (numbers_of self.now) number }
    {
        self.numbers.contains(&number)
    }

    /// The numbers of the pages, in the order in which they came.
    pub fn numbers(&self) -> &[u32]
        ensures { result.now ≡ numbers_of self.now }
    {
        &self.numbers
    }

    /// Their texts, one behind another.
    pub fn bytes(&self) -> &[u8]
        ensures texts { result.now ≡ texts_of self.now }
        ensures len { length result.now ≡ page_bytes (version_of self.now) * length (numbers_of self.now) }
    {
        &self.bytes
    }
}
