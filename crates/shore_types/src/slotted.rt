//! Images in slots, as who lists records sees a page.
ghost use Rattle.std.specs.Prelude.{◌≡◌, ◌<◌, List, None, length, slice_index_or};
ghost use Rattle.shore_types.specs.Images.{Image, image_len};

/// Images in slots: of a page this is all that a list of its records asks for, beside their bytes.
pub trait Slotted {
    /// What is in the slots.
    ghost images: { Self → List Image };

    /// How many slots there are, empty ones too.
    fn slots(&self) -> u16
        ensures { result ≡ length (images self.now) };

    /// How many bytes the record in a slot has, 0 in an empty one.
    fn len_at(&self, slot: u16) -> usize
        requires { slot < length (images self.now) }
        ensures { result ≡ image_len (slice_index_or (images self.now) slot None) };
}
