//! A page in memory.
ghost use Rattle.std.specs.Prelude.{◌≡◌, Some, None, length, option_map};
ghost use Rattle.std.specs.Prelude.{◌<◌};
ghost use Rattle.shore_page.specs.Room.{Fits, raised, lowered};
ghost use Rattle.shore_types.specs.Images.{image_len};
ghost use Rattle.shore_pool.specs.Changes.{changed, reclaimed, settled};

use shore_page::Page;
use shore_types::Lsn;

/// A page in memory. It is dirty if it was changed since it was read or written.
#[derive(Drop)]
pub struct Frame {
    /// The page's number on the volume.
    pub number: u32,
    /// The page as it is now. A clean one is on the volume, claims aside (`AreWritten`).
    pub page: Page,
    /// The recovery number (RecLSN) of a dirty page: that of the first change since it was read or written. None if it is clean.
    pub recovery: Option<Lsn>,
}

impl Frame {
    /// Makes a change that was logged under this number.
    pub fn change(&mut self, lsn: Lsn, slot: u16, after: Option<&[u8]>)
        requires { Fits self.old.page.version self.old.page.slots slot (image_len (option_map (λ bytes. bytes.now) after)) }
        ensures { self.new ≡ changed lsn slot (option_map (λ bytes. bytes.now) after.entry) self.old }
    {
        self.page.apply(lsn, slot, after);
        if self.recovery.is_none() {
            self.recovery = Some(lsn);
        }
    }

    /// Its page was written.
    pub fn settle(&mut self)
        ensures { self.new ≡ settled self.old }
    {
        self.recovery = None;
    }

    /// Keeps at least this many bytes for a slot, as `Page::reserve`.
    pub fn reserve(&mut self, slot: u16, bytes: usize)
        requires there { slot < length self.old.page.slots }
        requires fits { Fits self.old.page.version self.old.page.slots slot bytes }
        ensures { self.new ≡ reclaimed (raised bytes) slot self.old }
    {
        self.page.reserve(slot, bytes);
    }

    /// Keeps no more than this many bytes for a slot, and what its record has, as `Page::unreserve`.
    pub fn unreserve(&mut self, slot: u16, bytes: usize)
        requires { slot < length self.old.page.slots }
        ensures { self.new ≡ reclaimed (lowered bytes) slot self.old }
    {
        self.page.unreserve(slot, bytes);
    }
}
