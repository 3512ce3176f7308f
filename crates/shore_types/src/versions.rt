//! The versions of the formats, and the sizes that each gives.
ghost use Rattle.std.specs.Prelude.{◌≡◌, ◌+◌, ◌*◌, ◌<◌, ◌≤◌};
ghost use Rattle.shore_types.specs.Versions.{version_of, number_of, page_bytes, record_limit, slot_limit, global_limit, least_log, pages_begin};
ghost use Rattle.shore_types.specs.declared.versions.Version.TheVariants.{One, Two};

/// A version of all formats of a pair. Its number stands on both labels.
#[derive(Clone, Copy, PartialEq)]
pub enum Version {
    /// Pages of 8,192 bytes.
    One,
    /// Pages of 16,384 bytes, with longer records and global ids.
    Two,
}

/// The sizes that each version gives; a definition cites them by its name.
#[tactic(auto, unfolding(crate::specs::Versions::number_of, crate::specs::Versions::page_bytes, crate::specs::Versions::record_limit, crate::specs::Versions::slot_limit, crate::specs::Versions::global_limit, crate::specs::Versions::least_log, crate::specs::Versions::pages_begin))]
pub fn sizes_are_those_of_the_versions()
    ensures one { (number_of One ≡ 1) × (page_bytes One ≡ 8192) × (record_limit One ≡ 4000) × (slot_limit One ≡ 2042)
        × (global_limit One ≡ 64) × (least_log One ≡ 135168) × (pages_begin One ≡ 270336) }
    ensures two { (number_of Two ≡ 2) × (page_bytes Two ≡ 16384) × (record_limit Two ≡ 12000) × (slot_limit Two ≡ 4090)
        × (global_limit Two ≡ 255) × (least_log Two ≡ 266240) × (pages_begin Two ≡ 532480) }
{}

impl Version {
    /// The version of this number; None if there is none.
    #[tactic(auto, unfolding(crate::specs::Versions::version_of))]
    pub fn of(number: u16) -> Option<Version>
        ensures { result ≡ version_of number }
    {
        match number {
            1 => Some(Version::One),
            2 => Some(Version::Two),
            _ => None,
        }
    }

    /// Its number, on both labels.
    #[tactic(auto, unfolding(crate::specs::Versions::number_of))]
    pub fn number(self) -> u16
        ensures { result ≡ number_of self }
    {
        match self {
            Version::One => 1,
            Version::Two => 2,
        }
    }

    /// The bytes of a page.
    #[inline]
    #[tactic(auto, unfolding(crate::specs::Versions::page_bytes))]
    pub fn page_bytes(self) -> usize
        ensures is { result ≡ page_bytes self }
        ensures least { 8192 ≤ result }
        ensures most { result ≤ 16384 }
    {
        match self {
            Version::One => 8192,
            Version::Two => 16_384,
        }
    }

    /// The most bytes of a record, which may have none.
    #[inline]
    #[tactic(auto, unfolding(crate::specs::Versions::record_limit))]
    pub fn record_limit(self) -> usize
        ensures is { result ≡ record_limit self }
        ensures most { result ≤ 12000 }
    {
        match self {
            Version::One => 4000,
            Version::Two => 12_000,
        }
    }

    /// The most slots of a page: as many entries as the header leaves room for.
    #[inline]
    #[tactic(auto, unfolding(crate::specs::Versions::slot_limit, crate::specs::Versions::page_bytes))]
    pub fn slot_limit(self) -> u16
        ensures is { result ≡ slot_limit self }
        ensures fills { 24 + 4 * result ≡ page_bytes self }
        ensures most { result ≤ 4090 }
    {
        match self {
            Version::One => 2042,
            Version::Two => 4090,
        }
    }

    /// The most bytes of a global id, which has at least one.
    #[tactic(auto, unfolding(crate::specs::Versions::global_limit))]
    pub fn global_limit(self) -> usize
        ensures is { result ≡ global_limit self }
        ensures most { result ≤ 255 }
    {
        match self {
            Version::One => 64,
            Version::Two => 255,
        }
    }

    /// The fewest bytes of a log device.
    #[tactic(auto, unfolding(crate::specs::Versions::least_log))]
    pub fn least_log(self) -> u64
        ensures { result ≡ least_log self }
    {
        match self {
            Version::One => 135_168,
            Version::Two => 266_240,
        }
    }

    /// The offset at which the pages of the stores begin on a volume, behind the label, the gate of the double write, its table and its area.
    #[tactic(auto, unfolding(crate::specs::Versions::pages_begin))]
    pub fn pages_begin(self) -> u64
        ensures is { result ≡ pages_begin self }
        ensures most { result ≤ 532480 }
    {
        match self {
            Version::One => 270_336,
            Version::Two => 532_480,
        }
    }
}
