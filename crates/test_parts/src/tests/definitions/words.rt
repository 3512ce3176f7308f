//! The words of a line, read one after another: numbers, ids and bytes.
use shore_model::RidMap;
use shore_types::{Bytes, Granule, Lsn, PageId, Rid, Sequence, StoreId, TxnId};
use std::alloc::Global;
use std::str::SplitWhitespace;

/// The words that are left of a line. If one is missing, or none of its kind, the line is wrong, which `end` tells; what stands in for
/// that word counts for nothing.
#[derive(Drop)]
pub(super) struct Words<'a> {
    left: SplitWhitespace<'a>,
    are_right: bool,
}

impl<'a> Words<'a> {
    pub(super) fn of(line: &'a str) -> Words<'a> {
        Words {
            left: line.split_whitespace(),
            are_right: true,
        }
    }

    /// No word is left, and all were right.
    pub(super) fn end(&mut self) -> bool {
        self.are_right && self.left.next().is_none()
    }

    /// What a word says has to hold, or the line is wrong.
    pub(super) fn require(&mut self, holds: bool) {
        if !holds {
            self.are_right = false;
        }
    }

    /// The line is wrong, and this stands in for what it says.
    pub(super) fn refused<T>(&mut self, stand_in: T) -> T {
        self.are_right = false;
        stand_in
    }

    pub(super) fn word(&mut self) -> &'a str {
        match self.left.next() {
            Some(word) => word,
            None => self.refused(""),
        }
    }

    pub(super) fn number(&mut self) -> u64 {
        match self.word().parse::<u64>() {
            Ok(number) => number,
            Err(_) => self.refused(0),
        }
    }

    pub(super) fn short_number_of(&mut self, word: &str) -> u32 {
        match word.parse::<u32>() {
            Ok(number) => number,
            Err(_) => self.refused(0),
        }
    }

    pub(super) fn short_number(&mut self) -> u32 {
        let word = self.word();
        self.short_number_of(word)
    }

    pub(super) fn txn(&mut self) -> TxnId {
        TxnId(self.number())
    }

    pub(super) fn lsn(&mut self) -> Lsn {
        Lsn(self.number())
    }

    pub(super) fn granule(&mut self) -> Granule {
        match granule_of(self.word()) {
            Some(granule) => granule,
            None => self.refused(Granule::Volume),
        }
    }

    /// `0.1.2`.
    pub(super) fn rid(&mut self) -> Rid {
        match self.granule() {
            Granule::Record(id) => id,
            _ => self.refused(NO_RID),
        }
    }

    fn bytes_of(&mut self, alloc: Global, word: &str) -> Bytes {
        match Vec::from_slice(alloc, word.as_bytes()) {
            Ok(bytes) => Sequence::from_vec(bytes),
            Err(_) => self.refused(Sequence::new(alloc)),
        }
    }

    /// The letters of a word.
    pub(super) fn bytes(&mut self, alloc: Global) -> Bytes {
        let word = self.word();
        self.bytes_of(alloc, word)
    }

    /// Bytes, or `-` if no record is there.
    pub(super) fn image(&mut self, alloc: Global) -> Option<Bytes> {
        match self.word() {
            "-" => None,
            word => Some(self.bytes_of(alloc, word)),
        }
    }

    /// The granules that all words name that are left.
    pub(super) fn granules(&mut self, alloc: Global) -> Sequence<Granule> {
        let mut granules = Sequence::new(alloc);
        for word in &mut self.left {
            if !is_added(&mut granules, granule_of(word)) {
                self.are_right = false;
            }
        }
        granules
    }

    /// The transactions that all words name that are left.
    pub(super) fn txns(&mut self, alloc: Global) -> Sequence<TxnId> {
        let mut txns = Sequence::new(alloc);
        for word in &mut self.left {
            if !is_added(&mut txns, txn_of(word)) {
                self.are_right = false;
            }
        }
        txns
    }

    /// The words are ids and bytes, as `0.0.0 aa 0.0.1 bb`: these records, and no others.
    pub(super) fn are_records(&mut self, records: &RidMap<Bytes>) -> bool {
        for (id, bytes) in records.iter() {
            if self.rid() != *id || self.word().as_bytes() != bytes.as_slice() {
                return false;
            }
        }
        self.end()
    }
}

const NO_RID: Rid = Rid {
    page: PageId {
        store: StoreId(0),
        page: 0,
    },
    slot: 0,
};

fn is_added<T: Drop>(list: &mut Sequence<T>, found: Option<T>) -> bool {
    match found {
        Some(value) => list.push(value).is_ok(),
        None => false,
    }
}

fn txn_of(word: &str) -> Option<TxnId> {
    Some(TxnId(word.parse::<u64>().ok()?))
}

/// `v`, `0`, `0.1` or `0.1.2`.
fn granule_of(word: &str) -> Option<Granule> {
    if word == "v" {
        return Some(Granule::Volume);
    }
    match word.split_once('.') {
        Some((store, rest)) => granule_within(StoreId(store.parse::<u32>().ok()?), rest),
        None => Some(Granule::Store(StoreId(word.parse::<u32>().ok()?))),
    }
}

fn granule_within(store: StoreId, word: &str) -> Option<Granule> {
    let Some((page, slot)) = word.split_once('.') else {
        let page = word.parse::<u32>().ok()?;
        return Some(Granule::Page(PageId { store, page }));
    };
    let page = page.parse::<u32>().ok()?;
    let slot = slot.parse::<u16>().ok()?;
    let page = PageId { store, page };
    Some(Granule::Record(Rid { page, slot }))
}
