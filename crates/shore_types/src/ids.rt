//! Names of things: stores, pages, records, transactions, sessions and records of the log.
//! A contract sees each name of one number as that number.
ghost use Rattle.std.specs.Prelude.{◌≡◌, Some};
ghost use Rattle.std.specs.Fmt.{decimal};
ghost use Rattle.shore_types.specs.Names.{page_name, rid_name};

use crate::Bytes;
use std::fmt;
use std::marker::Model;

/// A store of the volume.
#[derive(Clone, Copy, PartialEq, Eq, PartialOrd, Ord)]
pub struct StoreId(pub u32);

impl Model for StoreId {
    ghost use Rattle.std.specs.Prelude.{ℕ};

    ghost Value = { ℕ };

    ghost view = { λ s. s.0 };

    ghost inverse = { λ n. record { 0 = n } };
}

impl fmt::Display for StoreId {
    ghost output = { λ n. Some (decimal n) };

    fn fmt<W: fmt::Write>(&self, f: &mut fmt::Formatter<W>) -> fmt::Result {
        let number = self.0;
        write!(f, "{number}")
    }
}

/// A page: a store, and the page's place in it.
#[derive(Clone, Copy, PartialEq, Eq, PartialOrd, Ord)]
pub struct PageId {
    /// The store.
    pub store: StoreId,
    /// The place of the page in it, from 0.
    pub page: u32,
}

impl fmt::Display for PageId {
    ghost output = { λ p. Some (page_name p) };

    fn fmt<W: fmt::Write>(&self, f: &mut fmt::Formatter<W>) -> fmt::Result {
        let store = self.store;
        let page = self.page;
        write!(f, "{store}.{page}")
    }
}

/// A record id: a page, and a slot of its table. Ids are ordered by store, page and slot, the place order (RID order).
#[derive(Clone, Copy, PartialEq, Eq, PartialOrd, Ord)]
pub struct Rid {
    /// The page.
    pub page: PageId,
    /// The place of the record in the page's slot table, from 0.
    pub slot: u16,
}

impl fmt::Display for Rid {
    ghost output = { λ r. Some (rid_name r) };

    fn fmt<W: fmt::Write>(&self, f: &mut fmt::Formatter<W>) -> fmt::Result {
        let page = self.page;
        let slot = self.slot;
        write!(f, "{page}.{slot}")
    }
}

/// The number of a transaction. 0 means none.
#[derive(Clone, Copy, PartialEq, Eq, PartialOrd, Ord)]
pub struct TxnId(pub u64);

impl Model for TxnId {
    ghost use Rattle.std.specs.Prelude.{ℕ};

    ghost Value = { ℕ };

    ghost view = { λ t. t.0 };

    ghost inverse = { λ n. record { 0 = n } };
}

impl fmt::Display for TxnId {
    ghost output = { λ n. Some (decimal n) };

    fn fmt<W: fmt::Write>(&self, f: &mut fmt::Formatter<W>) -> fmt::Result {
        let number = self.0;
        write!(f, "{number}")
    }
}

/// The number of a log record (LSN): its ordinal from 1, and no byte address. 0 means none.
#[derive(Clone, Copy, PartialEq, PartialOrd)]
pub struct Lsn(pub u64);

impl Model for Lsn {
    ghost use Rattle.std.specs.Prelude.{ℕ};

    ghost Value = { ℕ };

    ghost view = { λ n. n.0 };

    ghost inverse = { λ n. record { 0 = n } };
}

impl fmt::Display for Lsn {
    ghost output = { λ n. Some (decimal n) };

    fn fmt<W: fmt::Write>(&self, f: &mut fmt::Formatter<W>) -> fmt::Result {
        let number = self.0;
        write!(f, "{number}")
    }
}

/// A session of the manager.
#[derive(Clone, Copy, PartialEq)]
pub struct SessionId(pub u32);

impl Model for SessionId {
    ghost use Rattle.std.specs.Prelude.{ℕ};

    ghost Value = { ℕ };

    ghost view = { λ s. s.0 };

    ghost inverse = { λ n. record { 0 = n } };
}

impl fmt::Display for SessionId {
    ghost output = { λ n. Some (decimal n) };

    fn fmt<W: fmt::Write>(&self, f: &mut fmt::Formatter<W>) -> fmt::Result {
        let number = self.0;
        write!(f, "{number}")
    }
}

/// What a lazy commit answers: the number of its Commit record, past every commit that it read from.
#[derive(Clone, Copy, PartialEq)]
pub struct Ticket {
    // The number of the Commit record.
    lsn: Lsn,
}

impl Model for Ticket {
    ghost use Rattle.std.specs.Prelude.{ℕ};

    ghost Value = { ℕ };

    ghost view = { λ t. t.lsn };

    ghost inverse = { λ n. record { lsn = n } };
}

impl Ticket {
    pub fn of(lsn: Lsn) -> Ticket
        ensures { result ≡ lsn }
    {
        Ticket { lsn }
    }

    pub fn number(self) -> Lsn
        ensures { result ≡ self }
    {
        self.lsn
    }
}

/// The name that a coordinator gave a transaction, of any bytes: `prepare` refuses one that is too short or too long.
pub type GlobalId = Bytes;
