//! What a call is refused with.
ghost use Rattle.std.specs.Prelude.{◌≡◌, Some};
ghost use Rattle.std.specs.Fmt.{DisplaysOnOk};
ghost use Rattle.shore_types.specs.declared.faults.Fault.TheVariants as FaultData;
ghost use Rattle.shore_types.specs.Faults.{number_of, name_of, cycle_text, text_of};
ghost use Rattle.shore_types.specs.Names.{device_name};

use crate::{ConfigPlace, Lsn, Sequence, TxnId};
use std::fmt;

/// One of the two devices.
#[derive(Clone, Copy, PartialEq)]
pub enum Device {
    Log,
    Volume,
}

impl fmt::Display for Device {
    ghost output = { λ device. Some (device_name device) };

    fn fmt<W: fmt::Write>(&self, f: &mut fmt::Formatter<W>) -> fmt::Result {
        f.write_str(match self {
            Device::Log => "log",
            Device::Volume => "volume",
        })
    }
}

/// Why a call is refused. It prints its number, its name and its data, separated by spaces. If a variant says no more,
/// no record, decision or savepoint changed, and locks that the call had already taken stay.
#[derive(Drop, PartialEq)]
pub enum Fault {
    /// The session has no transaction.
    NoTransaction,
    /// The session has a transaction already.
    AlreadyActive,
    /// The table of transactions is full.
    TooManyTransactions,
    /// The volume has no such store.
    NoStore,
    /// The store has no such page.
    NoPage,
    /// No record is at the id.
    NoRecord,
    /// A record is longer than the version allows.
    TooLong,
    /// No slot of the store has room for the record and can be locked now.
    StoreFull,
    /// The log has no room for the record and all that is reserved.
    LogFull,
    /// The lock needs a node, and the table is at the limit that the volume was made for.
    LockTableFull,
    /// The mode cannot be asked for on a granule of this level.
    BadMode,
    /// The transaction is the victim of a cycle. The cycle begins with it; each member waits for the next, and the
    /// last for the first. It keeps its locks and changes, and takes only abort.
    Deadlock { cycle: Sequence<TxnId> },
    /// The transaction takes only abort.
    MustAbort,
    /// The session's earlier call still waits.
    Busy,
    /// The transaction has no such savepoint.
    NoSavepoint,
    /// The transaction has `MAX_SAVEPOINTS` savepoints.
    TooManySavepoints,
    /// The transaction is prepared, and waits for its decision.
    IsPrepared,
    /// The global id is empty, or longer than the version allows.
    BadGlobalId,
    /// A transaction of the table has this global id.
    GlobalIdInUse,
    /// No transaction of the table has this global id.
    NoGlobalId,
    /// The lock would have to wait for this transaction.
    WouldBlock { holder: TxnId },
    /// A page can be written only once the log is durable up to this number. The call may be made again then.
    NeedForce { number: Lsn },
    /// A device failed. Every later call answers `Failed` until the devices are opened again.
    Device,
    /// An earlier call ended by `Device`, or by a page that was damaged.
    Failed,
    /// What a device holds breaks its format at this place, a byte offset.
    Damaged { device: Device, place: u64 },
    /// The device is of another version of the format.
    WrongVersion,
    /// An allocation failed. Nothing changed but locks already taken, or steps of a rollback already made.
    Memory,
    /// A transaction is in the table, or a session is missing.
    NotQuiet,
    /// The device holds no label of its kind.
    NotFormatted,
    /// The two devices do not belong together.
    WrongPair,
    /// The settings or a line of the script are wrong.
    BadConfig(ConfigPlace),
}

impl Fault {
    /// A device breaks its format at this offset.
    pub fn damaged(device: Device, place: u64) -> Fault
        ensures { result ≡ FaultData.Damaged device place }
    {
        Fault::Damaged { device, place }
    }

    /// From 1 to 31, as the script prints it.
    pub fn number(&self) -> u8
        ensures { result ≡ number_of self.now }
    {
        match self {
            Fault::NoTransaction => 1,
            Fault::AlreadyActive => 2,
            Fault::TooManyTransactions => 3,
            Fault::NoStore => 4,
            Fault::NoPage => 5,
            Fault::NoRecord => 6,
            Fault::TooLong => 7,
            Fault::StoreFull => 8,
            Fault::LogFull => 9,
            Fault::LockTableFull => 10,
            Fault::BadMode => 11,
            Fault::Deadlock { cycle: _ } => 12,
            Fault::MustAbort => 13,
            Fault::Busy => 14,
            Fault::NoSavepoint => 15,
            Fault::TooManySavepoints => 16,
            Fault::IsPrepared => 17,
            Fault::BadGlobalId => 18,
            Fault::GlobalIdInUse => 19,
            Fault::NoGlobalId => 20,
            Fault::WouldBlock { holder: _ } => 21,
            Fault::NeedForce { number: _ } => 22,
            Fault::Device => 23,
            Fault::Failed => 24,
            Fault::Damaged {
                device: _,
                place: _,
            } => 25,
            Fault::WrongVersion => 26,
            Fault::Memory => 27,
            Fault::NotQuiet => 28,
            Fault::NotFormatted => 29,
            Fault::WrongPair => 30,
            Fault::BadConfig(_) => 31,
        }
    }

    /// The name, as the script prints it.
    pub fn name(&self) -> &'static str
        ensures { result.now ≡ name_of self.now }
    {
        match self {
            Fault::NoTransaction => "NoTransaction",
            Fault::AlreadyActive => "AlreadyActive",
            Fault::TooManyTransactions => "TooManyTransactions",
            Fault::NoStore => "NoStore",
            Fault::NoPage => "NoPage",
            Fault::NoRecord => "NoRecord",
            Fault::TooLong => "TooLong",
            Fault::StoreFull => "StoreFull",
            Fault::LogFull => "LogFull",
            Fault::LockTableFull => "LockTableFull",
            Fault::BadMode => "BadMode",
            Fault::Deadlock { cycle: _ } => "Deadlock",
            Fault::MustAbort => "MustAbort",
            Fault::Busy => "Busy",
            Fault::NoSavepoint => "NoSavepoint",
            Fault::TooManySavepoints => "TooManySavepoints",
            Fault::IsPrepared => "IsPrepared",
            Fault::BadGlobalId => "BadGlobalId",
            Fault::GlobalIdInUse => "GlobalIdInUse",
            Fault::NoGlobalId => "NoGlobalId",
            Fault::WouldBlock { holder: _ } => "WouldBlock",
            Fault::NeedForce { number: _ } => "NeedForce",
            Fault::Device => "Device",
            Fault::Failed => "Failed",
            Fault::Damaged {
                device: _,
                place: _,
            } => "Damaged",
            Fault::WrongVersion => "WrongVersion",
            Fault::Memory => "Memory",
            Fault::NotQuiet => "NotQuiet",
            Fault::NotFormatted => "NotFormatted",
            Fault::WrongPair => "WrongPair",
            Fault::BadConfig(_) => "BadConfig",
        }
    }
}

impl fmt::Display for Fault {
    ghost output = { λ fault. Some (text_of fault) };

    fn fmt<W: fmt::Write>(&self, f: &mut fmt::Formatter<W>) -> fmt::Result {
        let number = self.number();
        let name = self.name();
        write!(f, "{number} {name}")?;
        match self {
            Fault::Deadlock { cycle } => write_cycle(cycle, f),
            Fault::WouldBlock { holder } => write!(f, " {holder}"),
            Fault::NeedForce { number } => write!(f, " {number}"),
            Fault::Damaged { device, place } => write!(f, " {device} {place}"),
            Fault::BadConfig(place) => write!(f, " {place}"),
            _ => Ok(()),
        }
    }
}

// A space and a number for each transaction.
fn write_cycle<W: fmt::Write>(cycle: &Sequence<TxnId>, f: &mut fmt::Formatter<W>) -> fmt::Result
    ensures { DisplaysOnOk W.write_str_gives f.old result (Some (cycle_text cycle.now)) f.new }
{
    for txn in cycle.as_slice() {
        write!(f, " {txn}")?;
    }
    Ok(())
}

// An error is asked for both, and says the same by either.
impl fmt::Debug for Fault {
    ghost debug_output = { λ fault. Some (text_of fault) };

    fn fmt<W: fmt::Write>(&self, f: &mut fmt::Formatter<W>) -> fmt::Result {
        fmt::Display::fmt(self, f)
    }
}

impl std::error::Error for Fault {}
