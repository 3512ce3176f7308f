//! The events that lists are made of.
ghost use Rattle.std.specs.Prelude.{IfOk, IfSome};
ghost use Rattle.shore_model.specs.Calls.{IsServed};
ghost use Rattle.shore_world.specs.Events.{IsServedEvent};

use super::lock_lists::Lock;
use shore_model::{Call, Outcome};
use shore_types::{
    Bytes, GlobalId, Granule, Lsn, Mode, PageId, Rid, Sequence, SessionId, StoreId, Ticket,
};
use shore_world::Event;
use std::alloc::{AllocError, Global};

/// How many stores there are.
pub(super) const STORES: u32 = 9;

// The place of the first record.
const FIRST_PLACE: Place = (0, 0, 0);

/// A record id: the numbers of its store, page and slot.
pub(super) type Place = (u32, u32, u16);

/// A granule at a place, by how far it is from the root: 0 for the volume, 1 for the store, 2 for the page, and 3 for the record.
pub(super) type Depth = u32;

/// A global id of one byte, or one of none, which no prepare takes.
pub(super) type Name = Option<u8>;

/// What happens to a manager next.
#[derive(Clone, Copy)]
pub(super) enum Doing {
    Begin,
    /// An insert into a store, of a byte so many times.
    InsertOf(u32, u8, usize),
    /// An update of the first record's place to two bytes.
    Update,
    /// An update to a byte so many times.
    UpdateOf(Place, u8, usize),
    DeleteOf(Place),
    GetOf(Place),
    GetForUpdateOf(Place),
    ScanOf(u32),
    LockOf(Place, Depth, Mode),
    TryOf(Place, Depth, Mode),
    Savepoint,
    /// Back to the savepoint of this index.
    BackTo(usize),
    Commit,
    Abort,
    /// A prepare by a name.
    Prepare(Name),
    /// The decision on the transaction of a name.
    Resolve(Name, Outcome),
    InDoubt,
    /// Whether the record so many before the last one is durable.
    Ask(u64),
    ForceStage,
    ForceOpen,
    Resume,
    /// The session's wait for a lock is taken back.
    GiveUp,
    FlushStep,
    /// The next of the four steps of a checkpoint.
    CheckpointStep,
}

/// An insert of a byte into the store that lists work with.
pub(super) const INSERT: Doing = Doing::InsertOf(0, 0xaa, 1);

/// A delete of the first record.
pub(super) const DELETE: Doing = Doing::DeleteOf(FIRST_PLACE);

/// What the session of a number does.
pub(super) type Turn = (u32, Doing);

/// One of each that lists are made of.
pub(super) const EACH: [Doing; 11] = [
    Doing::Begin,
    INSERT,
    Doing::Update,
    DELETE,
    Doing::ScanOf(0),
    Doing::Commit,
    Doing::Abort,
    Doing::ForceStage,
    Doing::ForceOpen,
    Doing::Ask(0),
    Doing::FlushStep,
];

/// A record that is committed and acknowledged.
pub(super) const ONE_COMMIT: [Turn; 6] = [
    (1, Doing::Begin),
    (1, INSERT),
    (1, Doing::Commit),
    (1, Doing::ForceStage),
    (1, Doing::ForceOpen),
    (1, Doing::Ask(0)),
];

impl Doing {
    /// The call of a session, if it is one.
    pub(super) fn call(self, alloc: Global) -> Result<Option<Call>, AllocError>
        ensures { IfOk result (λ call. IfSome call IsServed) }
    {
        Ok(match self {
            Doing::Begin => Some(Call::Begin),
            Doing::Commit => Some(Call::Commit),
            Doing::Abort => Some(Call::Abort),
            Doing::Savepoint => Some(Call::Savepoint),
            Doing::BackTo(index) => Some(Call::BackTo(index)),
            Doing::Prepare(name) => Some(Call::Prepare(global_id(alloc, name)?)),
            Doing::Resolve(name, outcome) => {
                Some(Call::Resolve(global_id(alloc, name)?, outcome))
            }
            Doing::InDoubt => Some(Call::InDoubt),
            Doing::InsertOf(store, byte, count) => {
                Some(Call::Insert(StoreId(store), filled(alloc, byte, count)?))
            }
            Doing::Update => {
                let bytes = Vec::from_slice(alloc, &[0xbb, 0xcc])?;
                Some(Call::Update(rid(FIRST_PLACE), Sequence::from_vec(bytes)))
            }
            Doing::UpdateOf(place, byte, count) => {
                Some(Call::Update(rid(place), filled(alloc, byte, count)?))
            }
            Doing::DeleteOf(place) => Some(Call::Delete(rid(place))),
            Doing::GetOf(place) => Some(Call::Get(rid(place))),
            Doing::GetForUpdateOf(place) => Some(Call::GetForUpdate(rid(place))),
            Doing::ScanOf(store) => Some(Call::Scan(StoreId(store))),
            Doing::LockOf(place, depth, mode) => {
                Some(Call::Lock(granule_at(place, depth), mode))
            }
            Doing::TryOf(place, depth, mode) => {
                Some(Call::TryLock(granule_at(place, depth), mode))
            }
            Doing::ForceStage | Doing::ForceOpen | Doing::Resume | Doing::FlushStep => None,
            Doing::CheckpointStep | Doing::Ask(_) | Doing::GiveUp => None,
        })
    }

    /// The lock that a call of a session waits for, if it does.
    pub(super) fn lock(self) -> Option<Lock> {
        let (place, depth, mode) = match self {
            Doing::InsertOf(store, _, _) => ((store, 0, 0), 1, Mode::IX),
            Doing::Update => (FIRST_PLACE, 3, Mode::EX),
            Doing::UpdateOf(place, _, _) | Doing::DeleteOf(place) => (place, 3, Mode::EX),
            Doing::ScanOf(store) => ((store, 0, 0), 1, Mode::SH),
            Doing::GetOf(place) => (place, 3, Mode::SH),
            Doing::GetForUpdateOf(place) => (place, 3, Mode::UD),
            Doing::LockOf(place, depth, mode) => (place, depth, mode),
            _ => return None,
        };
        Some(Lock {
            place,
            depth,
            mode,
            goes_on: matches!(self, Doing::InsertOf(_, _, _)),
        })
    }

    /// The ticket that is asked for, if one is, where so many records are logged.
    pub(super) fn ticket(self, logged: u64) -> Option<Ticket> {
        match self {
            Doing::Ask(before) => Some(Ticket::of(Lsn(logged.saturating_sub(before)))),
            _ => None,
        }
    }

    /// The event that a manager is given, if a session does this and so many records are logged.
    pub(super) fn event(
        self,
        alloc: Global,
        session: SessionId,
        logged: u64,
    ) -> Result<Event, AllocError>
        ensures { IfOk result IsServedEvent }
    {
        if let Some(call) = self.call(alloc)? {
            return Ok(Event::Call(session, call));
        }
        if let Some(ticket) = self.ticket(logged) {
            return Ok(Event::Ask(ticket));
        }
        Ok(match self {
            Doing::ForceStage => Event::ForceStage,
            Doing::ForceOpen => Event::ForceOpen,
            Doing::FlushStep => Event::FlushStep,
            Doing::CheckpointStep => Event::CheckpointStep,
            Doing::GiveUp => Event::GiveUp(session),
            _ => Event::Resume(session),
        })
    }
}

/// The global id of a name.
pub(super) fn global_id(alloc: Global, name: Name) -> Result<GlobalId, AllocError> {
    let mut id = Sequence::new(alloc);
    if let Some(byte) = name {
        id.push(byte)?;
    }
    Ok(id)
}

fn filled(alloc: Global, byte: u8, count: usize) -> Result<Bytes, AllocError> {
    Ok(Sequence::from_vec(Vec::from_elem(alloc, byte, count)?))
}

/// The granule at a place that is so far from the root.
pub(super) fn granule_at(place: Place, depth: Depth) -> Granule {
    let id = rid(place);
    match depth {
        0 => Granule::Volume,
        1 => Granule::Store(id.page.store),
        2 => Granule::Page(id.page),
        _ => Granule::Record(id),
    }
}

fn rid(place: Place) -> Rid {
    let (store, page, slot) = place;
    Rid {
        page: PageId {
            store: StoreId(store),
            page,
        },
        slot,
    }
}
