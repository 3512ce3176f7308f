//! Choices that look like chance, from a seed.
use super::devices::{Calls, NO_FUSES};
use super::doings::{Depth, Doing, Name, Place, STORES};
use shore_disk::Pick;
use shore_model::Outcome;
use shore_types::Mode;

// A checkpoint with the forces that it waits for, behind a flush.
const A_ROUND: [Doing; 12] = [
    Doing::ForceStage,
    Doing::ForceOpen,
    Doing::FlushStep,
    Doing::CheckpointStep,
    Doing::CheckpointStep,
    Doing::ForceStage,
    Doing::ForceOpen,
    Doing::CheckpointStep,
    Doing::ForceStage,
    Doing::ForceOpen,
    Doing::CheckpointStep,
    Doing::FlushStep,
];

/// Where the choices come from. Each seed has its own.
#[derive(Drop)]
pub(super) struct Chance {
    state: u64,
}

impl Chance {
    pub(super) fn new(seed: u64) -> Chance {
        Chance { state: seed }
    }

    /// A number below this one.
    pub(super) fn below(&mut self, count: u32) -> u32 {
        self.state = self
            .state
            .wrapping_mul(6_364_136_223_846_793_005)
            .wrapping_add(1_442_695_040_888_963_407);
        let high = u32::try_from(self.state >> 33).unwrap_or(0);
        high.checked_rem(count).unwrap_or(0)
    }

    pub(super) fn pick(&mut self) -> Pick {
        match self.below(4) {
            0 => Pick::Old,
            1 => Pick::New,
            2 => Pick::Noise,
            _ => Pick::Mixed(self.bits()),
        }
    }

    // Which of the last 64 writes stand.
    fn bits(&mut self) -> u64 {
        let mut bits = 0;
        for _ in 0..4 {
            bits = bits << 16 | u64::from(self.below(1 << 16));
        }
        bits
    }

    /// A fuse that most opens with losers blow.
    pub(super) fn fuse(&mut self) -> Calls {
        if self.below(2) == 0 {
            Calls {
                log: u64::from(self.below(10)),
                ..NO_FUSES
            }
        } else {
            Calls {
                volume: u64::from(self.below(24)),
                ..NO_FUSES
            }
        }
    }

    /// A place that may have a record; some have no page.
    fn place(&mut self) -> Place {
        let store = self.below(STORES);
        let page = if store == 0 { self.below(3) } else { 0 };
        let slot = u16::try_from(self.below(4)).unwrap_or(0);
        (store, page, slot)
    }

    fn byte(&mut self) -> u8 {
        u8::try_from(self.below(256)).unwrap_or(0)
    }

    // Most are short.
    fn length(&mut self) -> usize {
        let most = if self.below(16) == 0 { 4200 } else { 12 };
        self.below(most) as usize
    }

    /// What goes on in all stores, of which not all have their pages in frames.
    fn doing(&mut self) -> Doing {
        match self.below(16) {
            0 | 1 => Doing::Begin,
            2 | 3 | 4 => self.change(),
            5 => Doing::Commit,
            6 | 7 => Doing::ForceStage,
            8 | 9 => Doing::ForceOpen,
            10 => Doing::Resume,
            11 => Doing::FlushStep,
            12 => self.asking(),
            _ => self.saving(),
        }
    }

    // An ask for the ticket of one of the last records.
    fn asking(&mut self) -> Doing {
        Doing::Ask(u64::from(self.below(8)))
    }

    // A savepoint, a way back to one, which may not be there, or an abort.
    fn saving(&mut self) -> Doing {
        match self.below(10) {
            0 | 1 | 2 => Doing::Savepoint,
            3 | 4 | 5 | 6 => Doing::BackTo(self.below(2) as usize),
            7 => Doing::BackTo(self.below(70) as usize),
            _ => Doing::Abort,
        }
    }

    /// What a session does that waits for nothing: most begin a transaction, if it is in none, and many change records and go back, if it has savepoints.
    pub(super) fn doing_of_session(&mut self, is_in_transaction: bool, savepoints: u32) -> Doing {
        if !is_in_transaction && self.below(8) > 0 {
            return Doing::Begin;
        }
        match self.below(12) {
            0 | 1 | 2 | 3 => return self.contending(),
            4 => return self.doing(),
            _ => {}
        }
        if savepoints > 0 && self.below(2) == 0 {
            return self.doing_behind(savepoints);
        }
        match self.below(34) {
            0 | 1 | 2 | 3 => Doing::GetOf(self.near_place()),
            4 | 5 => Doing::GetForUpdateOf(self.near_place()),
            6 | 7 => Doing::InsertOf(self.below(2), self.byte(), self.length()),
            8 | 9 | 10 => Doing::UpdateOf(self.near_place(), self.byte(), self.length()),
            11 => Doing::DeleteOf(self.near_place()),
            12 => Doing::ScanOf(self.below(2)),
            13 => Doing::LockOf(self.near_place(), self.depth(), self.mode()),
            14 | 15 => Doing::TryOf(self.near_place(), self.depth(), self.mode()),
            16 => Doing::Begin,
            17 | 18 => Doing::Commit,
            19 | 20 => Doing::ForceStage,
            21 | 22 => Doing::ForceOpen,
            23 => Doing::FlushStep,
            24 | 25 | 26 => self.asking(),
            _ => self.saving(),
        }
    }

    /// What a session does about prepared transactions in its turn, if anything: most prepare in a transaction, and decide in none or in one that is prepared.
    pub(super) fn doing_about_prepared(
        &mut self,
        is_in_transaction: bool,
        is_prepared: bool,
    ) -> Option<Doing> {
        let seldom = match (is_in_transaction, is_prepared) {
            (_, true) => 2,
            (true, false) => 9,
            (false, false) => 3,
        };
        if self.below(seldom) > 0 {
            return None;
        }
        let prepares = is_in_transaction && !is_prepared;
        Some(match self.below(12) {
            0 => Doing::InDoubt,
            1 => Doing::Resolve(self.name(), self.outcome()),
            2 => Doing::Prepare(self.name()),
            _ if prepares => Doing::Prepare(self.name()),
            _ => Doing::Resolve(self.name(), self.outcome()),
        })
    }

    /// The next of a round with a checkpoint, in a part of all turns, whoever's turn it is; seldom one of another place in it. In a transaction also a change that takes a good part of
    /// the log, or its commit. It is told how far the round has come.
    pub(super) fn doing_about_checkpoints(
        &mut self,
        is_in_transaction: bool,
        round: &mut usize,
    ) -> Option<Doing> {
        match self.below(20) {
            0 | 1 | 2 | 3 | 4 | 5 | 6 => {
                let next = *round % A_ROUND.len();
                *round = next + 1;
                Some(A_ROUND[next])
            }
            7 => Some(A_ROUND[self.below(12) as usize % A_ROUND.len()]),
            8 | 9 | 10 if is_in_transaction => {
                Some(Doing::UpdateOf(self.near_place(), self.byte(), self.long()))
            }
            11 if is_in_transaction => {
                Some(Doing::InsertOf(self.below(2), self.byte(), self.long()))
            }
            12 | 13 if is_in_transaction => Some(Doing::Commit),
            _ => None,
        }
    }

    // Of such records a page takes two.
    fn long(&mut self) -> usize {
        (self.below(2_000) as usize).saturating_add(2_000)
    }

    // One of a few, of which seldom none is no name.
    fn name(&mut self) -> Name {
        match self.below(25) {
            0 => None,
            number => Some(u8::try_from(number % 6).unwrap_or(0)),
        }
    }

    fn outcome(&mut self) -> Outcome {
        match self.below(2) {
            0 => Outcome::Commit,
            _ => Outcome::Abort,
        }
    }

    // A lock on one of a few records of a page, or on a page, so that sessions come to wait for each other.
    fn contending(&mut self) -> Doing {
        let place = (0, 0, u16::try_from(self.below(3)).unwrap_or(0));
        match self.below(8) {
            0 | 1 | 2 => Doing::LockOf(place, 3, Mode::SH),
            3 | 4 => Doing::LockOf(place, 3, Mode::EX),
            5 => Doing::UpdateOf(place, self.byte(), self.length()),
            6 => Doing::LockOf(place, 2, Mode::SH),
            _ => Doing::LockOf((0, 1, 0), 2, Mode::SH),
        }
    }

    // A change behind so many savepoints, or a way back to one of them, or to the next one, which is not there.
    fn doing_behind(&mut self, savepoints: u32) -> Doing {
        match self.below(6) {
            0 | 1 => Doing::BackTo(self.below(savepoints.saturating_add(1)) as usize),
            2 | 3 => Doing::InsertOf(self.below(2), self.byte(), self.length()),
            4 => Doing::UpdateOf(self.near_place(), self.byte(), self.length()),
            _ => Doing::DeleteOf(self.near_place()),
        }
    }

    /// What a session does whose transaction can only abort: most do that, and some try another call first.
    pub(super) fn doing_of_victim(&mut self, savepoints: u32) -> Doing {
        match self.below(3) {
            0 => self.doing_of_session(true, savepoints),
            _ => Doing::Abort,
        }
    }

    /// What a session does whose call waits: most try whether it goes on, and some take its wait back.
    pub(super) fn doing_of_waiter(&mut self) -> Doing {
        match self.below(16) {
            0 => self.doing(),
            1 | 2 => Doing::ForceStage,
            3 | 4 => Doing::ForceOpen,
            5 => Doing::GiveUp,
            _ => Doing::Resume,
        }
    }

    // One of a few places, where sessions meet. Some have no page or no store.
    fn near_place(&mut self) -> Place {
        if self.below(24) == 0 {
            return (self.below(12), self.below(4), 2042);
        }
        let store = self.below(2);
        let page = if store == 0 { self.below(2) } else { 0 };
        let slot = u16::try_from(self.below(3)).unwrap_or(0);
        (store, page, slot)
    }

    // Most are records.
    fn depth(&mut self) -> Depth {
        match self.below(8) {
            0 => 0,
            1 => 1,
            2 | 3 => 2,
            _ => 3,
        }
    }

    fn mode(&mut self) -> Mode {
        match self.below(6) {
            0 => Mode::IS,
            1 => Mode::IX,
            2 => Mode::SH,
            3 => Mode::SIX,
            4 => Mode::UD,
            _ => Mode::EX,
        }
    }

    // A call on records.
    fn change(&mut self) -> Doing {
        match self.below(8) {
            0 | 1 | 2 => Doing::InsertOf(self.below(STORES), self.byte(), self.length()),
            3 | 4 => Doing::UpdateOf(self.place(), self.byte(), self.length()),
            5 => Doing::DeleteOf(self.place()),
            6 => Doing::GetOf(self.place()),
            _ => Doing::ScanOf(self.below(STORES)),
        }
    }
}
