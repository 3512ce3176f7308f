//! The durable word, the stop word, the two words of the anchor, and the word of a failure. Nobody waits for a step on them.
ghost use Rattle.std.specs.Prelude.{◌≡◌, ◌≤◌, ◌<◌, ◌+◌, true, false, [], ◌∷◌, ◌++◌, IfOk};
ghost use Rattle.atomic_table.specs.Seated.{TableId};
ghost use Rattle.shore_words.specs.Words.{keeper, known, listener, looker, no_anchor, scribe, teller, AreBy, HasHeard, IsOf, Listens, heard_of};

use crate::rule::{
    AimCheckpoint, AimTail, Ask, Becomes, Claim, Compare, Keeper, Look, LookForFailure,
    MoveCheckpoint, MoveTail, Notes, Noting, Own, Reader, Scribe, Session, Shows, Stop, Take, Tell,
    TellFailure, Told, View, WordSeat,
};
use atomic_table::Table;
use shore_model::{Call, Step};
use std::alloc::{AllocError, Global};
use std::marker::Brand;
use std::snapshot::Snapshot;

// The durable word.
const DURABLE: usize = 0;

// The stop word: 1 once the workers are to stop.
const STOP: usize = 1;

// The tail word: from which record on the log is kept, as the anchor names it; or the one that was to be kept, once a move of the anchor has failed.
const TAIL: usize = 2;

// The number of the anchor's checkpoint, or of the one to which it was to be moved.
const CHECKPOINT: usize = 3;

// The word of a failure: 1 once it was told that a device has failed.
const FAILED: usize = 4;

/// The number up to which the log is durable, which one seat tells and every seat may look at; whether the workers are to stop; and the anchor of the log, which that
/// seat knows and one more, which keeps it. The anchor moves only where both are. That a device has failed is told by the seat that notes what sessions hear.
#[derive(Drop)]
pub struct Words {
    // The words.
    table: Table<u8, View, (u64, u64, u64), Told, Global>,
}

impl Words {
    /// The words of a log that is durable up to this number, with an anchor of this checkpoint and this tail, and the seat that tells and keeps.
    pub fn new(
        alloc: Global,
        durable: u64,
        checkpoint: u64,
        tail: u64,
    ) -> Result<(Words, WordSeat), AllocError>
        ensures { IfOk result (λ made. IsOf made.0.table.shared.table_id made.1 × (made.1.me ≡ (teller durable (known checkpoint tail), []))) }
    {
        let (table, seat) = Table::of_words(
            alloc,
            &[durable, 0, tail, checkpoint, 0],
            &(durable, checkpoint, tail),
        )?;
        Ok((Words { table }, seat))
    }

    /// Tells that the log is durable up to this number.
    pub fn tell(&self, seat: &mut WordSeat, number: u64)
        requires seat { IsOf self.now.table.shared.table_id seat.old × (seat.old.me.0.tells ≡ true) }
        requires no_lower { seat.old.me.0.told ≤ number }
        ensures same { seat.new.table_id ≡ seat.old.table_id }
        ensures told { seat.new.me ≡ (record seat.old.me.0 { tells = true; told = number }, seat.old.me.1) }
    {
        self.table.shared.store::<Tell>(seat, DURABLE, number);
    }

    /// The number told. It never falls.
    pub fn seen(&self, seat: &mut WordSeat) -> u64
        requires { IsOf self.now.table.shared.table_id seat.old }
        ensures same { seat.new.table_id ≡ seat.old.table_id }
        ensures seen { seat.new.me ≡ (record seat.old.me.0 { seen = result }, seat.old.me.1) }
        ensures rises { seat.old.me.0.seen ≤ result }
        ensures own { seat.old.me.0.tells ≡ true → result ≡ seat.old.me.0.told }
    {
        self.table.shared.load::<Look>(seat, DURABLE)
    }

    /// Asks the workers to stop.
    pub fn ask_stop(&self, seat: &mut WordSeat)
        requires { IsOf self.now.table.shared.table_id seat.old }
        ensures same { seat.new.table_id ≡ seat.old.table_id }
        ensures asked { seat.new.me ≡ (record seat.old.me.0 { asked = true }, seat.old.me.1) }
    {
        self.table.shared.store::<Ask>(seat, STOP, 1);
    }

    /// Whether the workers are to stop. Who asked for it or found it once finds it again.
    pub fn stopping(&self, seat: &mut WordSeat) -> bool
        requires { IsOf self.now.table.shared.table_id seat.old }
        ensures same { seat.new.table_id ≡ seat.old.table_id }
        ensures stopped { seat.new.me ≡ (record seat.old.me.0 { stopped = result }, seat.old.me.1) }
        ensures stays { (seat.old.me.0.asked ≡ true → result ≡ true) × (seat.old.me.0.stopped ≡ true → result ≡ true) }
    {
        self.table.shared.load::<Stop>(seat, STOP) == 1
    }

    /// Tells that a device has failed.
    pub fn tell_failure(&self, seat: &mut WordSeat)
        requires { IsOf self.now.table.shared.table_id seat.old × (seat.old.me.0.notes ≡ true) }
        ensures same { seat.new.table_id ≡ seat.old.table_id }
        ensures failing { seat.new.me ≡ (record seat.old.me.0 { failing = true }, seat.old.me.1) }
    {
        self.table.shared.store::<TellFailure>(seat, FAILED, 1);
    }

    /// Whether that was told. Who found it once finds it again.
    pub fn has_failed(&self, seat: &mut WordSeat) -> bool
        requires { IsOf self.now.table.shared.table_id seat.old }
        ensures same { seat.new.table_id ≡ seat.old.table_id }
        ensures failed { seat.new.me ≡ (record seat.old.me.0 { failed = result }, seat.old.me.1) }
        ensures stays { seat.old.me.0.failed ≡ true → result ≡ true }
    {
        self.table.shared.load::<LookForFailure>(seat, FAILED) == 1
    }

    /// A seat for one who looks.
    pub fn reader(&self, seat: &mut WordSeat) -> WordSeat
        requires { IsOf self.now.table.shared.table_id seat.old }
        ensures same { (seat.new.table_id ≡ seat.old.table_id) × (seat.new.me ≡ seat.old.me) }
        ensures new { IsOf self.now.table.shared.table_id result × (result.me ≡ (looker seat.old.me.0.seen, [])) }
    {
        self.table.shared.split_seat::<Reader>(seat)
    }

    /// A seat that keeps the anchor in the place of this one.
    pub fn keeper(&self, seat: &mut WordSeat) -> WordSeat
        requires { IsOf self.now.table.shared.table_id seat.old × (seat.old.me.0.keeps ≡ true) }
        ensures same { (seat.new.table_id ≡ seat.old.table_id) × (seat.new.me ≡ (record seat.old.me.0 { keeps = false; kept = no_anchor }, seat.old.me.1)) }
        ensures new { IsOf self.now.table.shared.table_id result × (result.me ≡ (keeper seat.old.me.0.seen seat.old.me.0.kept, [])) }
    {
        self.table.shared.split_seat::<Keeper>(seat)
    }

    /// Shows that what a seat has seen was told. The seat that tells has then seen what it told.
    pub fn compare(&self, teller: &mut WordSeat, seat: &mut WordSeat)
        requires teller { IsOf self.now.table.shared.table_id teller.old × (teller.old.me.0.tells ≡ true) }
        requires seat { IsOf self.now.table.shared.table_id seat.old }
        ensures same { (seat.new.table_id ≡ seat.old.table_id) × (seat.new.me ≡ seat.old.me) }
        ensures teller { (teller.new.table_id ≡ teller.old.table_id) × (teller.new.me ≡ (record teller.old.me.0 { seen = teller.old.me.0.told }, teller.old.me.1)) }
        ensures seen { (seat.old.me.0.seen ≤ teller.old.me.0.told) × (teller.old.me.0.seen ≤ teller.old.me.0.told) }
    {
        let claim = self.reader(seat);
        self.table.shared.join_seat::<Claim>(teller, claim);
        self.table.shared.load::<Look>(teller, DURABLE);
    }

    // The seat that tells takes over what the one that keeps has seen, and the anchor; it is shown that the two anchors are one.
    fn take_anchor(&self, teller: &mut WordSeat, seat: &mut WordSeat)
        requires teller { IsOf self.now.table.shared.table_id teller.old × (teller.old.me.0.tells ≡ true) }
        requires seat { IsOf self.now.table.shared.table_id seat.old × (seat.old.me.0.keeps ≡ true) }
        ensures same { (seat.new.table_id ≡ seat.old.table_id) × (teller.new.table_id ≡ teller.old.table_id) }
        ensures teller { teller.new.me ≡ (record teller.old.me.0 { seen = teller.old.me.0.told; keeps = true; kept = teller.old.me.0.anchor }, teller.old.me.1) }
        ensures seen { (seat.old.me.0.seen ≤ teller.old.me.0.told) × (teller.old.me.0.seen ≤ teller.old.me.0.told) }
        ensures one { seat.old.me.0.kept ≡ teller.old.me.0.anchor }
    {
        let right = self.keeper(seat);
        self.table.shared.join_seat::<Take>(teller, right);
        self.table.shared.load::<Look>(teller, DURABLE);
        self.table.shared.load::<Compare>(teller, TAIL);
    }

    /// Shows that the seat that keeps has the anchor that the one that tells knows, and that what it has seen was told; it has then seen all that was told.
    pub fn meet(&self, teller: &mut WordSeat, seat: &mut WordSeat)
        requires teller { IsOf self.now.table.shared.table_id teller.old × (teller.old.me.0.tells ≡ true) }
        requires seat { IsOf self.now.table.shared.table_id seat.old × (seat.old.me.0.keeps ≡ true) }
        ensures teller { (teller.new.table_id ≡ teller.old.table_id) × (teller.new.me ≡ (record teller.old.me.0 { seen = teller.old.me.0.told; keeps = false; kept = no_anchor }, teller.old.me.1)) }
        ensures seat { IsOf self.now.table.shared.table_id seat.new × (seat.new.me ≡ (keeper teller.old.me.0.told teller.old.me.0.anchor, [])) }
        ensures seen { (seat.old.me.0.seen ≤ teller.old.me.0.told) × (teller.old.me.0.seen ≤ teller.old.me.0.told) }
        ensures one { seat.old.me.0.kept ≡ teller.old.me.0.anchor }
    {
        self.take_anchor(teller, seat);
        *seat = self.keeper(teller);
    }

    /// Moves the anchor, where the seat that tells and the one that keeps are.
    pub fn move_anchor(
        &self,
        teller: &mut WordSeat,
        seat: &mut WordSeat,
        checkpoint: u64,
        tail: u64,
    )
        requires teller { IsOf self.now.table.shared.table_id teller.old × (teller.old.me.0.tells ≡ true) }
        requires seat { IsOf self.now.table.shared.table_id seat.old × (seat.old.me.0.keeps ≡ true) }
        ensures teller { (teller.new.table_id ≡ teller.old.table_id) × (teller.new.me ≡ (record teller.old.me.0 { seen = teller.old.me.0.told; anchor = record teller.old.me.0.anchor { checkpoint = checkpoint; tail = tail }; keeps = false; kept = no_anchor }, teller.old.me.1)) }
        ensures seat { IsOf self.now.table.shared.table_id seat.new × (seat.new.me ≡ (keeper teller.old.me.0.told (record teller.old.me.0.anchor { checkpoint = checkpoint; tail = tail }), [])) }
        ensures seen { (seat.old.me.0.seen ≤ teller.old.me.0.told) × (teller.old.me.0.seen ≤ teller.old.me.0.told) }
        ensures one { seat.old.me.0.kept ≡ teller.old.me.0.anchor }
    {
        self.take_anchor(teller, seat);
        self.table.shared.store::<MoveTail>(teller, TAIL, tail);
        self.table
            .shared
            .store::<MoveCheckpoint>(teller, CHECKPOINT, checkpoint);
        *seat = self.keeper(teller);
    }

    /// Notes where the anchor was to be moved as that failed, where the seat that tells and the one that keeps are: to this checkpoint, with this record kept.
    pub fn fail_move(&self, teller: &mut WordSeat, seat: &mut WordSeat, checkpoint: u64, tail: u64)
        requires teller { IsOf self.now.table.shared.table_id teller.old × (teller.old.me.0.tells ≡ true) }
        requires seat { IsOf self.now.table.shared.table_id seat.old × (seat.old.me.0.keeps ≡ true) }
        ensures teller { (teller.new.table_id ≡ teller.old.table_id) × (teller.new.me ≡ (record teller.old.me.0 { seen = teller.old.me.0.told; anchor = record teller.old.me.0.anchor { aim = (checkpoint, tail) }; keeps = false; kept = no_anchor }, teller.old.me.1)) }
        ensures seat { IsOf self.now.table.shared.table_id seat.new × (seat.new.me ≡ (keeper teller.old.me.0.told (record teller.old.me.0.anchor { aim = (checkpoint, tail) }), [])) }
        ensures seen { (seat.old.me.0.seen ≤ teller.old.me.0.told) × (teller.old.me.0.seen ≤ teller.old.me.0.told) }
        ensures one { seat.old.me.0.kept ≡ teller.old.me.0.anchor }
    {
        self.take_anchor(teller, seat);
        self.table.shared.store::<AimTail>(teller, TAIL, tail);
        self.table
            .shared
            .store::<AimCheckpoint>(teller, CHECKPOINT, checkpoint);
        *seat = self.keeper(teller);
    }

    /// A seat that notes in the place of this one.
    pub fn scribe(&self, seat: &mut WordSeat) -> WordSeat
        requires { IsOf self.now.table.shared.table_id seat.old × (seat.old.me.0.notes ≡ true) }
        ensures same { (seat.new.table_id ≡ seat.old.table_id) × (seat.new.me ≡ (record seat.old.me.0 { notes = false; noted = []; made = 0; failing = false }, seat.old.me.1)) }
        ensures new { IsOf self.now.table.shared.table_id result × (result.me ≡ (scribe seat.old.me.0.seen seat.old.me.0.noted seat.old.me.0.made seat.old.me.0.failing, [])) }
    {
        self.table.shared.split_seat::<Scribe>(seat)
    }

    /// The seat of a new session: it has heard nothing, and its number is the next.
    pub fn session(&self, book: &mut WordSeat) -> WordSeat
        requires { IsOf self.now.table.shared.table_id book.old × (book.old.me.0.notes ≡ true) }
        ensures book { (book.new.table_id ≡ book.old.table_id) × (book.new.me ≡ (record book.old.me.0 { made = book.old.me.0.made + 1 }, book.old.me.1)) }
        ensures new { IsOf self.now.table.shared.table_id result × (result.me ≡ (listener book.old.me.0.seen (book.old.me.0.made + 1) [], [])) }
    {
        self.table.shared.split_seat::<Session>(book)
    }

    /// Notes what a session asked and what that came to, and its seat has heard it.
    pub fn note(
        &self,
        book: &mut WordSeat,
        seat: &mut WordSeat,
        asked: &Snapshot<Option<Call>>,
        step: &Step,
    )
        requires book { IsOf self.now.table.shared.table_id book.old × (book.old.me.0.notes ≡ true) }
        requires seat { IsOf self.now.table.shared.table_id seat.old × Listens seat.old.me.0 }
        ensures book { IsOf self.now.table.shared.table_id book.new × (book.new.me.1 ≡ []) × (book.new.me.0.notes ≡ true) × (book.new.me.0.made ≡ book.old.me.0.made)
            × (book.new.me.0.noted ≡ book.old.me.0.noted ++ record { session = seat.old.me.0.session; heard = record { asked = asked.now.value; step = step.now } } ∷ []) × (book.new.me.0.failing ≡ book.old.me.0.failing) }
        ensures seat { (seat.new.table_id ≡ seat.old.table_id)
            × (seat.new.me ≡ (record seat.old.me.0 { heard = seat.old.me.0.heard ++ record { asked = asked.now.value; step = step.now } ∷ [] }, seat.old.me.1)) }
    {
        self.note_picked::<Brand>(book, seat, asked, step);
    }

    // .. where the entry was picked.
    fn note_picked<E: Notes>(
        &self,
        book: &mut WordSeat,
        seat: &mut WordSeat,
        _asked: &Snapshot<Option<Call>>,
        _step: &Step,
    )
        requires book { IsOf self.now.table.shared.table_id book.old × (book.old.me.0.notes ≡ true) }
        requires seat { IsOf self.now.table.shared.table_id seat.old × Listens seat.old.me.0 }
        ensures book { IsOf self.now.table.shared.table_id book.new × (book.new.me.1 ≡ []) × (book.new.me.0.notes ≡ true) × (book.new.me.0.made ≡ book.old.me.0.made)
            × (book.new.me.0.noted ≡ book.old.me.0.noted ++ record { session = seat.old.me.0.session; heard = E.entry } ∷ []) × (book.new.me.0.failing ≡ book.old.me.0.failing) }
        ensures seat { (seat.new.table_id ≡ seat.old.table_id) × (seat.new.me ≡ (record seat.old.me.0 { heard = seat.old.me.0.heard ++ E.entry ∷ [] }, seat.old.me.1)) }
    {
        let right = self.scribe(book);
        self.table.shared.join_seat::<Noting<E>>(seat, right);
        *book = self.scribe(seat);
    }

    /// Shows that what a seat knows of a session was noted of it, that nobody else is noted than the sessions made, and that a failure which it found was told. Then the seat knows nothing of a session.
    pub fn show(&self, book: &mut WordSeat, seat: &mut WordSeat)
        requires book { IsOf self.now.table.shared.table_id book.old × (book.old.me.0.notes ≡ true) }
        requires seat { IsOf self.now.table.shared.table_id seat.old }
        ensures book { (book.new.table_id ≡ book.old.table_id) × (book.new.me ≡ (record book.old.me.0 { session = 0; listens = false; heard = []; failed = false }, book.old.me.1)) }
        ensures seat { (seat.new.table_id ≡ seat.old.table_id) × (seat.new.me ≡ (record seat.old.me.0 { session = 0; listens = false; heard = [] }, seat.old.me.1)) }
        ensures heard { HasHeard book.old.me.0.noted seat.old.me.0.session seat.old.me.0.heard × (seat.old.me.0.session ≤ book.old.me.0.made) }
        ensures whole { seat.old.me.0.listens ≡ true → heard_of seat.old.me.0.session book.old.me.0.noted ≡ seat.old.me.0.heard }
        ensures by { AreBy book.old.me.0.made book.old.me.0.noted }
        ensures failed { seat.old.me.0.failed ≡ true → book.old.me.0.failing ≡ true }
    {
        let own = self.table.shared.split_seat::<Own>(seat);
        self.table.shared.join_seat::<Becomes>(book, own);
        self.table.shared.load::<Shows>(book, DURABLE);
    }
}
