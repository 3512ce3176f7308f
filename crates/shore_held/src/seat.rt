//! A seat of the words, in a type that says of which.
ghost use Rattle.std.specs.Prelude.{◌≡◌, ◌≤◌, ◌<◌, ◌+◌, [], ◌∷◌, ◌++◌, true, false};
ghost use Rattle.shore_words.specs.Words.{keeper, listener, looker, no_anchor, scribe, AreBy, HasHeard, Listens, heard_of};
ghost use Rattle.shore_words.specs.declared.rule.View.{View};

use crate::names::Named;
use shore_model::{Call, Step};
use shore_types::Lsn;
use shore_words::{View, WordSeat, Words};
use std::marker::{Model, PhantomData};
use std::snapshot::Snapshot;

/// What one thread knows of the words. Contracts see it as that.
#[derive(Drop)]
pub struct Seat<B: Named> {
    inner: WordSeat,
    of: PhantomData<B>,
}

impl<B: Named> Model for Seat<B> {
    ghost Value = { View };

    ghost view = { λ s. s.inner.me.0 };

    ghost invariant = { λ s. s.inner.table_id ≡ B.table };
}

impl<B: Named> Seat<B> {
    /// A seat of the words that the names have.
    pub fn of(inner: WordSeat) -> Seat<B>
        requires { inner.table_id ≡ B.table }
        ensures { result ≡ inner.me.0 }
    {
        Seat {
            inner,
            of: PhantomData,
        }
    }

    /// Tells that the log is durable up to this number.
    pub fn tell(&mut self, words: &Words, number: u64)
        requires words { (words.now.table.shared.table_id ≡ B.table) × (4 < B.table.words) }
        requires tells { self.old.tells ≡ true }
        requires no_lower { self.old.told ≤ number }
        ensures { self.new ≡ record self.old { tells = true; told = number } }
    {
        words.tell(&mut self.inner, number);
    }

    /// The number told.
    pub fn look(&mut self, words: &Words) -> u64
        requires { (words.now.table.shared.table_id ≡ B.table) × (4 < B.table.words) }
        ensures seen { self.new ≡ record self.old { seen = result } }
        ensures rises { self.old.seen ≤ result }
        ensures own { self.old.tells ≡ true → result ≡ self.old.told }
    {
        words.seen(&mut self.inner)
    }

    /// Asks the workers to stop.
    pub fn ask_stop(&mut self, words: &Words)
        requires { (words.now.table.shared.table_id ≡ B.table) × (4 < B.table.words) }
        ensures { self.new ≡ record self.old { asked = true } }
    {
        words.ask_stop(&mut self.inner);
    }

    /// Whether the workers are to stop. Who asked for it or found it once finds it again.
    pub fn stopping(&mut self, words: &Words) -> bool
        requires { (words.now.table.shared.table_id ≡ B.table) × (4 < B.table.words) }
        ensures stopped { self.new ≡ record self.old { stopped = result } }
        ensures stays { (self.old.asked ≡ true → result ≡ true) × (self.old.stopped ≡ true → result ≡ true) }
    {
        words.stopping(&mut self.inner)
    }

    /// Tells that a device has failed.
    pub fn tell_failure(&mut self, words: &Words)
        requires words { (words.now.table.shared.table_id ≡ B.table) × (4 < B.table.words) }
        requires notes { self.old.notes ≡ true }
        ensures { self.new ≡ record self.old { failing = true } }
    {
        words.tell_failure(&mut self.inner);
    }

    /// Whether that was told. Who found it once finds it again.
    pub fn has_failed(&mut self, words: &Words) -> bool
        requires { (words.now.table.shared.table_id ≡ B.table) × (4 < B.table.words) }
        ensures failed { self.new ≡ record self.old { failed = result } }
        ensures stays { self.old.failed ≡ true → result ≡ true }
    {
        words.has_failed(&mut self.inner)
    }

    /// A seat for one who looks.
    pub fn reader(&mut self, words: &Words) -> Seat<B>
        requires { (words.now.table.shared.table_id ≡ B.table) × (4 < B.table.words) }
        ensures same { self.new ≡ self.old }
        ensures new { result ≡ looker self.old.seen }
    {
        Seat::of(words.reader(&mut self.inner))
    }

    /// A seat that keeps the anchor in the place of this one.
    pub fn keeper(&mut self, words: &Words) -> Seat<B>
        requires words { (words.now.table.shared.table_id ≡ B.table) × (4 < B.table.words) }
        requires keeps { self.old.keeps ≡ true }
        ensures same { self.new ≡ record self.old { keeps = false; kept = no_anchor } }
        ensures new { result ≡ keeper self.old.seen self.old.kept }
    {
        Seat::of(words.keeper(&mut self.inner))
    }

    /// Shows that what a seat has seen was told by this one, which has then seen what it told.
    pub fn compare(&mut self, words: &Words, seat: &mut Seat<B>)
        requires words { (words.now.table.shared.table_id ≡ B.table) × (4 < B.table.words) }
        requires tells { self.old.tells ≡ true }
        ensures same { seat.new ≡ seat.old }
        ensures teller { self.new ≡ record self.old { seen = self.old.told } }
        ensures seen { seat.old.seen ≤ self.old.told }
    {
        words.compare(&mut self.inner, &mut seat.inner);
    }

    /// Shows that the seat that keeps has the anchor that this one knows, and that what it has seen was told; it has then seen all that was told.
    pub fn meet(&mut self, words: &Words, seat: &mut Seat<B>)
        requires words { (words.now.table.shared.table_id ≡ B.table) × (4 < B.table.words) }
        requires tells { self.old.tells ≡ true }
        requires keeps { seat.old.keeps ≡ true }
        ensures teller { self.new ≡ record self.old { seen = self.old.told; keeps = false; kept = no_anchor } }
        ensures seat { seat.new ≡ keeper self.old.told self.old.anchor }
        ensures seen { seat.old.seen ≤ self.old.told }
        ensures one { seat.old.kept ≡ self.old.anchor }
    {
        words.meet(&mut self.inner, &mut seat.inner);
    }

    /// Moves the anchor: to another checkpoint, and another tail.
    pub fn move_anchor(&mut self, words: &Words, seat: &mut Seat<B>, checkpoint: Lsn, tail: u64)
        requires words { (words.now.table.shared.table_id ≡ B.table) × (4 < B.table.words) }
        requires tells { self.old.tells ≡ true }
        requires keeps { seat.old.keeps ≡ true }
        ensures teller { self.new ≡ record self.old { seen = self.old.told; anchor = record self.old.anchor { checkpoint = checkpoint; tail = tail }; keeps = false; kept = no_anchor } }
        ensures seat { seat.new ≡ keeper self.old.told (record self.old.anchor { checkpoint = checkpoint; tail = tail }) }
        ensures seen { seat.old.seen ≤ self.old.told }
        ensures one { seat.old.kept ≡ self.old.anchor }
    {
        words.move_anchor(&mut self.inner, &mut seat.inner, checkpoint.0, tail);
    }

    /// Notes that a move of the anchor has failed: it was to lead to this checkpoint, with this record kept.
    pub fn fail_move(&mut self, words: &Words, seat: &mut Seat<B>, checkpoint: Lsn, number: Lsn)
        requires words { (words.now.table.shared.table_id ≡ B.table) × (4 < B.table.words) }
        requires tells { self.old.tells ≡ true }
        requires keeps { seat.old.keeps ≡ true }
        ensures teller { self.new ≡ record self.old { seen = self.old.told; anchor = record self.old.anchor { aim = (checkpoint, number) }; keeps = false; kept = no_anchor } }
        ensures seat { seat.new ≡ keeper self.old.told (record self.old.anchor { aim = (checkpoint, number) }) }
        ensures seen { seat.old.seen ≤ self.old.told }
        ensures one { seat.old.kept ≡ self.old.anchor }
    {
        words.fail_move(&mut self.inner, &mut seat.inner, checkpoint.0, number.0);
    }

    /// A seat that notes what sessions hear, in the place of this one.
    pub fn scribe(&mut self, words: &Words) -> Seat<B>
        requires words { (words.now.table.shared.table_id ≡ B.table) × (4 < B.table.words) }
        requires notes { self.old.notes ≡ true }
        ensures same { self.new ≡ record self.old { notes = false; noted = []; made = 0; failing = false } }
        ensures new { result ≡ scribe self.old.seen self.old.noted self.old.made self.old.failing }
    {
        Seat::of(words.scribe(&mut self.inner))
    }

    /// The seat of a new session: it has heard nothing, and its number is the next.
    pub fn session(&mut self, words: &Words) -> Seat<B>
        requires words { (words.now.table.shared.table_id ≡ B.table) × (4 < B.table.words) }
        requires notes { self.old.notes ≡ true }
        ensures same { self.new ≡ record self.old { made = self.old.made + 1 } }
        ensures new { result ≡ listener self.old.seen (self.old.made + 1) [] }
    {
        Seat::of(words.session(&mut self.inner))
    }

    /// Notes what a session asked and what that came to, and its seat has heard it.
    pub fn note(
        &mut self,
        words: &Words,
        ear: &mut Seat<B>,
        asked: &Snapshot<Option<Call>>,
        step: &Step,
    )
        requires words { (words.now.table.shared.table_id ≡ B.table) × (4 < B.table.words) }
        requires notes { self.old.notes ≡ true }
        requires listens { Listens ear.old }
        ensures notes { (self.new.notes ≡ true) × (self.new.made ≡ self.old.made)
            × (self.new.noted ≡ self.old.noted ++ record { session = ear.old.session; heard = record { asked = asked.now.value; step = step.now } } ∷ []) × (self.new.failing ≡ self.old.failing) }
        ensures heard { ear.new ≡ record ear.old { heard = ear.old.heard ++ record { asked = asked.now.value; step = step.now } ∷ [] } }
    {
        words.note(&mut self.inner, &mut ear.inner, asked, step);
    }

    /// Shows that what a seat knows of a session was noted of it, that nobody is noted but the sessions made, and that a failure which it found was told. Then the seat knows nothing of a session.
    pub fn show(&mut self, words: &Words, ear: &mut Seat<B>)
        requires words { (words.now.table.shared.table_id ≡ B.table) × (4 < B.table.words) }
        requires notes { self.old.notes ≡ true }
        ensures same { self.new ≡ record self.old { session = 0; listens = false; heard = []; failed = false } }
        ensures spent { ear.new ≡ record ear.old { session = 0; listens = false; heard = [] } }
        ensures heard { HasHeard self.old.noted ear.old.session ear.old.heard × (ear.old.session ≤ self.old.made) }
        ensures whole { ear.old.listens ≡ true → heard_of ear.old.session self.old.noted ≡ ear.old.heard }
        ensures by { AreBy self.old.made self.old.noted }
        ensures failed { ear.old.failed ≡ true → self.old.failing ≡ true }
    {
        words.show(&mut self.inner, &mut ear.inner);
    }
}
