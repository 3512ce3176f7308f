//! The rule of the words, what a seat knows of them, and what each step tells it.
use atomic_table::{Join, Play, Seat, Split, TableRule};
use shore_model::{Call, Step};
use std::collections::LinkedList;
use std::marker::{Brand, PhantomData};

/// What a session asked, and what it came to. No value of it is made.
pub struct Heard {
    /// The call; none if it went on with its call that waits, or took that wait back.
    pub asked: Option<Call>,
    /// What that came to.
    pub step: Step,
}

/// .. by which session. No value of it is made.
pub struct Noted {
    /// The session's number.
    pub session: u32,
    /// What it heard.
    pub heard: Heard,
}

/// What is noted. It is picked where it is.
pub trait Notes {
    ghost use Rattle.shore_words.specs.declared.rule.Heard.{Heard};

    ghost entry: { Heard };
}

impl Notes for Brand {
    ghost use Rattle.std.specs.Prelude.{None};
    ghost use Rattle.shore_model.specs.declared.step.Step.TheVariants as Step;

    ghost entry = { record { asked = None; step = Step.Nothing } };
}

/// What a seat knows. No value of it is made.
pub struct View {
    /// The greatest number that it has seen.
    pub seen: u64,
    /// Whether it is the one that tells.
    pub tells: bool,
    /// The number that it told, if it is.
    pub told: u64,
    /// The anchor that it knows, if it is.
    pub anchor: Known,
    /// Whether it is the one that keeps the anchor.
    pub keeps: bool,
    /// That anchor, if it is.
    pub kept: Known,
    /// Whether it asked the workers to stop.
    pub asked: bool,
    /// Whether its last look found that somebody did.
    pub stopped: bool,
    /// Of which session it knows something, 0 if of none.
    pub session: u32,
    /// Whether it is the one seat of that session.
    pub listens: bool,
    /// What it knows that the session heard: all of it if it is its seat.
    pub heard: LinkedList<Heard>,
    /// Whether it is the one that notes what sessions hear.
    pub notes: bool,
    /// What it noted, if it is.
    pub noted: LinkedList<Noted>,
    /// How many sessions it has made, if it is: the last one's number.
    pub made: u32,
    /// Whether it told that a device has failed, if it is.
    pub failing: bool,
    /// Whether its last look found that this was told.
    pub failed: bool,
}

/// What two seats know of the anchor. No value of it is made.
pub struct Known {
    /// The number of its checkpoint.
    pub checkpoint: u64,
    /// Its tail: from which record on the log is kept.
    pub tail: u64,
    /// Where a move of it that has failed was to lead: the number of the checkpoint, and that of the record that was to be kept. 0 and 0 if none has failed.
    pub aim: (u64, u64),
}

/// A seat: what one thread knows of the words. It takes no memory.
pub type WordSeat = Seat<u8, View>;

/// What is seen is at most what was told, by one seat; the stop word is 1 exactly if a seat asked for the stop; who tells and who keeps know one anchor; and what each
/// session heard is what was noted of it. That a device has failed is found only if it was told by who notes.
pub struct Told;

impl TableRule<u8, View, (u64, u64, u64)> for Told {
    ghost use Rattle.shore_words.specs.Words.{known, teller, IsTold};

    ghost holds = { λ _. IsTold };

    ghost first = { λ start. teller start.0 (known start.1 start.2) };
}

// A number is told.
pub(crate) struct Tell;

impl Play<u8, View> for Tell {
    ghost use Rattle.shore_words.specs.Words.{Tells};

    ghost then = { Tells };
}

// The number told is looked at.
pub(crate) struct Look;

impl Play<u8, View> for Look {
    ghost use Rattle.shore_words.specs.Words.{Looks};

    ghost then = { Looks };
}

// The stop is asked for.
pub(crate) struct Ask;

impl Play<u8, View> for Ask {
    ghost use Rattle.shore_words.specs.Words.{Asks};

    ghost then = { Asks };
}

// The stop word is looked at.
pub(crate) struct Stop;

impl Play<u8, View> for Stop {
    ghost use Rattle.shore_words.specs.Words.{Stops};

    ghost then = { Stops };
}

// The anchor that the seat knows and the one that it keeps are compared.
pub(crate) struct Compare;

impl Play<u8, View> for Compare {
    ghost use Rattle.shore_words.specs.Words.{Compares};

    ghost then = { Compares };
}

// The tail moves.
pub(crate) struct MoveTail;

impl Play<u8, View> for MoveTail {
    ghost use Rattle.shore_words.specs.Words.{MovesTail};

    ghost then = { MovesTail };
}

// The checkpoint moves.
pub(crate) struct MoveCheckpoint;

impl Play<u8, View> for MoveCheckpoint {
    ghost use Rattle.shore_words.specs.Words.{MovesCheckpoint};

    ghost then = { MovesCheckpoint };
}

// A move has failed that was to keep this record.
pub(crate) struct AimTail;

impl Play<u8, View> for AimTail {
    ghost use Rattle.shore_words.specs.Words.{AimsTail};

    ghost then = { AimsTail };
}

// .. and was to lead to this checkpoint.
pub(crate) struct AimCheckpoint;

impl Play<u8, View> for AimCheckpoint {
    ghost use Rattle.shore_words.specs.Words.{AimsCheckpoint};

    ghost then = { AimsCheckpoint };
}

// It is told that a device has failed.
pub(crate) struct TellFailure;

impl Play<u8, View> for TellFailure {
    ghost use Rattle.shore_words.specs.Words.{TellsFailure};

    ghost then = { TellsFailure };
}

// .. and looked for.
pub(crate) struct LookForFailure;

impl Play<u8, View> for LookForFailure {
    ghost use Rattle.shore_words.specs.Words.{LooksForFailure};

    ghost then = { LooksForFailure };
}

// A new seat has seen what this one has, and looks.
pub(crate) struct Reader;

impl Split<View> for Reader {
    ghost use Rattle.shore_words.specs.Words.{looker};

    ghost left = { λ v. v };

    ghost right = { λ v. looker v.seen };
}

// A new seat has seen what this one has, and keeps the anchor in its place.
pub(crate) struct Keeper;

impl Split<View> for Keeper {
    ghost use Rattle.std.specs.Prelude.{false};
    ghost use Rattle.shore_words.specs.Words.{keeper, no_anchor};

    ghost left = { λ v. record v { keeps = false; kept = no_anchor } };

    ghost right = { λ v. keeper v.seen v.kept };
}

// A new seat notes in its place.
pub(crate) struct Scribe;

impl Split<View> for Scribe {
    ghost use Rattle.std.specs.Prelude.{false, []};
    ghost use Rattle.shore_words.specs.Words.{scribe};

    ghost left = { λ v. record v { notes = false; noted = []; made = 0; failing = false } };

    ghost right = { λ v. scribe v.seen v.noted v.made v.failing };
}

// A new session has the next number, and has heard nothing.
pub(crate) struct Session;

impl Split<View> for Session {
    ghost use Rattle.std.specs.Prelude.{◌+◌, []};
    ghost use Rattle.shore_words.specs.Words.{listener};

    ghost left = { λ v. record v { made = v.made + 1 } };

    ghost right = { λ v. listener v.seen (v.made + 1) [] };
}

// All that a seat knows of a session goes to a new one, and whether it found a failure.
pub(crate) struct Own;

impl Split<View> for Own {
    ghost use Rattle.std.specs.Prelude.{false, []};
    ghost use Rattle.shore_words.specs.Words.{listener};

    ghost left = { λ v. record v { session = 0; listens = false; heard = [] } };

    ghost right = { λ v. record (listener v.seen v.session v.heard) { listens = v.listens; failed = v.failed } };
}

// The seat of a session takes in what was noted, and both have one entry more.
pub(crate) struct Noting<E: Notes> {
    of: PhantomData<E>,
}

impl<E: Notes> Join<View> for Noting<E> {
    ghost use Rattle.std.specs.Prelude.{true, ◌++◌, [], ◌∷◌};
    ghost use Rattle.shore_words.specs.Words.{looker};

    ghost both = { λ v w. record v { heard = v.heard ++ E.entry ∷ []; notes = true; noted = w.noted ++ record { session = v.session; heard = E.entry } ∷ []; made = w.made; failing = w.failing } };

    ghost spent = { looker 0 };
}

// A seat that looks becomes that of a session, and has found a failure if that one has.
pub(crate) struct Becomes;

impl Join<View> for Becomes {
    ghost use Rattle.shore_words.specs.Words.{looker};

    ghost both = { λ v w. record v { session = w.session; listens = w.listens; heard = w.heard; failed = w.failed } };

    ghost spent = { looker 0 };
}

// What a seat knows of a session is compared with what is noted, and the failure that it found with what was told; both are forgotten.
pub(crate) struct Shows;

impl Play<u8, View> for Shows {
    ghost use Rattle.shore_words.specs.Words.{ShowsHeard};

    ghost then = { ShowsHeard };
}

// The seat that tells takes over what another has seen.
pub(crate) struct Claim;

impl Join<View> for Claim {
    ghost use Rattle.std.specs.Prelude.{max};
    ghost use Rattle.shore_words.specs.Words.{looker};

    ghost both = { λ v w. record v { seen = max v.seen w.seen } };

    ghost spent = { looker 0 };
}

// .. and the anchor that it keeps.
pub(crate) struct Take;

impl Join<View> for Take {
    ghost use Rattle.std.specs.Prelude.{true, max};
    ghost use Rattle.shore_words.specs.Words.{looker};

    ghost both = { λ v w. record v { seen = max v.seen w.seen; keeps = true; kept = w.kept } };

    ghost spent = { looker 0 };
}
