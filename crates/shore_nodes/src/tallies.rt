//! How many of a queue hold in each mode, how many wait, and how many of these are conversions.
ghost use Rattle.std.specs.Prelude.{◌≡◌, ◌<◌, ◌+◌, ◌-◌, ◌^◌, ◌==◌, ◌&&◌, [], ℕ, Some, IsFalse, IsTrue, is_some, length, map, true};
ghost use Rattle.shore_types.specs.declared.locking.Mode.{Mode};
ghost use Rattle.shore_nodes.specs.Grants as steps;
ghost use Rattle.shore_model.specs.declared.requests.Request.{Request};
ghost use Rattle.shore_model.specs.Requests.{is_conversion, requests_at};
ghost use Rattle.shore_nodes.specs.Tallies as counts;
ghost use Rattle.shore_nodes.specs.Tallies.{count_in, is_just, one_if};

use crate::judgements::is_at;
use crate::walks::Walk;
use shore_model::Request;
use shore_model::requests::Group;
use shore_modes::grants;
use shore_types::{Granule, Mode};

/// How many requests hold in each mode, how many want something, and how many of these hold something too.
#[derive(Clone, Copy)]
pub struct Tally {
    // How many hold IS.
    is: usize,
    // How many hold IX.
    ix: usize,
    // How many hold SH.
    sh: usize,
    // How many hold SIX.
    six: usize,
    // How many hold EX.
    ex: usize,
    // How many hold UD.
    ud: usize,
    // How many want a mode.
    waiting: usize,
    // How many of those that want one hold another: a part of `waiting`.
    converting: usize,
}

impl Tally {
    /// Of no requests.
    pub fn none() -> Tally
        ensures { counts.Counts result [] }
    {
        Tally {
            is: 0,
            ix: 0,
            sh: 0,
            six: 0,
            ex: 0,
            ud: 0,
            waiting: 0,
            converting: 0,
        }
    }

    /// Counts one request more.
    pub fn add(&mut self, request: &Request)
        ensures holding { (m : Mode) → count_in self.old m + 1 < 2 ^ 64 → count_in self.new m ≡ count_in self.old m + one_if (is_just m request.now.held) }
        ensures waiting { self.old.waiting + 1 < 2 ^ 64 → self.new.waiting ≡ self.old.waiting + one_if (is_some request.now.wanted) }
        ensures converting { self.old.converting + 1 < 2 ^ 64 → self.new.converting ≡ self.old.converting + one_if (is_conversion request.now) }
    {
        match request.held {
            None => {}
            Some(Mode::IS) => self.is = self.is.saturating_add(1),
            Some(Mode::IX) => self.ix = self.ix.saturating_add(1),
            Some(Mode::SH) => self.sh = self.sh.saturating_add(1),
            Some(Mode::SIX) => self.six = self.six.saturating_add(1),
            Some(Mode::EX) => self.ex = self.ex.saturating_add(1),
            Some(Mode::UD) => self.ud = self.ud.saturating_add(1),
        }
        if request.wanted.is_some() {
            self.waiting = self.waiting.saturating_add(1);
            if request.held.is_some() {
                self.converting = self.converting.saturating_add(1);
            }
        }
    }

    /// Counts one request fewer.
    pub fn take_out(&mut self, request: &Request)
        ensures holding { (m : Mode) → count_in self.new m ≡ count_in self.old m - one_if (is_just m request.now.held) }
        ensures waiting { self.new.waiting ≡ self.old.waiting - one_if (is_some request.now.wanted) }
        ensures converting { self.new.converting ≡ self.old.converting - one_if (is_conversion request.now) }
    {
        match request.held {
            None => {}
            Some(Mode::IS) => self.is = self.is.saturating_sub(1),
            Some(Mode::IX) => self.ix = self.ix.saturating_sub(1),
            Some(Mode::SH) => self.sh = self.sh.saturating_sub(1),
            Some(Mode::SIX) => self.six = self.six.saturating_sub(1),
            Some(Mode::EX) => self.ex = self.ex.saturating_sub(1),
            Some(Mode::UD) => self.ud = self.ud.saturating_sub(1),
        }
        if request.wanted.is_some() {
            self.waiting = self.waiting.saturating_sub(1);
            if request.held.is_some() {
                self.converting = self.converting.saturating_sub(1);
            }
        }
    }

    /// Whether somebody wants something.
    pub fn has_waiters(self) -> bool
        ensures none { IsFalse result → self.waiting ≡ 0 }
        ensures some { IsTrue result → 0 < self.waiting }
    {
        self.waiting > 0
    }

    /// Whether somebody who holds something wants more.
    pub fn has_conversions(self) -> bool
        ensures none { IsFalse result → self.converting ≡ 0 }
        ensures some { IsTrue result → 0 < self.converting }
    {
        self.converting > 0
    }

    /// Whether somebody of a group may be counted: nobody is if not.
    pub fn may_have(self, group: Group) -> bool
        ensures { result ≡ counts.may_have self group }
    {
        match group {
            Group::Holders => true,
            Group::Conversions => self.converting > 0,
            Group::NewWaiters => self.waiting > 0,
        }
    }

    /// Whether nobody wants something, and no mode is held that refuses this one.
    pub fn lets_in(self, asked: Mode) -> bool
        ensures is { result ≡ ((self.waiting == 0) && counts.counted_grant self asked) }
        ensures free { IsTrue result → (self.waiting ≡ 0) × ((m : Mode) → steps.is_refused (Some asked) (Some m) ≡ true → count_in self m ≡ 0) }
    {
        self.waiting == 0 && self.all_grant(asked)
    }

    /// Whether all that is held grants what is wanted, if anything.
    pub fn allow(self, wanted: Option<Mode>) -> bool
        ensures { result ≡ counts.allow self wanted }
    {
        match wanted {
            None => true,
            Some(asked) => self.all_grant(asked),
        }
    }

    fn all_grant(self, asked: Mode) -> bool
        ensures { result ≡ counts.counted_grant self asked }
    {
        (self.is == 0 || grants(Mode::IS, asked))
            && (self.ix == 0 || grants(Mode::IX, asked))
            && (self.sh == 0 || grants(Mode::SH, asked))
            && (self.six == 0 || grants(Mode::SIX, asked))
            && (self.ex == 0 || grants(Mode::EX, asked))
            && (self.ud == 0 || grants(Mode::UD, asked))
    }
}

/// Of the requests for a granule among those of a walk.
pub fn tally_at(mut walk: Walk<'_>, granule: &Granule) -> Tally
    ensures { length (requests_at granule.now (map (λ (p : ℕ × Request). p.1) walk.entry)) < 2 ^ 64 → counts.Counts result (requests_at granule.now (map (λ (p : ℕ × Request). p.1) walk.entry)) }
{
    let mut tally = Tally::none();
    while let Some((_, one)) = walk.advance() {
        if is_at(one, granule) {
            tally.add(one);
        }
    }
    tally
}

/// Of the requests of a walk.
pub fn tally_of(mut walk: Walk<'_>) -> Tally
    ensures { length walk.entry < 2 ^ 64 → counts.Counts result (map (λ (p : ℕ × Request). p.1) walk.entry) }
{
    let mut tally = Tally::none();
    while let Some((_, request)) = walk.advance() {
        tally.add(request);
    }
    tally
}
