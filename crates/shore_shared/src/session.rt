//! A session.
ghost use Rattle.std.specs.Prelude.{◌≡◌, ◌<◌, ◌+◌, ◌↔◌, IsTrue};
ghost use Rattle.shore_words.specs.Words.{Listens};

use shore_held::{Named, Seat};
use shore_types::SessionId;
use std::sync::ledger::Share;

/// One caller. It has one part of the ledger, and its share's amount is the number of its calls.
#[derive(Drop)]
pub struct Session<B: Named> {
    // Its number among the sessions of the manager.
    pub(crate) number: SessionId,
    pub(crate) share: Share<B>,
    pub(crate) seat: Seat<B>,
    // What it has heard: what its calls came to. It takes no memory.
    pub(crate) ear: Seat<B>,
    // Whether it is in a transaction, and whether it is counted among those that are busy.
    pub(crate) in_txn: bool,
    pub(crate) is_counted: bool,
    // How many steps in turn found the core's lock taken, and how many waits to come spare their looks.
    pub(crate) crowded: u32,
    pub(crate) spared: u32,
    ghost part: { share.parts ≡ 1 },
    ghost listens: { Listens ear × (ear.session ≡ number) },
}

impl<B: Named> Session<B> {
    pub(crate) fn new(number: SessionId, share: Share<B>, seat: Seat<B>, ear: Seat<B>) -> Session<B>
        requires part { share.parts ≡ 1 }
        requires listens { Listens ear × (ear.session ≡ number) }
        ensures { (result.number ≡ number) × (result.share ≡ share) × (result.seat ≡ seat) × (result.ear ≡ ear) }
    {
        Session {
            number,
            share,
            seat,
            ear,
            in_txn: false,
            is_counted: false,
            crowded: 0,
            spared: 0,
        }
    }

    // Whether so many sessions were made before it.
    pub(crate) fn is_next_of(&self, count: u32) -> bool
        ensures { IsTrue result ↔ (self.now.number ≡ count + 1) }
    {
        self.number.0 > count && self.number.0 - count == 1
    }

    /// What it knows of the words.
    pub fn seat(&mut self) -> &mut Seat<B>
        ensures { result.now ≡ self.old.seat }
    {
        &mut self.seat
    }
}
