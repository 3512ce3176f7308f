//! Who waits no more after a change of the requests.
ghost use Rattle.std.specs.Prelude.{◌≡◌, [], MatchOption, None, Some};
ghost use Rattle.shore_nodes.specs.LetThrough.{noted};

use shore_types::TxnId;
use std::marker::Model;

/// So many are told one by one. A change mostly lets one through or nobody; where it lets more through, who wakes them looks at all that wait.
pub const MOST_TOLD: usize = 8;

/// The transactions that a change of the requests let through: they waited, and wait no more. It takes no memory, so it tells a few of them by their numbers, and
/// of more only that they are more.
#[derive(Drop)]
pub struct LetThrough {
    // So many of them are told, in their turn; and then there are numbers of no meaning.
    txns: [TxnId; MOST_TOLD],
    // How many they are, or one more than can be told.
    count: usize,
}

impl Model for LetThrough {
    ghost use Rattle.std.specs.Prelude.{◌≡◌, ℕ, List, None, Option, Some, if◌then◌else◌, length, nat_lt, take};
    ghost use Rattle.shore_nodes.specs.declared.let_through.TheConstants.{MOST_TOLD};

    ghost Value = { Option (List ℕ) };

    ghost view = { λ l. if nat_lt MOST_TOLD l.count then None else Some (take l.count l.txns) };

    ghost invariant = { λ l. length l.txns ≡ MOST_TOLD };
}

impl LetThrough {
    /// Nobody.
    pub fn nobody() -> LetThrough
        ensures { result ≡ Some [] }
    {
        LetThrough {
            txns: [TxnId(0); MOST_TOLD],
            count: 0,
        }
    }

    /// One more.
    pub fn note(&mut self, txn: TxnId)
        ensures { self.new ≡ noted txn self.old }
    {
        if self.count < MOST_TOLD {
            self.txns[self.count] = txn;
            self.count += 1;
        } else {
            self.note_others();
        }
    }

    /// Others, of whom it is not known who they are.
    pub fn note_others(&mut self)
        ensures { self.new ≡ None }
    {
        self.count = MOST_TOLD + 1;
    }

    /// All of them, in their turn. None if they are more than it tells.
    pub fn all(&self) -> Option<&[TxnId]>
        ensures { MatchOption result (self.now ≡ None) (λ txns. self.now ≡ Some txns.now) }
    {
        if self.count > MOST_TOLD {
            None
        } else {
            Some(&self.txns[..self.count])
        }
    }
}
