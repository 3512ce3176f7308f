//! What a transaction under way may do.
ghost use Rattle.std.specs.Prelude.{◌≡◌};

use shore_model::{Rollback, TxnState as ListedState};

#[derive(Clone, Copy)]
pub enum TxnState {
    /// It changes records.
    Active,
    /// It can only be rolled back, whole, and nothing of it is put back yet.
    Doomed,
    /// Some of its changes were put back, or are to be, and this is what is asked.
    RollingBack(Rollback),
    /// Its Prepare is logged, and not answered yet.
    Preparing,
    /// Its prepare is answered, or was found in the log: it waits for its decision.
    Prepared,
}

impl TxnState {
    ghost use Rattle.shore_txn.specs.TxnStates.{doomed_from, listed_state};

    /// What a checkpoint says of it.
    pub fn listed(self) -> ListedState
        ensures { result ≡ listed_state self }
    {
        match self {
            TxnState::Active | TxnState::Doomed => ListedState::Active,
            TxnState::RollingBack(_) => ListedState::RollingBack,
            TxnState::Preparing | TxnState::Prepared => ListedState::Prepared,
        }
    }

    /// What it is once it can only be rolled back, whole: if something was put back already, that goes on.
    pub(crate) fn doomed(self) -> TxnState
        ensures { result ≡ doomed_from self }
    {
        match self {
            TxnState::RollingBack(_) => TxnState::RollingBack(Rollback::Whole),
            TxnState::Active | TxnState::Doomed | TxnState::Preparing | TxnState::Prepared =>
                TxnState::Doomed,
        }
    }
}
