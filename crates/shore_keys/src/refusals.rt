//! Why a call of a map is refused.

use shore_types::Fault;
use std::alloc::AllocError;

/// Why a map's call is refused.
#[derive(Drop)]
pub enum Refusal {
    /// A call of the manager was refused.
    Call(Fault),
    /// An allocation failed.
    Memory,
    /// A record is no node, or no value is where one should be. Then the records represent no map, or the transaction cannot commit.
    Damaged,
    /// The key is longer than `MAX_KEY_BYTES`.
    TooLong,
    /// The store of the nodes is that of the values.
    OneStore,
    /// The leaf of the key has no room for it.
    Full,
    /// A search has taken `MOST_STEPS` steps.
    TooFar,
}

impl From<AllocError> for Refusal {
    ghost use Rattle.std.specs.Prelude.{◌≡◌};
    ghost use Rattle.shore_keys.specs.declared.refusals.Refusal.TheVariants.{Memory};

    ghost from_gives = { λ _ fault. fault ≡ Memory };

    fn from(_: AllocError) -> Self {
        Refusal::Memory
    }
}
