//! The records of the beginning, made by one client.
use crate::clients::{ACCOUNTS, FIRST, MOST_CLIENTS, bytes_of};
use shore_model::Call;
use shore_shared::{Client, Job};
use shore_types::{Fault, StoreId};
use std::alloc::Global;

/// The accounts, and for each client that there may be a counter for each account, on a page of its own.
#[derive(Drop)]
pub struct Fill;

impl Job for Fill {
    type Done = ();

    ghost use Rattle.std.specs.Prelude.{⊤};

    // Nothing is claimed of it: what it leaves is looked at when the records are shown.
    ghost says = { λ _ _ _ _ _. ⊤ };

    fn work<C: Client>(&self, alloc: Global, _number: usize, client: &mut C) -> Result<(), Fault> {
        client.call(Call::Begin)?;
        for _ in 0..ACCOUNTS {
            client.call(Call::Insert(StoreId(0), bytes_of(alloc, FIRST)?))?;
        }
        for nth in 0..MOST_CLIENTS {
            for _ in 0..ACCOUNTS {
                client.call(Call::Insert(StoreId(1 + nth as u32), bytes_of(alloc, 0)?))?;
            }
        }
        client.commit_durable()?;
        Ok(())
    }
}
