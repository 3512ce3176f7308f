//! The nodes of the lock table, for those who show it.
ghost use Rattle.std.specs.List.Sorted.{IsPermutation, IsSorted};
ghost use Rattle.std.specs.Prelude.{IfOk};
ghost use Rattle.shore_locks.specs.Listing.{request_cmp};

use crate::core_calls::Core;
use shore_disk::Disk;
use shore_log::Tail;
use shore_model::Request;
use std::alloc::{AllocError, Global};

impl<T: Tail, V: Disk> Core<T, V> {
    ghost use Rattle.shore_core.specs.Cores.{locks_of};

    /// All requests, granted or waiting, by granule and then by transaction.
    pub fn nodes(&self, alloc: Global) -> Result<Vec<Request>, AllocError>
        ensures all { IfOk result (λ all. IsPermutation (locks_of self.now).requests all.items) }
        ensures order { IfOk result (λ all. IsSorted request_cmp all.items) }
    {
        self.control.requests(alloc)
    }
}
