//! How many transactions there are, for those who ask whether the core is quiet; and how much room the log has.
ghost use Rattle.std.specs.Prelude.{◌≡◌};
ghost use Rattle.shore_txn.specs.Transactions.{room_in};

use crate::core_calls::Core;
use shore_disk::Disk;
use shore_log::Tail;
use shore_txn::LogRoom;

impl<T: Tail, V: Disk> Core<T, V> {
    ghost use Rattle.shore_core.specs.Cores.{txns_of};
    ghost use Rattle.shore_core.specs.Trails.{count_of};

    /// How many transactions are in the table, with those whose resolves wait.
    pub fn transactions(&self) -> usize
        ensures { result ≡ count_of self.now }
    {
        self.control.count()
    }

    /// The room of the log: what is kept of it, what is reserved, and how long it is.
    pub fn room(&self) -> LogRoom
        ensures { result ≡ room_in (txns_of self.now) }
    {
        self.control.room()
    }
}
