//! How many transactions there are, for those who ask whether a world is quiet; and whom the log is kept for.
ghost use Rattle.std.specs.Prelude.{◌≡◌};

use crate::world::World;
use shore_core::TailHolder;
use shore_disk::Disk;

impl<L: Disk, V: Disk> World<L, V> {
    ghost use Rattle.shore_world.specs.Counts.{TailIsHeldBy, transactions_in};

    /// How many transactions are in the table, with those whose resolves wait.
    pub fn transactions(&self) -> usize
        ensures { result ≡ transactions_in self.now }
    {
        self.core.transactions()
    }

    /// Whom the log has to be kept for from furthest back on: who stands in the way of a call that is refused by `LogFull` once the last checkpoint has ended.
    pub fn tail_holder(&self) -> TailHolder
        ensures { TailIsHeldBy self.now result }
    {
        self.core.tail_holder()
    }
}
