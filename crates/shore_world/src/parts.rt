//! A world taken apart, for who runs its parts under locks of their own, and put together again.
ghost use Rattle.std.specs.Prelude.{◌≡◌, ◌⊎◌, ◌+◌, [], false, None, OnErr, OnOk, IfErr, IsSome, IsTrue, length};
ghost use Rattle.shore_types.specs.declared.faults.Fault.TheVariants as Fault;
ghost use Rattle.shore_types.specs.declared.layout.TheConstants.{LOG_FRONT_BYTES};
ghost use Rattle.shore_disk.specs.Device.{size};
ghost use Rattle.shore_core.specs.Cores.{durable_of, first_of, told_of, txns_of, waiting_of};
ghost use Rattle.shore_core.specs.Checkpointing.{KeepsFor};
ghost use Rattle.shore_log.specs.Settled.{IsSpelled, KnowsRoom, cut_of_log, records_of_log, stable};
ghost use Rattle.shore_txn.specs.Transactions.{room_in};

use crate::world::World;
use shore_check::Stage;
use shore_core::Core;
use shore_disk::Disk;
use shore_log::{LogDev, PlainTail};
use shore_restart::Report;
use shore_types::{Fault, Lsn};

impl<L: Disk, V: Disk> World<L, V> {
    ghost use Rattle.shore_world.specs.Worlds.{IsUnchanged, anchor_in, failed_in};

    /// The number of the checkpoint that the anchor names, 0 if there is none.
    pub fn checkpoint(&self) -> Lsn
        ensures { result ≡ (anchor_in self.now).checkpoint }
    {
        self.log.checkpoint()
    }

    /// Hands the records that wait in the core's log buffer over to the log device. `Failed` after a failure of a device or a damaged page, and `NotQuiet` while a frame is
    /// under way: they stay.
    pub fn hand_over(&mut self) -> Result<(), Fault>
        ensures unchanged { IsUnchanged self.old self.new }
        ensures emptied { OnOk result (waiting_of self.new.core ≡ []) }
        ensures running { OnOk result ((failed_in self.new ≡ false) × (self.new.log.staged ≡ None)) }
        ensures refused { IfErr result (λ fault. (IsTrue (failed_in self.old) × (fault ≡ Fault.Failed))
            ⊎ ((failed_in self.old ≡ false) × IsSome self.old.log.staged × (fault ≡ Fault.NotQuiet))) }
        ensures stay { OnErr result (waiting_of self.new.core ≡ waiting_of self.old.core) }
    {
        if self.core.has_failed() {
            return Err(Fault::Failed);
        }
        if self.log.is_staged() {
            return Err(Fault::NotQuiet);
        }
        self.core.hand_over(&mut self.log);
        Ok(())
    }

    /// Its core, its log device, how far its checkpoint has come, and what its restart did.
    pub fn into_parts(self) -> (Core<PlainTail, V>, LogDev<L>, Stage, Report)
        ensures { (result.0 ≡ self.core) × (result.1 ≡ self.log) × (result.2 ≡ self.stage) × (result.3 ≡ self.report) }
    {
        (self.core, self.log, self.stage, self.report)
    }

    /// The world of such parts. They are of one world: the log buffer's next number follows the log device's last, the core was told what is durable, and the log buffer what there is room for.
    pub fn from_parts(
        core: Core<PlainTail, V>,
        log: LogDev<L>,
        stage: Stage,
        report: Report,
    ) -> World<L, V>
        requires numbers { first_of core ≡ cut_of_log log + 1 + length (records_of_log log) }
        requires durable { durable_of core ≡ cut_of_log log + length (stable log) }
        requires ring { (room_in (txns_of core)).stream_bytes + LOG_FRONT_BYTES ≡ size (L.Disk.history log.device) }
        requires knows { KnowsRoom log (told_of core) }
        requires spelled { IsSpelled log }
        requires aside { KeepsFor stage (told_of core) }
        ensures { (result.core ≡ core) × (result.log ≡ log) × (result.stage ≡ stage) × (result.report ≡ report) }
    {
        World {
            core,
            log,
            stage,
            report,
        }
    }
}
