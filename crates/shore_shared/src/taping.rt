//! The tape of a manager for threads, which a test reads.
use crate::shared::Shared;
use shore_core::Step;
use shore_disk::Disk;
use shore_held::{Named, Taped};
use shore_log::Tail;
use shore_queue::Numbers;
use std::alloc::Global;
use std::sync::Wait;

impl<N: Numbers, B: Named, T: Tail, L: Disk, V: Disk> Shared<N, B, T, L, V> {
    /// From now on a tape has what each call of a session comes to, up to the first for which there is no memory.
    pub fn start_tape(&self, rt: &impl Wait, alloc: Global) {
        self.lock_core(rt).start_tape(alloc);
    }

    /// Ends the tape, and hands out what it has, the oldest first; None if there is none.
    pub fn take_tape(&self, rt: &impl Wait) -> Option<Vec<Taped>> {
        self.lock_core(rt).take_tape()
    }

    /// Cuts the tape: `Cut` if no transaction is under way and no resolve waits, else `NotQuiet`; `Failed` after a failure of a device or a damaged page.
    pub fn cut_trail(&self, rt: &impl Wait) -> Step {
        self.lock_core(rt).cut_trail()
    }
}
