//! A batch of pages on its way to the volume, a sync at a time.
ghost use Rattle.std.specs.Prelude.{◌≡◌, ◌⊎◌, ◌≤◌, ◌+◌, ℕ, List, All, Contains, IfErr, IsFalse, IsSomeAnd, IsTrue, MatchResult, None, OnOk, is_some, length, option_map};
ghost use Rattle.shore_disk.specs.Cause.{HasCause};
ghost use Rattle.shore_disk.specs.Device.{LeavesOnly, size};
ghost use Rattle.shore_dwrite.specs.Shown.{RiseFrom, ShowsBehind};
ghost use Rattle.shore_dwrite.specs.Syncs.{SyncsOnce, syncs_of};
ghost use Rattle.shore_types.specs.declared.faults.Fault.TheVariants as Fault;
ghost use Rattle.shore_types.specs.declared.layout.TheConstants.{MAX_BATCH_PAGES};
ghost use Rattle.shore_pool.specs.Changes.{settled};
ghost use Rattle.shore_pool.specs.FrameMaps.{IsDue};
ghost use Rattle.shore_pool.specs.declared.amid.Amid.TheVariants as Amid;
ghost use Rattle.shore_pool.specs.Pages.{AreUpTo};

use super::Pool;
use crate::amid::Amid;
use crate::gathering::gather;
use shore_disk::Disk;
use shore_types::{Fault, Lsn};

impl<D: Disk> Pool<D> {
    ghost use Rattle.shore_pool.specs.Pools.{GoesOnWith, LeavesPages, PoolHolds, KeepsBatchOrGivesUp, WroteBack, amid_of, batch_of, count_of, device_of, faults_of, frame_at, geometry_of, history_of, honesty_of, limit_of};

    /// How far the batch under way is.
    pub fn amid(&self) -> Amid
        ensures { result ≡ amid_of self.now }
    {
        self.amid
    }

    /// How many pages the batch has that is under way, or was last.
    pub fn batch_pages(&self) -> usize
        ensures { result ≡ length (batch_of self.now) }
    {
        self.batch.numbers().len()
    }

    /// Begins a batch of pages that are in frames, by the first of its four syncs: their images, as they are now, are in the area then. Each step is one sync; at
    /// an error no frame has changed.
    pub fn begin(&mut self, numbers: &[u32]) -> Result<(), Fault>
        requires rests { amid_of self.old ≡ Amid.Rest }
        requires some { 1 ≤ length numbers.now }
        requires most { length numbers.now ≤ MAX_BATCH_PAGES }
        requires rise { RiseFrom 0 numbers.now }
        requires there { All (λ k. IsTrue (is_some (frame_at self.old k))) numbers.now }
        ensures begun { OnOk result ((amid_of self.new ≡ Amid.Written) × (batch_of self.new ≡ numbers.now)) }
        ensures frames { (k : ℕ) → frame_at self.new k ≡ frame_at self.old k }
        ensures refused { IfErr result (λ fault. (fault ≡ Fault.Device) × (amid_of self.new ≡ Amid.Rest)) }
        ensures kept { (front : List ℕ) (disk : ℕ → List ℕ) → PoolHolds self.old front disk
            → MatchResult result (λ _. PoolHolds self.new front disk) (λ fault. (fault ≡ Fault.Device) ⊎ PoolHolds self.new front disk) }

        // A crash at any moment of the call leaves each page as it was.
        ensures any_moment { (front : List ℕ) (disk : ℕ → List ℕ) → PoolHolds self.old front disk
            → LeavesOnly (history_of self.old) (history_of self.new) (ShowsBehind (geometry_of self.old) front disk) }

        ensures count { count_of self.new ≡ count_of self.old }
        ensures syncs { IsTrue (honesty_of self.old) → SyncsOnce result (history_of self.old) (history_of self.new) }
        ensures honest { honesty_of self.new ≡ honesty_of self.old }
        ensures size { size (history_of self.new) ≡ size (history_of self.old) }
        ensures geometry { geometry_of self.new ≡ geometry_of self.old }
        ensures limit { limit_of self.new ≡ limit_of self.old }
        ensures cause { HasCause result (faults_of self.old) (faults_of self.new) }
    {
        gather(&mut self.batch, &self.frames, numbers);
        self.device.begin_batch(&self.batch)?;
        self.amid = Amid::Written;
        Ok(())
    }

    /// Whether each page of the batch under way has a frame, with a number up to this one.
    pub fn is_up_to(&self, durable: Lsn) -> bool
        ensures yes { IsTrue result → AreUpTo (frame_at self.now) durable (batch_of self.now) }
        ensures no { IsFalse result → AreUpTo (frame_at self.now) durable (batch_of self.now) → ⊥ }
    {
        let numbers = self.batch.numbers();
        for i in 0..numbers.len() {
            if !self.frames.is_up_to(numbers[i], durable) {
                return false;
            }
        }
        true
    }

    /// Opens the gate of a batch: its pages are written, and clean.
    pub fn open(&mut self) -> Result<(), Fault>
        requires { amid_of self.old ≡ Amid.Written }
        ensures opened { OnOk result (amid_of self.new ≡ Amid.Opened) }
        ensures batch { batch_of self.new ≡ batch_of self.old }
        ensures clean { OnOk result ((k : ℕ) → Contains (batch_of self.old) k → frame_at self.new k ≡ option_map settled (frame_at self.old k)) }
        ensures others { OnOk result ((k : ℕ) → (Contains (batch_of self.old) k → ⊥) → frame_at self.new k ≡ frame_at self.old k) }
        ensures refused { IfErr result (λ fault. (fault ≡ Fault.Device) × ((k : ℕ) → frame_at self.new k ≡ frame_at self.old k)) }
        ensures kept { (front : List ℕ) (disk : ℕ → List ℕ) (durable : ℕ) → PoolHolds self.old front disk → AreUpTo (frame_at self.old) durable (batch_of self.old)
            → OnOk result (WroteBack self.old self.new durable front disk) }

        // A crash at any moment of the call leaves pages that are old, or those of their frames with durable numbers.
        ensures any_moment { (front : List ℕ) (disk : ℕ → List ℕ) (durable : ℕ) → PoolHolds self.old front disk → AreUpTo (frame_at self.old) durable (batch_of self.old)
            → LeavesOnly (history_of self.old) (history_of self.new) (LeavesPages self.old durable front disk) }

        ensures count { count_of self.new ≡ count_of self.old }
        ensures syncs { IsTrue (honesty_of self.old) → SyncsOnce result (history_of self.old) (history_of self.new) }
        ensures honest { honesty_of self.new ≡ honesty_of self.old }
        ensures size { size (history_of self.new) ≡ size (history_of self.old) }
        ensures geometry { geometry_of self.new ≡ geometry_of self.old }
        ensures limit { limit_of self.new ≡ limit_of self.old }
        ensures cause { HasCause result (faults_of self.old) (faults_of self.new) }
    {
        self.device.open_batch()?;
        self.frames.settle_all(self.batch.numbers());
        self.amid = Amid::Opened;
        Ok(())
    }

    /// Puts the pages of a batch in place, as its images have them: their frames may go then.
    pub fn place(&mut self) -> Result<(), Fault>
        requires { amid_of self.old ≡ Amid.Opened }
        ensures placed { OnOk result (amid_of self.new ≡ Amid.Placed) }
        ensures batch { batch_of self.new ≡ batch_of self.old }
        ensures frames { self.new.frames ≡ self.old.frames }
        ensures refused { IfErr result (λ fault. fault ≡ Fault.Device) }
        ensures kept { (front : List ℕ) (disk : ℕ → List ℕ) → PoolHolds self.old front disk → OnOk result (PoolHolds self.new front disk) }

        // A crash at any moment of the call leaves each page as it was, those of the batch among them.
        ensures any_moment { (front : List ℕ) (disk : ℕ → List ℕ) → PoolHolds self.old front disk
            → LeavesOnly (history_of self.old) (history_of self.new) (ShowsBehind (geometry_of self.old) front disk) }

        ensures syncs { IsTrue (honesty_of self.old) → SyncsOnce result (history_of self.old) (history_of self.new) }
        ensures honest { honesty_of self.new ≡ honesty_of self.old }
        ensures size { size (history_of self.new) ≡ size (history_of self.old) }
        ensures geometry { geometry_of self.new ≡ geometry_of self.old }
        ensures cause { HasCause result (faults_of self.old) (faults_of self.new) }
    {
        self.device.place_batch(&self.batch)?;
        self.amid = Amid::Placed;
        Ok(())
    }

    /// Shuts the gate of a batch: the next one may begin.
    pub fn end(&mut self) -> Result<(), Fault>
        requires { amid_of self.old ≡ Amid.Placed }
        ensures ended { OnOk result (amid_of self.new ≡ Amid.Rest) }
        ensures batch { batch_of self.new ≡ batch_of self.old }
        ensures frames { self.new.frames ≡ self.old.frames }
        ensures refused { IfErr result (λ fault. fault ≡ Fault.Device) }
        ensures kept { (front : List ℕ) (disk : ℕ → List ℕ) → PoolHolds self.old front disk → OnOk result (PoolHolds self.new front disk) }

        // A crash at any moment of the call leaves each page as it was.
        ensures any_moment { (front : List ℕ) (disk : ℕ → List ℕ) → PoolHolds self.old front disk
            → LeavesOnly (history_of self.old) (history_of self.new) (ShowsBehind (geometry_of self.old) front disk) }

        ensures syncs { IsTrue (honesty_of self.old) → SyncsOnce result (history_of self.old) (history_of self.new) }
        ensures honest { honesty_of self.new ≡ honesty_of self.old }
        ensures size { size (history_of self.new) ≡ size (history_of self.old) }
        ensures geometry { geometry_of self.new ≡ geometry_of self.old }
        ensures cause { HasCause result (faults_of self.old) (faults_of self.new) }
    {
        self.device.end_batch()?;
        self.amid = Amid::Rest;
        Ok(())
    }

    /// Ends the batch under way, if there is one: by two syncs, or one, or none where its gate is shut, since it is given up then.
    pub fn finish(&mut self) -> Result<(), Fault>
        ensures ended { OnOk result (amid_of self.new ≡ Amid.Rest) }
        ensures frames { self.new.frames ≡ self.old.frames }
        ensures refused { IfErr result (λ fault. fault ≡ Fault.Device) }
        ensures kept { (front : List ℕ) (disk : ℕ → List ℕ) → PoolHolds self.old front disk → OnOk result (PoolHolds self.new front disk) }
        ensures any_moment { (front : List ℕ) (disk : ℕ → List ℕ) → PoolHolds self.old front disk
            → LeavesOnly (history_of self.old) (history_of self.new) (ShowsBehind (geometry_of self.old) front disk) }

        // Where no batch is under way, or its gate is shut, no call is made.
        ensures idle { amid_of self.old ≡ Amid.Rest → self.new ≡ self.old }
        ensures given_up { amid_of self.old ≡ Amid.Written → device_of self.new ≡ device_of self.old }
        ensures honest { honesty_of self.new ≡ honesty_of self.old }
        ensures size { size (history_of self.new) ≡ size (history_of self.old) }
        ensures geometry { geometry_of self.new ≡ geometry_of self.old }
        ensures cause { HasCause result (faults_of self.old) (faults_of self.new) }
    {
        match self.amid {
            Amid::Rest => Ok(()),
            Amid::Written => {
                self.amid = Amid::Rest;
                Ok(())
            }
            Amid::Opened => {
                self.place()?;
                self.end()
            }
            Amid::Placed => self.end(),
        }
    }

    // Brings a due page onto the volume and in place, and others with it: by the two syncs that the batch under way still takes, if it has the page and its gate is shut; else by a
    // batch from this page on, once the one under way has ended.
    pub(super) fn write_with(&mut self, number: u32, durable: Lsn) -> Result<(), Fault>
        requires { IsSomeAnd (frame_at self.old number) (IsDue durable) }
        ensures clean { OnOk result (IsSomeAnd (frame_at self.new number) (λ f. f.recovery ≡ None)) }
        ensures closed { OnOk result (amid_of self.new ≡ Amid.Opened → ⊥) }
        ensures frames { (k : ℕ) → (frame_at self.new k ≡ frame_at self.old k) ⊎ (frame_at self.new k ≡ option_map settled (frame_at self.old k)) }
        ensures kept { (front : List ℕ) (disk : ℕ → List ℕ) → PoolHolds self.old front disk
            → MatchResult result (λ _. WroteBack self.old self.new durable front disk) (λ fault. (fault ≡ Fault.Device) ⊎ WroteBack self.old self.new durable front disk) }
        ensures refused { IfErr result (λ fault. fault ≡ Fault.Device) }
        ensures any_moment { (front : List ℕ) (disk : ℕ → List ℕ) → PoolHolds self.old front disk
            → LeavesOnly (history_of self.old) (history_of self.new) (LeavesPages self.old durable front disk) }
        // A batch under way that has the page, with its gate shut, is gone on with by two syncs.
        ensures syncs { IsTrue (honesty_of self.old) → GoesOnWith self.old number durable → syncs_of (history_of self.new) ≤ syncs_of (history_of self.old) + 2 }
        ensures count { count_of self.new ≡ count_of self.old }
        ensures honest { honesty_of self.new ≡ honesty_of self.old }
        ensures size { size (history_of self.new) ≡ size (history_of self.old) }
        ensures geometry { geometry_of self.new ≡ geometry_of self.old }
        ensures limit { limit_of self.new ≡ limit_of self.old }
        ensures cause { HasCause result (faults_of self.old) (faults_of self.new) }
    {
        if self.has_durable(number, durable) {
            self.open()?;
            self.place()?;
            return Ok(());
        }
        self.finish()?;
        let pages = self.due(number, durable);
        self.write(&pages)?;
        Ok(())
    }

    // Whether the batch under way has a page, and its gate is shut and may be opened.
    fn has_durable(&self, number: u32, durable: Lsn) -> bool
        ensures yes { IsTrue result → GoesOnWith self.now number durable }
        ensures no { IsFalse result → GoesOnWith self.now number durable → ⊥ }
    {
        match self.amid {
            Amid::Written => {
                if self.batch.has(number) {
                    return self.is_up_to(durable);
                }
                false
            }
            Amid::Rest | Amid::Opened | Amid::Placed => false,
        }
    }

    // A batch whose gate is shut is given up if a page of it is to be changed: its image would be old. Nothing of it counted.
    pub(super) fn give_up_with(&mut self, number: u32)
        ensures device { device_of self.new ≡ device_of self.old }
        ensures frames { self.new.frames ≡ self.old.frames }
        ensures kept { (front : List ℕ) (disk : ℕ → List ℕ) → PoolHolds self.old front disk → PoolHolds self.new front disk }
        ensures gone { amid_of self.new ≡ Amid.Written → Contains (batch_of self.new) number → ⊥ }
        ensures same { batch_of self.new ≡ batch_of self.old }
        ensures batch { KeepsBatchOrGivesUp self.old self.new }
        // A batch that the page is not of goes on.
        ensures apart { (Contains (batch_of self.old) number → ⊥) → self.new ≡ self.old }
    {
        match self.amid {
            Amid::Written => {
                if self.batch.has(number) {
                    self.amid = Amid::Rest;
                }
            }
            Amid::Rest | Amid::Opened | Amid::Placed => {}
        }
    }

    // Sees to it that a clean frame may go: if its page is of a batch whose gate is open, what stands in its place may be old, so the batch is put in place first.
    pub(super) fn let_go(&mut self, number: u32) -> Result<(), Fault>
        ensures apart { OnOk result (amid_of self.new ≡ Amid.Opened → Contains (batch_of self.new) number → ⊥) }
        ensures frames { self.new.frames ≡ self.old.frames }
        ensures refused { IfErr result (λ fault. fault ≡ Fault.Device) }
        ensures kept { (front : List ℕ) (disk : ℕ → List ℕ) → PoolHolds self.old front disk → OnOk result (PoolHolds self.new front disk) }
        ensures any_moment { (front : List ℕ) (disk : ℕ → List ℕ) → PoolHolds self.old front disk
            → LeavesOnly (history_of self.old) (history_of self.new) (ShowsBehind (geometry_of self.old) front disk) }

        // A page that is not of such a batch asks for no call.
        ensures idle { (amid_of self.old ≡ Amid.Opened → Contains (batch_of self.old) number → ⊥) → self.new ≡ self.old }
        ensures honest { honesty_of self.new ≡ honesty_of self.old }
        ensures size { size (history_of self.new) ≡ size (history_of self.old) }
        ensures geometry { geometry_of self.new ≡ geometry_of self.old }
        ensures cause { HasCause result (faults_of self.old) (faults_of self.new) }
    {
        match self.amid {
            Amid::Opened => {
                if self.batch.has(number) {
                    return self.place();
                }
                Ok(())
            }
            Amid::Rest | Amid::Written | Amid::Placed => Ok(()),
        }
    }
}
