//! The pages of a volume on its device.
ghost use Rattle.std.specs.Prelude.{◌≡◌, [], ◌∷◌, ◌⊎◌, ◌+◌, ◌*◌, ◌<◌, ◌≤◌, ℕ, List, length, All, Contains, IsTrue, IfErr, IfOk, OnOk, slice_get, Some};
ghost use Rattle.std.proofs.Props.{props};
ghost use Rattle.shore_types.specs.declared.layout.TheConstants.{MAX_PAGES, MAX_STORES};
ghost use Rattle.shore_types.specs.Versions.{page_bytes, pages_begin};
ghost use Rattle.shore_disk.specs.Device.{DeviceHistory, size, seen, may_leave, overwritten, CountsFault, LeavesOnly, Stands, TornFrom};
ghost use Rattle.shore_gate.specs.declared.gates.TheConstants.{OPEN};
ghost use Rattle.shore_dwrite.specs.Syncs.{SyncsOnce};
ghost use Rattle.shore_dwrite.specs.Checks.{HasRead, RefusesArea};
ghost use Rattle.shore_dwrite.specs.Differences.{DiffersInArea, DiffersInPages, HasImages, HasPages};
ghost use Rattle.shore_dwrite.specs.declared.places.TheConstants.{GATE_AT};
ghost use Rattle.shore_dwrite.specs.Images.{numbers_of, texts_of, version_of};
ghost use Rattle.shore_dwrite.specs.Shown.{AreBatchNumbers, IsBatch, IsShut, RiseFrom, overlaid, Shows, ShowsBehind, ShowsEither};
ghost use Rattle.shore_disk.specs.Cause.{HasCause};
ghost use Rattle.shore_gate.specs.Checks.{IsFromOutside};
ghost use Rattle.shore_page.specs.Text.{IsPageText, images_of, settled_page};
ghost use Rattle.shore_types.specs.Layout.{HasPage};
ghost use Rattle.shore_types.specs.declared.faults.Device.TheVariants as Device;
ghost use Rattle.shore_types.specs.declared.faults.Fault.TheVariants as Fault;
ghost use Rattle.shore_dwrite.specs.Volumes.{AreFirsts, HasNoPage, page_at, page_count, page_number, page_offset, part};

use crate::images::PageImages;
use crate::places::{
    AREA_AT, GATE_AT, TABLE_AT, TABLE_BYTES, first_numbers, page_count, page_offset,
};
use crate::replay::{check_images, read_table};
use crate::table::table_of;
use shore_disk::{Disk, DiskFault, FuseDisk};
use shore_gate::{CLOSED, OPEN, close_gate, is_open};
use shore_page::Page;
use shore_types::layout::{MAX_PAGE_BYTES, MAX_STORES};
use shore_types::{Device, Fault, Geometry, Lsn, PageId, Version};
use std::alloc::Global;

// The page whose text the bytes at an offset are, if its number is not above the last one of the log.
fn find_page(
    alloc: Global,
    version: Version,
    id: &PageId,
    bytes: &[u8],
    last: Lsn,
    at: u64,
) -> Result<Page, Fault>
    ensures found { IfOk result (λ page. IsPageText version bytes.now id.now page.number (images_of page.slots)
        × (page ≡ settled_page version id.now page.number (images_of page.slots)) × (page.number ≤ last)) }
    ensures refused { IfErr result (λ fault. (fault ≡ Fault.Memory)
        ⊎ ((fault ≡ Fault.Damaged Device.Volume at) × HasNoPage version bytes.now id.now last)) }
{
    let Some(page) = Page::from_bytes(alloc, version, *id, bytes)? else {
        return Err(Fault::damaged(Device::Volume, at));
    };
    if page.number().0 > last.0 {
        return Err(Fault::damaged(Device::Volume, at));
    }
    Ok(page)
}

/// The pages of a volume. It keeps none of them in memory.
#[derive(Drop)]
pub struct PageDev<D: Disk> {
    // What holds the bytes. Its length stays what the geometry asks, as no disk changes its own.
    device: D,
    // How the stores lie on it. It is not changed.
    geometry: Geometry,
    // For each store the number of its first page, made once from the geometry.
    firsts: [u32; MAX_STORES],
    ghost firsts_are: { AreFirsts geometry.stores firsts } by { Prim.hlevel props },
    ghost as_long: { size (D.Disk.history device) ≡ pages_begin geometry.version + page_bytes geometry.version * page_count geometry },
    ghost few: { page_count geometry ≤ MAX_PAGES },
    ghost few_stores: { length geometry.stores ≤ MAX_STORES },
}

impl<D: Disk> PageDev<D> {
    ghost use Rattle.shore_dwrite.specs.Settled.{IsSettled, IsStable, device_of, geometry_of};
    ghost use Rattle.shore_dwrite.specs.UnderWay.{IsOpened, IsPlaced, IsWritten};

    /// The pages on a device that is as long as its geometry asks.
    pub fn new(device: D, geometry: Geometry) -> PageDev<D>
        requires long { size (D.history device) ≡ pages_begin geometry.version + page_bytes geometry.version * page_count geometry }
        requires few { page_count geometry ≤ MAX_PAGES }
        requires few_stores { length geometry.stores ≤ MAX_STORES }
        ensures device { device_of result ≡ device }
        ensures geometry { geometry_of result ≡ geometry }
    {
        let firsts = first_numbers(&geometry);
        PageDev {
            device,
            geometry,
            firsts,
        }
    }

    /// The device, as it is.
    pub fn into_device(self) -> D
        ensures { result ≡ device_of self }
    {
        self.device
    }

    /// How its stores are laid out.
    pub fn geometry(&self) -> &Geometry
        ensures { result.now ≡ geometry_of self.now }
    {
        &self.geometry
    }

    /// How many pages the volume has.
    pub fn pages(&self) -> u32
        ensures { result ≡ page_count (geometry_of self.now) }
    {
        page_count(&self.geometry)
    }

    /// The number of a page on the volume. Numbers rise with the store, and in it with the page.
    pub fn number(&self, id: PageId) -> u32
        requires { HasPage (geometry_of self.now) id }
        ensures number { result ≡ page_number (geometry_of self.now) id }
        ensures within { result < page_count (geometry_of self.now) }
    {
        self.firsts[id.store.0 as usize] + id.page
    }

    /// Reads a page. `Damaged` at its first byte if the bytes there are no text of it, or if its number is above the last one of the log;
    /// `Memory` if an allocation failed. After each of these nothing has changed.
    pub fn read_page(&mut self, alloc: Global, id: PageId, last: Lsn) -> Result<Page, Fault>
        requires { HasPage (geometry_of self.old) id }
        ensures found { (front : List ℕ) (pages : ℕ → List ℕ) → IsSettled self.old front pages → IfOk result (λ page.
            IsPageText (geometry_of self.old).version (pages (page_number (geometry_of self.old) id)) id page.number (images_of page.slots)
            × (page ≡ settled_page (geometry_of self.old).version id page.number (images_of page.slots))) }
        ensures found_at { (image : List ℕ) → IsTrue (D.is_honest self.old.device) → Stands (D.history self.old.device) image → IfOk result (λ page.
            IsPageText (geometry_of self.old).version (page_at (geometry_of self.old).version image (page_number (geometry_of self.old) id)) id page.number (images_of page.slots)) }
        ensures page { IfOk result (λ page. page ≡ settled_page (geometry_of self.old).version id page.number (images_of page.slots)) }
        ensures behind { IfOk result (λ page. page.number ≤ last) }
        ensures refused { (front : List ℕ) (pages : ℕ → List ℕ) → IsSettled self.old front pages → IfErr result (λ fault.
            IsFromOutside fault
            ⊎ ((fault ≡ Fault.Damaged Device.Volume (page_offset (geometry_of self.old).version (page_number (geometry_of self.old) id)))
            × HasNoPage (geometry_of self.old).version (pages (page_number (geometry_of self.old) id)) id last)) }
        ensures refused_at { (image : List ℕ) → IsTrue (D.is_honest self.old.device) → Stands (D.history self.old.device) image → IfErr result (λ fault.
            IsFromOutside fault
            ⊎ ((fault ≡ Fault.Damaged Device.Volume (page_offset (geometry_of self.old).version (page_number (geometry_of self.old) id)))
            × HasNoPage (geometry_of self.old).version (page_at (geometry_of self.old).version image (page_number (geometry_of self.old) id)) id last)) }
        ensures settled { (front : List ℕ) (pages : ℕ → List ℕ) → IsSettled self.old front pages → IsSettled self.new front pages }
        ensures same { IsTrue (D.is_honest self.old.device) → D.history self.new.device ≡ D.history self.old.device }
        ensures honest { D.is_honest self.new.device ≡ D.is_honest self.old.device }
        ensures size { size (D.history self.new.device) ≡ size (D.history self.old.device) }
        ensures geometry { geometry_of self.new ≡ geometry_of self.old }
        ensures cause { HasCause result (D.faults self.old.device) (D.faults self.new.device) }
    {
        let version = self.geometry.version;
        let at = page_offset(version, self.number(id));
        let mut bytes = [0; MAX_PAGE_BYTES];
        let bytes = &mut bytes[..version.page_bytes()];
        self.device.read_at(at, bytes)?;
        find_page(alloc, version, &id, bytes, last, at)
    }

    /// Writes a batch of pages: all of them, or none after a loss of power and a replay. At an error the device failed, and any part of it
    /// may be done.
    pub fn write_batch(&mut self, images: &PageImages) -> Result<(), DiskFault>
        requires batch { IsBatch (geometry_of self.old) (numbers_of images.now) (texts_of images.now) }
        requires version { version_of images.now ≡ (geometry_of self.old).version }
        ensures settled { (front : List ℕ) (pages : ℕ → List ℕ) → IsSettled self.old front pages
            → OnOk result (IsSettled self.new front (overlaid (geometry_of self.old).version (numbers_of images.now) (texts_of images.now) pages)) }

        // A crash at any moment of the call leaves all pages of the batch old or all new, and each other page as it was.
        ensures any_moment { (front : List ℕ) (pages : ℕ → List ℕ) → IsSettled self.old front pages
            → LeavesOnly (D.history self.old.device) (D.history self.new.device)
            (ShowsEither (geometry_of self.old) front pages (overlaid (geometry_of self.old).version (numbers_of images.now) (texts_of images.now) pages)) }

        ensures honest { D.is_honest self.new.device ≡ D.is_honest self.old.device }
        ensures size { size (D.history self.new.device) ≡ size (D.history self.old.device) }
        ensures geometry { geometry_of self.new ≡ geometry_of self.old }
        ensures cause { CountsFault result (D.faults self.old.device) (D.faults self.new.device) }
    {
        self.begin_batch(images)?;
        self.open_batch()?;
        self.place_batch(images)?;
        self.end_batch()
    }

    /// The first of a batch's four syncs: its table and its images go into the area, behind the shut gate. All pages stay as they were. At an error, as at
    /// that of each other step, the device failed, and any part of it may be done.
    pub fn begin_batch(&mut self, images: &PageImages) -> Result<(), DiskFault>
        requires batch { IsBatch (geometry_of self.old) (numbers_of images.now) (texts_of images.now) }
        requires version { version_of images.now ≡ (geometry_of self.old).version }
        ensures written { (front : List ℕ) (pages : ℕ → List ℕ) → IsSettled self.old front pages
            → OnOk result (IsWritten self.new front pages (numbers_of images.now) (texts_of images.now)) }
        ensures settled { (front : List ℕ) (pages : ℕ → List ℕ) → IsSettled self.old front pages → OnOk result (IsSettled self.new front pages) }

        // A crash at any moment of the call leaves each page as it was.
        ensures any_moment { (front : List ℕ) (pages : ℕ → List ℕ) → IsSettled self.old front pages
            → LeavesOnly (D.history self.old.device) (D.history self.new.device) (ShowsBehind (geometry_of self.old) front pages) }

        ensures syncs { IsTrue (D.is_honest self.old.device) → SyncsOnce result (D.history self.old.device) (D.history self.new.device) }
        ensures honest { D.is_honest self.new.device ≡ D.is_honest self.old.device }
        ensures size { size (D.history self.new.device) ≡ size (D.history self.old.device) }
        ensures geometry { geometry_of self.new ≡ geometry_of self.old }
        ensures cause { CountsFault result (D.faults self.old.device) (D.faults self.new.device) }
    {
        self.write_area(images)
    }

    /// The second: the gate is opened. From its sync on the volume shows the batch's pages.
    pub fn open_batch(&mut self) -> Result<(), DiskFault>
        ensures opened { (front : List ℕ) (pages : ℕ → List ℕ) (numbers texts : List ℕ) → IsWritten self.old front pages numbers texts
            → OnOk result (IsOpened self.new front pages numbers texts) }

        // A crash at any moment of the call leaves all pages of the batch old or all new, and each other page as it was.
        ensures any_moment { (front : List ℕ) (pages : ℕ → List ℕ) (numbers texts : List ℕ) → IsWritten self.old front pages numbers texts
            → LeavesOnly (D.history self.old.device) (D.history self.new.device) (ShowsEither (geometry_of self.old) front pages (overlaid (geometry_of self.old).version numbers texts pages)) }

        ensures syncs { IsTrue (D.is_honest self.old.device) → SyncsOnce result (D.history self.old.device) (D.history self.new.device) }
        ensures honest { D.is_honest self.new.device ≡ D.is_honest self.old.device }
        ensures size { size (D.history self.new.device) ≡ size (D.history self.old.device) }
        ensures geometry { geometry_of self.new ≡ geometry_of self.old }
        ensures cause { CountsFault result (D.faults self.old.device) (D.faults self.new.device) }
    {
        self.set_gate(OPEN)
    }

    /// The third: each page of the batch is written in place.
    pub fn place_batch(&mut self, images: &PageImages) -> Result<(), DiskFault>
        requires numbers { AreBatchNumbers (geometry_of self.old) (numbers_of images.now) }
        requires version { version_of images.now ≡ (geometry_of self.old).version }
        ensures placed { (front : List ℕ) (pages : ℕ → List ℕ) → IsOpened self.old front pages (numbers_of images.now) (texts_of images.now)
            → OnOk result (IsPlaced self.new front pages (numbers_of images.now) (texts_of images.now)) }

        // A crash at any moment of the call leaves all pages of the batch new.
        ensures any_moment { (front : List ℕ) (pages : ℕ → List ℕ) → IsOpened self.old front pages (numbers_of images.now) (texts_of images.now)
            → LeavesOnly (D.history self.old.device) (D.history self.new.device)
            (ShowsBehind (geometry_of self.old) front (overlaid (geometry_of self.old).version (numbers_of images.now) (texts_of images.now) pages)) }

        ensures syncs { IsTrue (D.is_honest self.old.device) → SyncsOnce result (D.history self.old.device) (D.history self.new.device) }
        ensures honest { D.is_honest self.new.device ≡ D.is_honest self.old.device }
        ensures size { size (D.history self.new.device) ≡ size (D.history self.old.device) }
        ensures geometry { geometry_of self.new ≡ geometry_of self.old }
        ensures cause { CountsFault result (D.faults self.old.device) (D.faults self.new.device) }
    {
        self.write_in_place(images)
    }

    /// The fourth: the gate is shut, and the area may be written anew.
    pub fn end_batch(&mut self) -> Result<(), DiskFault>
        ensures settled { (front : List ℕ) (pages : ℕ → List ℕ) (numbers texts : List ℕ) → IsPlaced self.old front pages numbers texts
            → OnOk result (IsSettled self.new front (overlaid (geometry_of self.old).version numbers texts pages)) }

        // A crash at any moment of the call leaves all pages of the batch new.
        ensures any_moment { (front : List ℕ) (pages : ℕ → List ℕ) (numbers texts : List ℕ) → IsPlaced self.old front pages numbers texts
            → LeavesOnly (D.history self.old.device) (D.history self.new.device) (ShowsBehind (geometry_of self.old) front (overlaid (geometry_of self.old).version numbers texts pages)) }

        ensures syncs { IsTrue (D.is_honest self.old.device) → SyncsOnce result (D.history self.old.device) (D.history self.new.device) }
        ensures honest { D.is_honest self.new.device ≡ D.is_honest self.old.device }
        ensures size { size (D.history self.new.device) ≡ size (D.history self.old.device) }
        ensures geometry { geometry_of self.new ≡ geometry_of self.old }
        ensures cause { CountsFault result (D.faults self.old.device) (D.faults self.new.device) }
    {
        self.set_gate(CLOSED)
    }

    /// Lays the images of an open area into place, which a loss of power left there, and closes its gate. With a shut gate there is nothing
    /// to do. `Damaged` at the first part of an open area that is not in order: the count, an entry, an image; `Memory` if an allocation
    /// failed. After both nothing has changed.
    pub fn replay(&mut self, alloc: Global) -> Result<(), Fault>
        ensures replayed { (front : List ℕ) (pages : ℕ → List ℕ) → IsStable self.old front pages → OnOk result (IsSettled self.new front pages) }

        // An open area that is not in order is refused: the volume showed some pages.
        ensures in_order { (image : List ℕ) → IsTrue (D.is_honest self.old.device) → Stands (D.history self.old.device) image
            → OnOk result ((pages : ℕ → List ℕ) × Shows (geometry_of self.old) image pages) }

        // A crash at any moment of the call leaves a volume that shows the same pages.
        ensures any_moment { (front : List ℕ) (pages : ℕ → List ℕ) → IsStable self.old front pages
            → LeavesOnly (D.history self.old.device) (D.history self.new.device) (ShowsBehind (geometry_of self.old) front pages) }

        ensures refused { (image : List ℕ) → IsTrue (D.is_honest self.old.device) → Stands (D.history self.old.device) image → IfErr result (λ fault.
            IsFromOutside fault ⊎ ((part GATE_AT 1 image ≡ OPEN ∷ []) × RefusesArea (geometry_of self.old) image fault)) }
        ensures unchanged { IsTrue (D.is_honest self.old.device) → IfErr result (λ fault.
            (fault ≡ Fault.Device) ⊎ (D.history self.new.device ≡ D.history self.old.device)) }

        // With a shut gate no call changes the device.
        ensures shut { (image : List ℕ) → IsTrue (D.is_honest self.old.device) → Stands (D.history self.old.device) image → IsShut image
            → D.history self.new.device ≡ D.history self.old.device }
        ensures honest { D.is_honest self.new.device ≡ D.is_honest self.old.device }
        ensures size { size (D.history self.new.device) ≡ size (D.history self.old.device) }
        ensures geometry { geometry_of self.new ≡ geometry_of self.old }
        ensures cause { HasCause result (D.faults self.old.device) (D.faults self.new.device) }
    {
        let mut gate = [0];
        self.device.read_at(GATE_AT, &mut gate)?;
        if !is_open(gate[0]) {
            return Ok(());
        }
        let images = self.read_area(alloc)?;
        self.write_in_place(&images)?;
        Ok(close_gate(&mut self.device, GATE_AT)?)
    }

    // Reads and checks the table and the images of an open area. It owns what it has read across calls that may fail, and so keeps more
    // steps than others.
    fn read_area(&mut self, alloc: Global) -> Result<PageImages, Fault>
        ensures batch { IfOk result (λ images. IsBatch (geometry_of self.old) (numbers_of images) (texts_of images)) }
        ensures version { IfOk result (λ images. version_of images ≡ (geometry_of self.old).version) }
        ensures found { (image : List ℕ) → IsTrue (D.is_honest self.old.device) → Stands (D.history self.old.device) image
            → IfOk result (λ images. HasRead image (numbers_of images) (texts_of images)) }
        ensures refused { (image : List ℕ) → IsTrue (D.is_honest self.old.device) → Stands (D.history self.old.device) image
            → IfErr result (λ fault. IsFromOutside fault ⊎ RefusesArea (geometry_of self.old) image fault) }
        ensures same { IsTrue (D.is_honest self.old.device) → D.history self.new.device ≡ D.history self.old.device }
        ensures honest { D.is_honest self.new.device ≡ D.is_honest self.old.device }
        ensures size { size (D.history self.new.device) ≡ size (D.history self.old.device) }
        ensures geometry { geometry_of self.new ≡ geometry_of self.old }
        ensures cause { HasCause result (D.faults self.old.device) (D.faults self.new.device) }
    {
        let mut table = [0; TABLE_BYTES];
        self.device.read_at(TABLE_AT, &mut table)?;
        let numbers = read_table(alloc, &table, page_count(&self.geometry))?;
        let version = self.geometry.version;
        let mut bytes = Vec::from_elem(alloc, 0, version.page_bytes() * numbers.len())?;
        self.device.read_at(AREA_AT, &mut bytes)?;
        check_images(alloc, &self.geometry, &numbers, &bytes)?;
        Ok(PageImages::of(version, numbers, bytes))
    }

    // Writes the gate, and syncs.
    fn set_gate(&mut self, gate: u8) -> Result<(), DiskFault>
        ensures stable { IsTrue (D.is_honest self.old.device) → OnOk result (Stands (D.history self.new.device) (overwritten (seen (D.history self.old.device)) GATE_AT (gate ∷ []))) }
        ensures any_moment { IsTrue (D.is_honest self.old.device) → LeavesOnly (D.history self.old.device) (D.history self.new.device)
            (TornFrom GATE_AT 1 (D.history self.old.device)) }
        ensures syncs { IsTrue (D.is_honest self.old.device) → SyncsOnce result (D.history self.old.device) (D.history self.new.device) }
        ensures honest { D.is_honest self.new.device ≡ D.is_honest self.old.device }
        ensures size { size (D.history self.new.device) ≡ size (D.history self.old.device) }
        ensures geometry { geometry_of self.new ≡ geometry_of self.old }
        ensures cause { CountsFault result (D.faults self.old.device) (D.faults self.new.device) }
    {
        self.device.write_at(GATE_AT, &[gate])?;
        self.device.sync()
    }

    // Writes the table and the images behind the gate, and syncs.
    fn write_area(&mut self, images: &PageImages) -> Result<(), DiskFault>
        requires batch { IsBatch (geometry_of self.old) (numbers_of images.now) (texts_of images.now) }
        requires version { version_of images.now ≡ (geometry_of self.old).version }
        ensures done { (base : List ℕ) → IsTrue (D.is_honest self.old.device) → Stands (D.history self.old.device) base
            → OnOk result ((new : List ℕ) × Stands (D.history self.new.device) new × HasImages (geometry_of self.old).version base new (numbers_of images.now) (texts_of images.now)) }
        ensures any_moment { (base : List ℕ) → IsTrue (D.is_honest self.old.device) → Stands (D.history self.old.device) base
            → LeavesOnly (D.history self.old.device) (D.history self.new.device) (DiffersInArea (geometry_of self.old).version base) }
        ensures syncs { IsTrue (D.is_honest self.old.device) → SyncsOnce result (D.history self.old.device) (D.history self.new.device) }
        ensures honest { D.is_honest self.new.device ≡ D.is_honest self.old.device }
        ensures size { size (D.history self.new.device) ≡ size (D.history self.old.device) }
        ensures geometry { geometry_of self.new ≡ geometry_of self.old }
        ensures cause { CountsFault result (D.faults self.old.device) (D.faults self.new.device) }
    {
        self.device.write_at(TABLE_AT, &table_of(images.numbers()))?;
        self.device.write_at(AREA_AT, images.bytes())?;
        self.device.sync()
    }

    // Writes each page in place, and syncs.
    fn write_in_place(&mut self, images: &PageImages) -> Result<(), DiskFault>
        requires numbers { AreBatchNumbers (geometry_of self.old) (numbers_of images.now) }
        requires version { version_of images.now ≡ (geometry_of self.old).version }
        ensures done { (base : List ℕ) → IsTrue (D.is_honest self.old.device) → Stands (D.history self.old.device) base
            → OnOk result ((new : List ℕ) × Stands (D.history self.new.device) new × HasPages (geometry_of self.old).version base new (numbers_of images.now) (texts_of images.now)) }
        ensures any_moment { (base : List ℕ) → IsTrue (D.is_honest self.old.device) → Stands (D.history self.old.device) base
            → LeavesOnly (D.history self.old.device) (D.history self.new.device) (DiffersInPages (geometry_of self.old).version (numbers_of images.now) base) }
        ensures syncs { IsTrue (D.is_honest self.old.device) → SyncsOnce result (D.history self.old.device) (D.history self.new.device) }
        ensures honest { D.is_honest self.new.device ≡ D.is_honest self.old.device }
        ensures size { size (D.history self.new.device) ≡ size (D.history self.old.device) }
        ensures geometry { geometry_of self.new ≡ geometry_of self.old }
        ensures cause { CountsFault result (D.faults self.old.device) (D.faults self.new.device) }
    {
        let bytes = images.bytes();
        let numbers = images.numbers();
        let version = self.geometry.version;
        let size = version.page_bytes();
        for i in 0..numbers.len() {
            let text = &bytes[size * i..size * (i + 1)];
            self.device
                .write_at(page_offset(version, numbers[i]), text)?;
        }
        self.device.sync()
    }
}

impl<D: Disk> PageDev<FuseDisk<D>> {
    ghost use Rattle.shore_disk.specs.Fuse.{fuse_calls, fuse_inner, fuse_refused};
    ghost use Rattle.shore_dwrite.specs.Settled.{device_of, geometry_of};

    /// Lets so many more writes and syncs of the device pass; then every call of it fails.
    pub fn set_fuse(&mut self, calls: u64)
        ensures inner { fuse_inner (device_of self.new) ≡ fuse_inner (device_of self.old) }
        ensures calls { fuse_calls (device_of self.new) ≡ calls }
        ensures refused { fuse_refused (device_of self.new) ≡ fuse_refused (device_of self.old) }
        ensures geometry { geometry_of self.new ≡ geometry_of self.old }
    {
        self.device.set_calls(calls);
    }
}
