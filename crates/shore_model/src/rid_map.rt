//! A map from record ids.
ghost use Rattle.std.specs.Prelude.{◌≡◌, ◌==◌, ◌++◌, ◌∷◌, ◌↔◌, [], IsTrue, OnOk, OnErr, IfOk, None, filter};
ghost use Rattle.std.specs.Option.{option_copied};
ghost use Rattle.std.specs.FinMap as map;
ghost use Rattle.shore_model.specs.Records.{AreRecords, IsRecord, overlay, put_image, scan_of};

use shore_types::{Bytes, Geometry, Pairs, Rid, StoreId, images};
use std::alloc::{AllocError, Global};
use std::collections::BTreeMap;
use std::collections::btree_map::Iter;
use std::marker::Model;

/// A finite map from record ids, kept in place order.
#[derive(Drop)]
pub struct RidMap<V> {
    // What is at each id.
    entries: BTreeMap<Rid, V>,
}

impl<V> Model for RidMap<V> {
    ghost use Rattle.std.specs.FinMap as map;
    ghost use Rattle.shore_types.specs.Ids.{rid_cmp, coded_rid};

    ghost Value = { map.FinMap rid_cmp V };

    ghost coded = { map.code coded_rid V.code };

    ghost view = { λ m. map.from_entries m.entries.entries };
}

impl<V> RidMap<V> {
    pub fn new(alloc: Global) -> Self
        ensures { result ≡ map.empty }
    {
        RidMap {
            entries: BTreeMap::new(alloc),
        }
    }

    pub fn get(&self, id: Rid) -> Option<&V>
        ensures { option_copied result ≡ map.get self.now id }
    {
        self.entries.get(&id)
    }

    /// What is at each id, in place order.
    pub fn iter(&self) -> Iter<'_, Rid, V>
        ensures { result ≡ map.entries self.now }
    {
        self.entries.iter()
    }
}

impl<V: Drop> RidMap<V> {
    /// Sets what is at an id.
    pub fn insert(&mut self, id: Rid, value: V) -> Result<(), AllocError>
        ensures ok { OnOk result (self.new ≡ map.insert self.old id value) }
        ensures err { OnErr result (self.new ≡ self.old) }
    {
        self.entries.insert(id, value)?;
        Ok(())
    }

    pub fn remove(&mut self, id: Rid)
        ensures { self.new ≡ map.remove self.old id }
    {
        let _ = self.entries.remove(&id);
    }
}

/// A second map of the same records.
pub fn copy_records(alloc: Global, records: &RidMap<Bytes>) -> Result<RidMap<Bytes>, AllocError>
    ensures { IfOk result (λ copy. copy ≡ records.now) }
{
    let mut copy = RidMap::new(alloc);
    for (id, bytes) in records.entries.iter().rev() {
        copy.insert(*id, bytes.try_clone(alloc)?)?;
    }
    Ok(copy)
}

/// The records with each image of a write set in its place.
pub fn overlaid(
    alloc: Global,
    records: &RidMap<Bytes>,
    writes: &RidMap<Option<Bytes>>,
) -> Result<RidMap<Bytes>, AllocError>
    ensures { IfOk result (λ found. found ≡ overlay records.now writes.now) }
{
    let mut found = copy_records(alloc, records)?;
    for (id, image) in writes.entries.iter().rev() {
        put(alloc, &mut found, *id, image)?;
    }
    Ok(found)
}

// Puts an image in its place.
fn put(
    alloc: Global,
    records: &mut RidMap<Bytes>,
    id: Rid,
    image: &Option<Bytes>,
) -> Result<(), AllocError>
    ensures { OnOk result (records.new ≡ put_image records.old id image.now) }
{
    match image {
        Some(bytes) => records.insert(id, bytes.try_clone(alloc)?)?,
        None => records.remove(id),
    }
    Ok(())
}

/// A second write set of the same images.
pub fn copy_writes(
    alloc: Global,
    writes: &RidMap<Option<Bytes>>,
) -> Result<RidMap<Option<Bytes>>, AllocError>
    ensures { IfOk result (λ copy. copy ≡ writes.now) }
{
    let mut copy = RidMap::new(alloc);
    for (id, image) in writes.entries.iter().rev() {
        copy.insert(*id, images::copy_of(alloc, image)?)?;
    }
    Ok(copy)
}

impl RidMap<Bytes> {
    /// Whether each id lies inside the geometry, and no record is too long.
    pub fn are_records(&self, geometry: &Geometry) -> bool
        ensures { IsTrue result ↔ AreRecords geometry.now self.now }
    {
        for (id, bytes) in self.entries.iter() {
            if !is_record(geometry, *id, bytes) {
                return false;
            }
        }
        true
    }

    /// The records of a store, in place order.
    pub fn scan(&self, alloc: Global, store: StoreId) -> Result<Pairs, AllocError>
        ensures { IfOk result (λ pairs. pairs ≡ scan_of store self.now) }
    {
        let mut pairs = Pairs::new(alloc);
        for (id, bytes) in self.entries.iter() {
            push_within(&mut pairs, store, *id, bytes)?;
        }
        Ok(pairs)
    }
}

fn is_record(geometry: &Geometry, id: Rid, bytes: &Bytes) -> bool
    ensures { IsTrue result ↔ IsRecord geometry.now id bytes.now }
{
    geometry.has_slot(id) && bytes.as_slice().len() <= geometry.version.record_limit()
}

// Adds a record that lies in the store.
fn push_within(pairs: &mut Pairs, store: StoreId, id: Rid, bytes: &Bytes) -> Result<(), AllocError>
    ensures { OnOk result (pairs.new ≡ pairs.old ++ filter (λ e. e.0.page.store == store) ((id, bytes.now) ∷ [])) }
{
    if id.page.store == store {
        pairs.push(id, bytes.as_slice())?;
    }
    Ok(())
}
