//! Chains of places: the changes of a page are found without a walk over those of all pages.
ghost use Rattle.std.specs.Prelude.{◌≡◌, ◌+◌, ◌-◌, ◌<◌, ◌≤◌, ◌++◌, ◌∷◌, [], ℕ, IfOk, IsOk, OnOk, get_or, length, set, take};
ghost use Rattle.shore_types.specs.declared.ids.PageId.{PageId};
ghost use Rattle.shore_txn.specs.Chains as chains;
ghost use Rattle.shore_txn.specs.Chains.{AreHeads, AreInside, IsChained, buckets_of, newest_in};
ghost use Rattle.shore_txn.specs.declared.chains.TheConstants.{BUCKETS, FEW};

use shore_types::PageId;
use std::alloc::{AllocError, Global};

/// How many buckets there are, whatever the number of pages.
const BUCKETS: usize = 1_024;

/// So many places need no heads: walks over them cost less than heads that are made and dropped for one transaction.
const FEW: usize = 32;

/// A place of a chain.
#[derive(Clone, Copy)]
pub(crate) struct Link {
    /// The bucket of its page.
    bucket: usize,
    /// The next older place of that bucket, 0 for none.
    older: usize,
}

/// The places of a list of changes, in buckets by their pages: each bucket leads to its newest place, and each place to the next older one. A
/// place is the index of a change and 1. As long as the places are few no bucket leads anywhere: its newest place is found by a walk over them.
#[derive(Drop)]
pub(crate) struct PageChains {
    /// For each bucket its newest place, 0 for none: 8 KB. There are none until `reserve` makes them, for more than a few places, and then they stay.
    /// `push` and `pop` keep each the newest (`chained`).
    heads: Vec<usize>,
    /// The link of each place, the oldest first.
    links: Vec<Link>,
    ghost chained: { IsChained links.items heads.items },
}

impl PageChains {
    ghost use Rattle.shore_txn.specs.Places.{HasLinkRoom, buckets_in};

    /// The chains of no change. They take no memory.
    pub(crate) fn new(alloc: Global) -> PageChains
        ensures { buckets_in result ≡ [] }
    {
        PageChains {
            heads: Vec::new(alloc),
            links: Vec::new(alloc),
        }
    }

    /// Takes the memory for a place more, and that for the heads and a walk over all places, once, if this is one more than a few. If memory is short
    /// nothing is changed but the memory.
    pub(crate) fn reserve(&mut self, alloc: Global) -> Result<(), AllocError>
        ensures room { OnOk result (HasLinkRoom self.new) }
        ensures idle { HasLinkRoom self.old → IsOk result }
        ensures same { buckets_in self.new ≡ buckets_in self.old }
    {
        self.links.reserve(1)?;
        if self.heads.is_empty() && self.links.len() >= FEW {
            self.heads = heads_of(alloc, &self.links)?;
        }
        Ok(())
    }

    /// A place more, of a change of this page. As long as there are no heads it walks over the places, which are few.
    pub(crate) fn push(&mut self, page: &PageId)
        requires { HasLinkRoom self.old }
        ensures { buckets_in self.new ≡ buckets_in self.old ++ chains.bucket_of page.now ∷ [] }
    {
        let bucket = bucket_of(page);
        let older = self.newest_of(bucket);
        self.links.push_reserved(Link { bucket, older });
        set_head(&mut self.heads, bucket, self.links.len());
    }

    /// Takes the newest place away: its bucket leads to the next older one again.
    pub(crate) fn pop(&mut self)
        requires { 1 ≤ length (buckets_in self.old) }
        ensures { (bucket : ℕ) × (buckets_in self.old ≡ buckets_in self.new ++ bucket ∷ []) }
    {
        let link = self.links.take_last();
        set_head(&mut self.heads, link.bucket, link.older);
    }

    /// The newest place of a page's bucket, 0 for none: its head, or as long as there are no heads by a walk over the places, which are few.
    pub(crate) fn newest(&self, page: &PageId) -> usize
        ensures { result ≡ newest_in (chains.bucket_of page.now) (buckets_in self.now) }
    {
        self.newest_of(bucket_of(page))
    }

    // The newest place of a bucket, 0 for none.
    fn newest_of(&self, bucket: usize) -> usize
        requires { bucket < BUCKETS }
        ensures { result ≡ newest_in bucket (buckets_in self.now) }
    {
        match self.heads.get(bucket) {
            Some(head) => *head,
            None => newest_among(&self.links, bucket),
        }
    }

    /// The next older place in the bucket of a place, 0 for none.
    pub(crate) fn older(&self, place: usize) -> usize
        requires some { 1 ≤ place }
        requires there { place ≤ length (buckets_in self.now) }
        ensures { result ≡ newest_in (get_or (buckets_in self.now) (place - 1) 0) (take (place - 1) (buckets_in self.now)) }
    {
        self.links[place - 1].older
    }
}

// A head for each bucket of these links: of two places of a bucket the newer one is written over the older.
fn heads_of(alloc: Global, links: &[Link]) -> Result<Vec<usize>, AllocError>
    requires { AreInside links.now }
    ensures { IfOk result (λ heads. AreHeads (buckets_of links.now) heads.items) }
{
    let mut heads = vec![in alloc; 0; BUCKETS]?;
    for (index, link) in links.iter().enumerate() {
        heads[link.bucket] = index + 1;
    }
    Ok(heads)
}

// The head of a bucket leads to this place, if there are heads.
fn set_head(heads: &mut Vec<usize>, bucket: usize, place: usize)
    ensures { heads.new.items ≡ set heads.old.items bucket place }
{
    if let Some(head) = heads.get_mut(bucket) {
        *head = place;
    }
}

// The newest place of a bucket among these few links, 0 for none: a walk over them, from the newest back.
fn newest_among(links: &[Link], bucket: usize) -> usize
    requires few { length links.now ≤ FEW }
    ensures { result ≡ newest_in bucket (buckets_of links.now) }
{
    let mut place = links.len();
    while place > 0 && links[place - 1].bucket != bucket {
        place -= 1;
    }
    place
}

// Pages of one store that follow one another have buckets of their own.
fn bucket_of(page: &PageId) -> usize
    ensures is { result ≡ chains.bucket_of page.now }
    ensures inside { result < BUCKETS }
{
    (page.store.0 as usize * 61 + page.page as usize) % BUCKETS
}
