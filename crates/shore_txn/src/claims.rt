//! What the undo lists of the transactions under way may put back on pages.
ghost use Rattle.std.specs.Prelude.{◌≡◌, ◌*◌, ◌≤◌, length, take};
ghost use Rattle.shore_txn.specs.ActiveTxns.{IsPlace, all_changes, txns_of};
ghost use Rattle.shore_txn.specs.Chains.{bucket_of};
ghost use Rattle.shore_txn.specs.Transactions as transactions;
ghost use Rattle.shore_txn.specs.UndoEntries.{claims_on};
ghost use Rattle.shore_txn.specs.declared.claims.TheConstants.{OWN_PLACES};

use crate::transactions::Transactions;
use shore_page::{ChainPlace, Claims};
use shore_types::PageId;

// The places of one transaction: the lower half of a place is one of them, and the upper half says whose.
const OWN_PLACES: usize = 0x1_0000_0000;

impl Claims for Transactions {
    ghost kept = { transactions.kept_in };

    ghost kept_from = { transactions.kept_from };

    ghost IsOnChain = { transactions.IsOnChain };

    fn newest(&self, page: &PageId) -> usize {
        self.newest_of_older(self.active.len(), page)
    }

    fn place(&self, page: &PageId, place: usize) -> ChainPlace {
        let (index, own) = (place / OWN_PLACES, place % OWN_PLACES);
        let active = &self.active[index];
        let older = active.older(own);
        ChainPlace {
            claim: active.claim(own - 1, page),
            older: if older > 0 {
                index * OWN_PLACES + older
            } else {
                self.newest_of_older(index, page)
            },
        }
    }
}

impl Transactions {
    // The newest place that the so many oldest transactions have in a page's bucket, 0 for none.
    fn newest_of_older(&self, count: usize, page: &PageId) -> usize
        requires { count ≤ length self.now.active.items }
        ensures chain { IsPlace self.now.active.items (bucket_of page.now) result }
        ensures all { transactions.kept_from self.now page.now result ≡ claims_on page.now (all_changes (txns_of (take count self.now.active.items))) }
        ensures below { result ≤ count * OWN_PLACES }
    {
        let mut index = count;
        while index > 0 {
            index -= 1;
            let newest = self.active[index].newest(page);
            if newest > 0 {
                return index * OWN_PLACES + newest;
            }
        }
        0
    }
}
