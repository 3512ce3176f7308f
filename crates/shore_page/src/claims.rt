//! The claims of a page's slots, one beside another.
ghost use Rattle.std.specs.Prelude.{◌≡◌, ◌+◌, ◌-◌, ◌*◌, ◌≤◌, ◌++◌, [], length, map, replicate, vec_capacity};
ghost use Rattle.shore_types.specs.Versions.{page_room, slot_limit};
ghost use Rattle.shore_types.specs.Images.{image_len};
ghost use Rattle.shore_page.specs.Layout.{record_bytes};

use crate::text::PageBytes;

/// A claim of nothing for each slot that is new.
pub fn add_claims(claims: &mut Vec<u16>, slots: usize)
    requires capacity { slots ≤ vec_capacity claims.old }
    requires order { length claims.old.items ≤ slots }
    ensures claims { claims.new.items ≡ claims.old.items ++ replicate (slots - length claims.old.items) 0 }
    ensures capacity { vec_capacity claims.new ≡ vec_capacity claims.old }
{
    for _ in claims.len()..slots {
        claims.push_reserved(0);
    }
}

/// The claim of each slot is what its record has. Answers their sum.
#[tactic(auto, using(shore_types::specs::Versions::sizes))]
pub fn claim_records(text: &PageBytes, claims: &mut Vec<u16>) -> usize
    requires room { 4 * length text.now.images + record_bytes text.now.images ≤ page_room text.now.version }
    requires capacity { vec_capacity claims.old ≡ slot_limit text.now.version }
    requires empty { claims.old.items ≡ [] }
    ensures claims { claims.new.items ≡ map image_len text.now.images }
    ensures capacity { vec_capacity claims.new ≡ slot_limit text.now.version }
    ensures sum { result ≡ record_bytes text.now.images }
{
    let mut claimed = 0;
    for slot in 0..text.slot_count() {
        let bytes = text.record_len(slot);
        claims.push_reserved(bytes as u16);
        claimed += bytes;
    }
    claimed
}
