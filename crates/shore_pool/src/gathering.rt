//! A batch made of pages that are in frames.
ghost use Rattle.std.specs.Prelude.{◌≡◌, ◌<◌, ◌≤◌, ◌++◌, ◌∷◌, [], ℕ, List, All, IsSomeAnd, length};
ghost use Rattle.shore_types.specs.declared.layout.TheConstants.{MAX_BATCH_PAGES};
ghost use Rattle.shore_dwrite.specs.Images.{HasRoomFor, numbers_of, texts_of, version_of};
ghost use Rattle.shore_dwrite.specs.Shown.{AreTexts};
ghost use Rattle.shore_pool.specs.FrameMaps.{frame_at};
ghost use Rattle.shore_pool.specs.Pages.{HasText};

use crate::frames::Frames;
use shore_dwrite::PageImages;

/// Fills a batch, which has its room, with the texts of these pages, in their order.
pub fn gather(batch: &mut PageImages, frames: &Frames, numbers: &[u32])
    requires there { All (λ k. IsSomeAnd (frame_at frames.now k) (λ f. f.page.version ≡ version_of batch.old)) numbers.now }
    requires most { length numbers.now ≤ MAX_BATCH_PAGES }
    requires room { HasRoomFor batch.old MAX_BATCH_PAGES }
    ensures version { version_of batch.new ≡ version_of batch.old }
    ensures numbers { numbers_of batch.new ≡ numbers.now }
    ensures texts { AreTexts (version_of batch.new) (HasText (frame_at frames.now)) numbers.now (texts_of batch.new) }
    ensures room { HasRoomFor batch.new MAX_BATCH_PAGES }
{
    batch.clear();
    for i in 0..numbers.len() {
        push_page(batch, frames, numbers[i]);
    }
}

// The text of a page goes after the others.
fn push_page(batch: &mut PageImages, frames: &Frames, number: u32)
    requires there { IsSomeAnd (frame_at frames.now number) (λ f. f.page.version ≡ version_of batch.old) }
    requires few { length (numbers_of batch.old) < MAX_BATCH_PAGES }
    requires room { HasRoomFor batch.old MAX_BATCH_PAGES }
    ensures version { version_of batch.new ≡ version_of batch.old }
    ensures number { numbers_of batch.new ≡ numbers_of batch.old ++ number ∷ [] }
    ensures text { (text : List ℕ) × (texts_of batch.new ≡ texts_of batch.old ++ text) × HasText (frame_at frames.now) number text }
    ensures room { HasRoomFor batch.new MAX_BATCH_PAGES }
{
    let Some(frame) = frames.find(number) else {
        unreachable!()
    };
    let Ok(()) = batch.push(number, frame.page.text()) else {
        unreachable!()
    };
}
