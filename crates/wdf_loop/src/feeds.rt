// Where the sources stand.
ghost use Rattle.std.specs.Prelude.{◌≡◌, ℕ, ◌<◌, ◌≤◌, ◌⊎◌, length, IfOk};
ghost use Rattle.wdf_law.specs.Network.{elements, source_numbers};
ghost use Rattle.wdf_loop.specs.Feeds.{AreFeeds, IsFeedOf, source_at};
ghost use Rattle.wdf_loop.specs.Layouts.{mark_at};

use crate::feed::Feed;
use crate::leaf::flip_at;
use crate::mark::Mark;
use std::alloc::{AllocError, Global};
use wdf_law::Net;

// Where the element with this number stands, which is a part of some stage.
fn feed_of(marks: &[Mark], number: u32, flip: bool) -> Feed
    requires few { length marks.now ≤ 1024 }
    requires some { (j : ℕ) × ((j < length marks.now) × (((mark_at marks.now j).up ≡ number) ⊎ ((mark_at marks.now j).below ≡ number))) }
    ensures { IsFeedOf marks.now number flip result }
{
    for i in 0..marks.len() {
        let stage = i as u16;
        if u32::from(marks[i].up) == number {
            return Feed {
                stage,
                beside: true,
                flip,
            };
        }
        if u32::from(marks[i].below) == number {
            return Feed {
                stage,
                beside: false,
                flip,
            };
        }
    }
    unreachable!()
}

// The number of a source.
fn source_number(net: &Net, i: usize) -> u32
    requires { i < length (source_numbers net.now) }
    ensures value { result ≡ source_at net.now i }
    ensures below { result < length (elements net.now) }
{
    net.rules();
    match net.source_at(i) {
        Some(number) => number,
        None => unreachable!(),
    }
}

/// Where the sources stand, source 0 first.
///
/// # Errors
///
/// Where no memory is left.
pub(crate) fn feeds_of(alloc: Global, net: &Net, marks: &[Mark]) -> Result<Vec<Feed>, AllocError>
    requires few { length marks.now ≤ 1024 }
    requires every { (k : ℕ) → k < length (elements net.now)
        → (j : ℕ) × ((j < length marks.now) × (((mark_at marks.now j).up ≡ k) ⊎ ((mark_at marks.now j).below ≡ k))) }
    ensures { IfOk result (λ v. AreFeeds net.now marks.now (length (source_numbers net.now)) v.items) }
{
    let mut feeds = Vec::new(alloc);
    for i in 0..net.source_count() {
        let number = source_number(net, i);
        feeds.push(feed_of(marks, number, flip_at(net, number)))?;
    }
    Ok(feeds)
}
