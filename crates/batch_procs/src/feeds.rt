ghost use Rattle.std.specs.Prelude.{◌≡◌};

use solo_base::{Feed, Item};

/// The same once more.
#[inline(always)]
pub fn copy_feed(feed: &Feed) -> Feed
    ensures { result ≡ feed.now }
{
    match feed {
        Feed::Item(Item::Line(line)) => Feed::Item(Item::Line(line.copy())),
        Feed::Item(Item::Spoiled) => Feed::Item(Item::Spoiled),
        Feed::End => Feed::End,
    }
}
