// Lists of items of every kind: one loop for each question.
ghost use Rattle.std.specs.Prelude.{◌≡◌};
ghost use Rattle.wire.specs.Items.{items};
ghost use Rattle.wire.specs.Places.{item_at, first};
ghost use Rattle.ait_descriptors.specs.Kinds.{size_of};
ghost use Rattle.ait_descriptors.specs.Contents.{test_of, walked_of};

use crate::descriptor::meets_at;
use crate::kinds::size_at;
use crate::{Kind, Span, Test};

// Where item k lies, from 0.
pub fn item_place(kind: Kind, s: &[u8], k: usize) -> Option<Span>
    ensures { result ≡ item_at (size_of kind) k s.now }
{
    let mut i = 0;
    for passed in 0..k {
        i += size_at(kind, s, i)?;
    }
    let size = size_at(kind, s, i)?;
    Some(Span { start: i, size })
}

// How many descriptors with the tag 0x00 there are, where descriptors end exactly with `l`, each well made.
pub fn walk_loop(l: &[u8]) -> Option<usize>
    ensures { result ≡ walked_of l.now }
{
    let mut m: usize = 0;
    let mut i = 0;
    while let Some(n) = size_at(Kind::Descriptor, l, i) {
        if meets_at(Test::Malformed, l, i, n) {
            return None;
        }
        if meets_at(Test::Tagged(0x00), l, i, n) {
            m += 1;
        }
        i += n;
    }
    if i != l.len() {
        return None;
    }
    Some(m)
}

// Which item is the first to meet a test, from 0.
pub fn find(kind: Kind, test: Test, s: &[u8]) -> Option<usize>
    ensures { result ≡ first (test_of test) (items (size_of kind) s.now) }
{
    let mut k: usize = 0;
    let mut i = 0;
    while let Some(n) = size_at(kind, s, i) {
        if meets_at(test, s, i, n) {
            return Some(k);
        }
        i += n;
        k += 1;
    }
    None
}
