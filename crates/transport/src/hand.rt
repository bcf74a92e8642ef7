// The section in hand, and more bytes; and the sections that bytes begin with.
ghost use Rattle.std.specs.Prelude.{◌≡◌, true, ◌++◌, ◌+◌, ◌≤◌, ◌<◌, IfSome, length};
ghost use Rattle.wire.specs.Fields.{byte_at};
ghost use Rattle.wire.specs.Items.{items, joined, sized};
ghost use Rattle.wire.specs.Pieces.{laid_first};
ghost use Rattle.section.specs.Whole.{whole_at};
ghost use Rattle.transport.specs.Feed.{is_head, ended};

// Lays the section in hand over the buffer, if these bytes make it whole, and answers its length; else 0.
pub fn hand_on(hand: &[u8], more: &[u8], out: &mut [u8]) -> usize
    requires { (is_head hand.now ≡ true) × (length hand.now + length more.now ≤ length out.old) }
    ensures { (result ≡ length (joined (ended hand.now more.now)))
        × (out.new ≡ laid_first (joined (ended hand.now more.now)) out.old) }
{
    let held = hand.len();
    if held == 0 {
        return 0;
    }
    let Some(n) = size_of_both(hand, more) else {
        return 0;
    };
    let rest = n - held;
    wire::copy_at(out, 0, hand);
    wire::copy_at(out, held, &more[..rest]);
    n
}

// The length of the whole section that two parts begin with, one after the other. It may itself stand in both.
fn size_of_both(a: &[u8], b: &[u8]) -> Option<usize>
    requires { length a.now + length b.now < 18446744073709551616 }
    ensures { (result ≡ sized (whole_at (a.now ++ b.now))) × IfSome result (λ n. n ≤ length a.now + length b.now) }
{
    let there = a.len() + b.len();
    if there < 3 {
        return None;
    }
    if byte_of_both(a, b, 0) == section::STUFFING {
        return None;
    }
    let n = 3 + byte_of_both(a, b, 1) as usize % 16 * 256 + byte_of_both(a, b, 2) as usize;
    if there < n {
        return None;
    }
    Some(n)
}

fn byte_of_both(a: &[u8], b: &[u8], i: usize) -> u8
    ensures { (result ≡ byte_at (a.now ++ b.now) i) × (result < 256) }
{
    if i < a.len() {
        return a[i];
    }
    wire::byte_at(b, i - a.len())
}

// How many bytes the whole sections take that a slice begins with.
pub fn whole_in(xs: &[u8]) -> usize
    ensures { (result ≡ length (joined (items whole_at xs.now))) × (result ≤ length xs.now) }
{
    let mut at: usize = 0;
    while let Some(n) = section::whole_at(&xs[at..]) {
        at += n;
    }
    at
}
