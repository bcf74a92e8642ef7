// The record's entries as carousel_messages judges modules.
ghost use Rattle.std.specs.Prelude.{◌≡◌, map, length, take};
ghost use Rattle.carousel_messages.specs.Heard.{found};
ghost use Rattle.carousel_record.specs.Record.{listed_in, number_in, place_among, slot_at};

use crate::{Carousel, Module, Slot};
use carousel_messages::{Listed, MOST_MODULES};

// All entries, in use or not, without their starts.
pub fn listed(c: Carousel) -> [Listed; MOST_MODULES]
    ensures { result ≡ map listed_in c.modules }
{
    let mut ls = [Listed::default(); MOST_MODULES];
    let ms = c.modules;
    for i in 0..MOST_MODULES {
        ls[i] = ms[i].listed();
    }
    ls
}

// The numbers of all entries, in use or not: in a row, so that they can be lent.
pub fn numbers_of(ms: [Module; MOST_MODULES]) -> [u16; MOST_MODULES]
    ensures { result ≡ map number_in ms }
{
    let mut ns: [u16; MOST_MODULES] = [0; MOST_MODULES];
    for i in 0..MOST_MODULES {
        ns[i] = ms[i].number;
    }
    ns
}

// The place of a number among the first n of some.
pub fn place_in(ns: &[u16], n: usize, number: u16) -> Option<usize>
    ensures { result ≡ found (place_among number (take n ns.now)) (length (take n ns.now)) }
{
    let used = &ns[..n.min(ns.len())];
    for i in 0..used.len() {
        if used[i] == number {
            return Some(i);
        }
    }
    None
}

// The entry of a number among the first n, and its place; `ns` are the entries' numbers.
pub fn slot_in(ns: &[u16], ms: &[Module], n: usize, number: u16) -> Option<Slot>
    ensures { result ≡ slot_at (found (place_among number (take n ns.now)) (length (take n ns.now))) ms.now }
{
    let place = place_in(ns, n, number)?;
    if ms.len() <= place {
        return None;
    }
    let entry = ms[place];
    Some(Slot { place, entry })
}
