// The look-up of a label.
ghost use Rattle.std.specs.Prelude.{◌≡◌, [], ◌∷◌};
ghost use Rattle.wire.specs.Places.{part_at, Inside};
ghost use Rattle.ait_read.specs.Labels.{first_to, resolved_in, label_at};
ghost use Rattle.ait_read.specs.Answers.{resolve_answer, number_of_read, place_number};

use crate::acceptance::locate;
use crate::places::{common_place, own_place, repeated_place};
use crate::{Resolved, Scope, part};
use ait_descriptors::{Kind, Repeated, Span, Test};
use section::Refusal;

// Label k of the application at place i: where its 0x02 descriptor stands.
pub fn resolve(s: &[u8], i: usize, k: usize) -> Result<Option<Resolved>, Refusal>
    ensures { (result ≡ resolve_answer s.now i k)
        × (number_of_read result ≡ place_number s.now (label_at i k s.now)) }
{
    let at = locate(s, label_place(s, i, k))?;
    let label = wire::byte_at(part(s, at), 0);
    Ok(resolve_in(s, label, own_place(s, i), common_place(s)))
}

// A label among the application's own descriptors, then the common ones.
fn resolve_in(s: &[u8], label: u8, own: Option<Span>, common: Option<Span>) -> Option<Resolved>
    requires { Inside own s.now × Inside common s.now }
    ensures { result ≡ resolved_in label (part_at own s.now) (part_at common s.now ∷ []) }
{
    if let Some(j) = find_within(s, own, Test::Labelled(label)) {
        return Some(Resolved::Own(j));
    }
    let j = find_within(s, common, Test::Labelled(label))?;
    Some(Resolved::Common(0, j))
}

// Where label k of an application lies: in its 0x00 descriptor.
fn label_place(s: &[u8], i: usize, k: usize) -> Option<Span>
    ensures { result ≡ label_at i k s.now }
{
    let j = find_within(s, own_place(s, i), Test::Tagged(0x00))?;
    repeated_place(s, Scope::Own(i), j, Repeated::Labels, k)
}

// The first descriptor at a place to meet a test.
fn find_within(s: &[u8], p: Option<Span>, test: Test) -> Option<usize>
    requires { Inside p s.now }
    ensures { result ≡ first_to test (part_at p s.now) }
{
    let Span { start, size } = p?;
    let e = start + size;
    ait_descriptors::find(Kind::Descriptor, test, &s[start..e])
}
