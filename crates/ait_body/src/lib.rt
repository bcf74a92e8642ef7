// Acceptance of the body of an application section: refusals 7 and 18. What a well-formed body is, is said in specs/Body.antt.
#![tactic(auto)]

ghost use Rattle.std.specs.Prelude.{◌≡◌};
ghost use Rattle.wire.specs.Outcomes.{passed};
ghost use Rattle.ait_body.specs.Body.{own_refusal, applications_refusal, body_refusal};

use ait_descriptors::{Kind, size_of, walk_loop};

// Accepts a body, or refuses it with 7 or 18.
pub fn body_refusal(b: &[u8]) -> Result<(), u8>
    ensures { result ≡ passed (body_refusal b.now) }
{
    let n = wire::twelve_at(b, 0);
    let end = 2 + n;
    let at = 4 + n;
    if at + wire::twelve_at(b, end) != b.len() {
        return Err(7);
    }
    match walk_loop(&b[2..end]) {
        None => Err(7),
        Some(_) => applications_refusal(&b[at..]),
    }
}

// The same of an application loop alone. A 7 is answered where it is met; an 18 is kept, since a 7 may
// stand after it.
fn applications_refusal(s: &[u8]) -> Result<(), u8>
    ensures { result ≡ passed (applications_refusal s.now) }
{
    let mut answer = Ok(());
    let mut i = 0;
    while let Some(n) = size_of(Kind::Application, &s[i..]) {
        let own = i + 9;
        let e = i + n;
        match own_refusal(&s[own..e]) {
            Err(7) => return Err(7),
            Err(k) => answer = Err(k),
            Ok(()) => {}
        }
        i = e;
    }
    if i != s.len() {
        return Err(7);
    }
    answer
}

// The same of one application's own loop.
fn own_refusal(l: &[u8]) -> Result<(), u8>
    ensures { result ≡ passed (own_refusal l.now) }
{
    let Some(m) = walk_loop(l) else {
        return Err(7);
    };
    if m != 1 {
        return Err(18);
    }
    Ok(())
}
