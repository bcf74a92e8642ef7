// How many packets had which answer.
ghost use Rattle.std.specs.Prelude.{◌≡◌};
ghost use Rattle.transport.specs.Pieces.{counted_with, counted_as, Countable};

use crate::{Answer, Counts};

impl Counts {
    // One more answer, or refusal.
    pub(crate) fn add(&mut self, a: Result<Answer, u8>)
        requires { Countable self.old }
        ensures { self.new ≡ counted_with self.old a }
    {
        match a {
            Ok(Answer::Taken) => self.taken += 1,
            Ok(Answer::Broken) => {
                self.taken += 1;
                self.broken += 1;
            }
            Ok(Answer::Repeated) => self.repeated += 1,
            Err(40) => self.refused40 += 1,
            Err(41) => self.refused41 += 1,
            Err(42) => self.refused42 += 1,
            Err(43) => self.refused43 += 1,
            Err(_) => {}
        }
    }
}

// The answer that one packet had.
pub fn counted_as(c: Counts) -> Result<Answer, u8>
    ensures { result ≡ counted_as c }
{
    if c.broken != 0 {
        return Ok(Answer::Broken);
    }
    if c.taken != 0 {
        return Ok(Answer::Taken);
    }
    if c.repeated != 0 {
        return Ok(Answer::Repeated);
    }
    if c.refused41 != 0 {
        return Err(41);
    }
    if c.refused42 != 0 {
        return Err(42);
    }
    Err(43)
}
