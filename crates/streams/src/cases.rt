// What the test programs read.
ghost use Rattle.std.specs.Prelude.{◌≡◌, length};
ghost use Rattle.std.specs.Iterator.{at_most};

// Stretches of bytes that stand one after another, each after its length of 16 bits, as far as whole ones go.
#[derive(Clone, Copy)]
pub struct Cases<'a> {
    pub rest: &'a [u8],
}

impl<'a> Cases<'a> {
    // Those that some bytes begin with.
    pub fn of(s: &'a [u8]) -> Cases<'a>
        ensures { result.rest.now ≡ s.now }
    {
        Cases { rest: s }
    }
}

impl<'a> Iterator for Cases<'a> {
    type Item = &'a [u8];

    ghost remaining = { λ s. at_most (length s.rest.now) };

    fn next(&mut self) -> Option<&'a [u8]> {
        let rest = self.rest;
        if rest.len() < 2 {
            return None;
        }
        let end = 2 + u16::from_be_bytes([rest[0], rest[1]]) as usize;
        if rest.len() < end {
            return None;
        }
        self.rest = &rest[end..];
        Some(&rest[2..end])
    }
}
