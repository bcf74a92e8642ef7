// Fields of a line that print themselves.
use ait_descriptors::Span;
use ait_read::Scope;
use std::fmt;

// A number, or an empty field.
#[derive(Drop)]
pub struct Maybe(pub Option<usize>);

impl fmt::Display for Maybe {
    fn fmt<W: fmt::Write>(&self, f: &mut fmt::Formatter<W>) -> fmt::Result {
        match self.0 {
            Some(n) => write!(f, "{n}"),
            None => Ok(()),
        }
    }
}

// A descriptor's loop, and its place there. Printed it is the loop, by name or by the application's place, and that place.
#[derive(Clone, Copy)]
pub struct Holder {
    pub scope: Scope,
    pub place: usize,
}

impl fmt::Display for Holder {
    fn fmt<W: fmt::Write>(&self, f: &mut fmt::Formatter<W>) -> fmt::Result {
        let place = self.place;
        match self.scope {
            Scope::Common => write!(f, "common,{place}"),
            Scope::Own(i) => write!(f, "{i},{place}"),
        }
    }
}

// Where a part of the section lies, and its length.
#[derive(Drop)]
pub struct Part(pub Span);

impl fmt::Display for Part {
    fn fmt<W: fmt::Write>(&self, f: &mut fmt::Formatter<W>) -> fmt::Result {
        let span = self.0;
        let start = span.start;
        let size = span.size;
        write!(f, "{start},{size}")
    }
}
