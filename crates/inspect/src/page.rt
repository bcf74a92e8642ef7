// The page: lines are gathered, and written out when there might be no room for another. So each write ends with a line's end.
use std::fmt;

const ROOM: usize = 65_536;

// Room enough for any line: the longest, of a remote carousel, has 61 bytes.
const LONGEST_LINE: usize = 128;

// The last place where a line surely fits.
const LAST_START: usize = ROOM - LONGEST_LINE;

#[derive(Drop)]
pub struct Page<'a, P: Print> {
    output: &'a P,
    bytes: [u8; ROOM],
    at: usize,
}

impl<'a, P: Print> Page<'a, P> {
    pub fn new(output: &'a P) -> Page<'a, P> {
        Page {
            output,
            bytes: [0; ROOM],
            at: 0,
        }
    }

    // Writes out what was gathered.
    pub fn flush(&mut self) -> fmt::Result {
        let end = self.at;
        write_out(self.output, &self.bytes, end)?;
        self.at = 0;
        Ok(())
    }

    // Whether the next byte begins a line, after so many that another might not fit.
    fn is_full(&self) -> bool {
        let at = self.at;
        LAST_START < at && self.bytes.get(at.saturating_sub(1)) == Some(&b'\n')
    }
}

fn write_out(output: &impl Print, bytes: &[u8], end: usize) -> fmt::Result {
    let gathered = bytes.get(..end).ok_or(fmt::Error)?;
    output.write_all(gathered).map_err(|_| fmt::Error)
}

impl<'a, P: Print> fmt::Write for Page<'a, P> {
    // A line's end is the last byte of its piece.
    fn write_str(&mut self, s: &str) -> fmt::Result {
        if self.is_full() {
            self.flush()?;
        }
        for b in s.as_bytes() {
            let at = self.at;
            let place = self.bytes.get_mut(at).ok_or(fmt::Error)?;
            *place = *b;
            self.at = at.saturating_add(1);
        }
        Ok(())
    }
}
