// The carousel record after the last section: its announcement, and each module.
use crate::Buffer;
use crate::fields::Maybe;
use crate::page::Page;
use carousel_record::{Carousel, Module};
use std::fmt;
use std::fmt::Write;

// The record's line, and its modules'. No line where there is no announcement.
pub fn put_record<P: Print>(page: &mut Page<P>, c: Carousel, image: &Buffer) -> fmt::Result {
    if c.count == 0 {
        return Ok(());
    }
    let download = c.download;
    let block_size = c.block_size;
    let count = c.count;
    writeln!(page, "record,{download},{block_size},{count}")?;
    let ms = c.modules;
    for (place, m) in ms.iter().take(count as usize).enumerate() {
        put_module(page, c, image, place, *m)?;
    }
    Ok(())
}

// A module as announced, and how much of it has come.
fn put_module<P: Print>(
    page: &mut Page<P>,
    c: Carousel,
    image: &Buffer,
    place: usize,
    m: Module,
) -> fmt::Result {
    let number = m.number;
    let size = m.size;
    let version = m.version;
    let start = m.start;
    write!(page, "module,{place},{number},{size},{version},{start}")?;
    let handed = carousel_handout::handout_place(c, image, number);
    let answer = match handed {
        Ok(_) => 0,
        Err(refusal) => refusal.number,
    };
    let (missing, lowest) = match carousel_handout::missing(c, number) {
        Ok(None) => (Some(0), None),
        Ok(Some(lack)) => (Some(lack.count), Some(lack.lowest)),
        Err(_) => (None, None),
    };
    let crc = handed.ok().map(|_| section::crc(carousel_handout::handout(
        c, image, number,
    )) as usize);
    let missing = Maybe(missing);
    let lowest = Maybe(lowest);
    let crc = Maybe(crc);
    writeln!(page, ",{answer},{missing},{lowest},{crc}")
}
