// The message in a section's body.
ghost use Rattle.std.specs.Prelude.{◌≡◌, not};
ghost use Rattle.wire.specs.Outcomes.{passed};
ghost use Rattle.carousel_messages.specs.declared.CarouselTable.TheVariants.{Blocks};
ghost use Rattle.carousel_messages.specs.Message.{wanted_of, payload_of};
ghost use Rattle.carousel_messages.specs.Refusals.{meets8, message_framed, payload_refusal, message_refusal};
ghost use Rattle.carousel_messages.specs.Judged.{carousel_table_of, announcement_of, block_of, message_judged};

use crate::modules::{check_announcement, module_count, modules_end, modules_start};
use crate::{Announcement, Block, CarouselTable, Message};
use section::{Header, Refusal};
use wire::{Span, byte_at, eight_at, sixteen_at, thirty_two_at};

pub fn judge_message(b: &[u8], h: Header) -> Result<Message, Refusal>
    ensures { result ≡ message_judged (carousel_table_of h.table) h b.now }
{
    let table = table_of(h.table);
    if let Err(number) = check_message(b, table, h) {
        return Err(Refusal {
            number,
            place: None,
        });
    }
    match table {
        CarouselTable::Announcements => Ok(Message::Announced(announcement_of(b))),
        CarouselTable::Blocks => Ok(Message::Carried(block_of(b))),
    }
}

fn table_of(table: u8) -> CarouselTable
    ensures { result ≡ carousel_table_of table }
{
    if table == section::ANNOUNCEMENT_TABLE {
        return CarouselTable::Announcements;
    }
    CarouselTable::Blocks
}

// The paper's order: a short body is 7; then 8; then the other cases of 7; then those of the payload.
fn check_message(b: &[u8], table: CarouselTable, h: Header) -> Result<(), u8>
    ensures { result ≡ passed (message_refusal table h b.now) }
{
    if b.len() < 12 {
        return Err(7);
    }
    if !is_message(b, table) {
        return Err(8);
    }
    if !is_framed(b) {
        return Err(7);
    }
    check_payload(payload(b), table, h)
}

fn is_message(b: &[u8], table: CarouselTable) -> bool
    ensures { not result ≡ meets8 table b.now }
{
    if byte_at(b, 0) != 0x11 {
        return false;
    }
    if byte_at(b, 1) != 0x03 {
        return false;
    }
    sixteen_at(b, 2) == wanted_of(table)
}

fn wanted_of(table: CarouselTable) -> u16
    ensures { result ≡ wanted_of table }
{
    match table {
        CarouselTable::Announcements => 0x1002,
        CarouselTable::Blocks => 0x1003,
    }
}

// Whether the message ends with the body, and its adaptation bytes with the message or before.
fn is_framed(b: &[u8]) -> bool
    ensures { result ≡ message_framed b.now }
{
    let n = sixteen_at(b, 10) as usize;
    if 12 + n != b.len() {
        return false;
    }
    eight_at(b, 9) <= n
}

fn check_payload(p: &[u8], table: CarouselTable, h: Header) -> Result<(), u8>
    ensures { result ≡ passed (payload_refusal table h p.now) }
{
    match table {
        CarouselTable::Announcements => check_announcement(p, h),
        CarouselTable::Blocks => check_block(p, h),
    }
}

// 9 where the section's header is not the block's own; 7 where the block is cut short.
fn check_block(p: &[u8], h: Header) -> Result<(), u8>
    ensures { result ≡ passed (payload_refusal Blocks h p.now) }
{
    if p.len() < 6 {
        return Err(7);
    }
    if h.extension != sixteen_at(p, 0) {
        return Err(9);
    }
    let block = sixteen_at(p, 4) % 256;
    if h.section as u16 != block {
        return Err(9);
    }
    if h.version != byte_at(p, 2) % 32 {
        return Err(9);
    }
    Ok(())
}

// What follows the message's twelve bytes and its adaptation bytes.
fn payload<'a>(b: &'a [u8]) -> &'a [u8]
    ensures { result.now ≡ payload_of b.now }
{
    let at = 12 + eight_at(b, 9);
    if b.len() < at {
        return &b[..0];
    }
    &b[at..]
}

fn announcement_of(b: &[u8]) -> Announcement
    ensures { result ≡ announcement_of b.now }
{
    let p = payload(b);
    let start = modules_start(p);
    let end = modules_end(p).unwrap_or(0);
    Announcement {
        download: thirty_two_at(p, 0),
        block_size: sixteen_at(p, 4),
        count: module_count(p),
        part: Span {
            start: 20 + eight_at(b, 9) + start,
            size: end.saturating_sub(start),
        },
    }
}

fn block_of(b: &[u8]) -> Block
    ensures { result ≡ block_of b.now }
{
    let p = payload(b);
    Block {
        download: thirty_two_at(b, 4),
        number: sixteen_at(p, 0),
        version: byte_at(p, 2),
        block: sixteen_at(p, 4),
        part: Span {
            start: 20 + eight_at(b, 9) + 6,
            size: p.len().saturating_sub(6),
        },
    }
}
