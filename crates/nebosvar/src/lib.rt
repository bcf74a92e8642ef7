// What a program in C or Rust calls: numbers, byte slices, and the record or a playlist behind a
// pointer. The C side is include/nebosvar.h, which names every number.
//
// Nothing is decided here. Each call is one of the library's, its answer laid out as a struct of
// numbers; specs/Box.antt says how, of the drift list specs/Drift.antt, of the shore player
// specs/Play.antt, of packets specs/Packets.antt, and of tables the specs/ of crate `ait_numbers`.
#![tactic(auto)]

mod drift;
mod packets;
mod play;

ghost use Rattle.std.specs.Prelude.{◌≡◌, length, take, drop};
ghost use Rattle.ait_read.specs.Answers.{read_answer, application_answer, descriptor_answer, extension_answer, resolve_answer};
ghost use Rattle.carousel_record.specs.Changes.{empty_record};
ghost use Rattle.carousel_step.specs.Step.{image_of};
ghost use Rattle.carousel_handout.specs.Calls.{handed_out, report_of};
ghost use Rattle.receiver.specs.Run.{image_took, image_ran};
ghost use Rattle.drift_list.specs.Answers.{list_answer, fix_answer, walk_answer};
ghost use Rattle.drift_list.specs.Writing.{draft, write_answer, written_bytes};
ghost use Rattle.carousel_play.specs.Calls.{count_answer, play_answer, played_bytes};
ghost use Rattle.ait_numbers.specs.Reading.{table_out, application_out, descriptor_out, item_asked, item_out, extension_out, label_out, scope_of};
ghost use Rattle.nebosvar.specs.Box.{fate_out, step_out, what_out, take_out, run_out, part_out, lack_out};
ghost use Rattle.nebosvar.specs.Drift.{list_out, fix_out, written_out};
ghost use Rattle.nebosvar.specs.Play.{counted_out, played_out};
ghost use Rattle.transport.specs.Calls.{feed_answer, feed_state, feed_out, gather_answer, gather_state, gather_out};
ghost use Rattle.transport_write.specs.Writer.{pack_answer, packed_bytes};
ghost use Rattle.nebosvar.specs.Packets.{fed_out, gathered_out, packed_out};

use ait_numbers::{
    ApplicationOut, DescriptorOut, ItemOut, LabelOut, NOWHERE, PartOut, TableOut, spot_number,
};
use carousel_play::Playlist;
use carousel_record::Carousel;
use drift::{fix_out, list_out, written_out};
use packets::{fed_out, gathered_out, packed_out};
use play::counted_out;
use receiver::{Fate, Section, Stop};

// What became of a section: its refusal, 0 for none, where it broke, and its kind.
#[repr(C)]
#[derive(Clone, Copy)]
pub struct FateOut {
    pub refused_at: usize,
    pub refusal: u8,
    pub kind: u8,
}

// What stood at a place: a stop, or (stop 0) a section of that length and what became of it.
#[repr(C)]
#[derive(Clone, Copy)]
pub struct TakenOut {
    pub length: usize,
    pub refused_at: usize,
    pub stop: u8,
    pub refusal: u8,
    pub kind: u8,
}

// How far a run came.
#[repr(C)]
#[derive(Clone, Copy)]
pub struct PassageOut {
    pub taken: usize,
    pub passed: usize,
    pub stop: u8,
}

// How many blocks are missing, and the lowest of them; both 0 for none, and on a refusal.
#[repr(C)]
#[derive(Clone, Copy)]
pub struct LackOut {
    pub count: usize,
    pub lowest: usize,
    pub refusal: u8,
}

// A drift list that was judged: its issue and how many records it has; both 0 on a refusal.
#[repr(C)]
#[derive(Clone, Copy)]
pub struct ListOut {
    pub issue: u16,
    pub count: u16,
    pub refusal: u8,
}

// A record of it; all 0 on a refusal.
#[repr(C)]
#[derive(Clone, Copy)]
pub struct FixOut {
    pub buoy: u32,
    pub longitude: i32,
    pub latitude: i32,
    pub minute: u16,
    pub state: u8,
    pub refusal: u8,
}

// The size of what was written, a drift list or a section; 0 on a refusal.
#[repr(C)]
#[derive(Clone, Copy)]
pub struct WrittenOut {
    pub size: usize,
    pub refusal: u8,
}

// How many sections a rotation has; 0 on a refusal.
#[repr(C)]
#[derive(Clone, Copy)]
pub struct CountedOut {
    pub sections: usize,
    pub refusal: u8,
}

// What became of a packet: the bytes of whole sections that it handed on, its refusal, 0 for none, and its kind.
#[repr(C)]
#[derive(Clone, Copy)]
pub struct FedOut {
    pub size: usize,
    pub refusal: u8,
    pub kind: u8,
}

// What came of a stretch of packets: the bytes passed and handed on, and how many packets had which answer; all 0 on a refusal.
#[repr(C)]
#[derive(Clone, Copy)]
pub struct GatheredOut {
    pub passed: usize,
    pub size: usize,
    pub taken: usize,
    pub repeated: usize,
    pub broken: usize,
    pub refused40: usize,
    pub refused41: usize,
    pub refused42: usize,
    pub refused43: usize,
    pub refusal: u8,
}

// How many packets were written; 0 on a refusal.
#[repr(C)]
#[derive(Clone, Copy)]
pub struct PackedOut {
    pub packets: usize,
    pub refusal: u8,
}

// The record that one starts with.
#[unsafe(no_mangle)]
pub extern "C" fn nebosvar_start() -> Carousel
    ensures { result ≡ empty_record }
{
    carousel_record::empty()
}

// One section of the carousel.
#[unsafe(no_mangle)]
pub extern "C" fn nebosvar_step(c: &mut Carousel, section: &[u8], image: &mut [u8]) -> FateOut
    ensures { (result ≡ (step_out c.old section.now image.old).answer)
        × (c.new ≡ (step_out c.old section.now image.old).state)
        × (image.new ≡ image_of c.old section.now image.old) }
{
    fate_out(receiver::carousel_fate(carousel_step::step_in(c, section, image)))
}

// What stands at the head of a stretch: a stop, or one section, taken.
#[unsafe(no_mangle)]
pub extern "C" fn nebosvar_take(
    c: &mut Carousel,
    stretch: &[u8],
    image: &mut [u8],
    budget: usize,
) -> TakenOut
    ensures { (result ≡ (take_out c.old stretch.now image.old budget).answer)
        × (c.new ≡ (take_out c.old stretch.now image.old budget).state)
        × (image.new ≡ image_took c.old stretch.now image.old budget) }
{
    let took = receiver::take(*c, stretch, image, budget);
    *c = took.state;
    what_out(took.what)
}

// The run over a stretch.
#[unsafe(no_mangle)]
pub extern "C" fn nebosvar_run(
    c: &mut Carousel,
    stretch: &[u8],
    image: &mut [u8],
    budget: usize,
) -> PassageOut
    ensures { (result ≡ (run_out c.old stretch.now image.old budget).answer)
        × (c.new ≡ (run_out c.old stretch.now image.old budget).state)
        × (image.new ≡ image_ran c.old stretch.now image.old budget) }
{
    let passage = receiver::run_in(c, stretch, image, budget);
    PassageOut {
        taken: passage.taken,
        passed: passage.passed,
        stop: receiver::stop_number(passage.stop),
    }
}

// Where the module with this number lies in the image, if it is handed out.
#[unsafe(no_mangle)]
pub extern "C" fn nebosvar_handout(c: &Carousel, image: &[u8], number: u16) -> PartOut
    ensures { (result ≡ part_out c.now image.now number)
        × (take result.length (drop result.at image.now) ≡ handed_out c.now image.now number) }
{
    match carousel_handout::handout_place(*c, image, number) {
        Ok(part) => PartOut {
            at: part.start,
            length: part.size,
            refused_at: NOWHERE,
            refusal: 0,
        },
        Err(refusal) => PartOut {
            at: 0,
            length: 0,
            refused_at: NOWHERE,
            refusal: refusal.number,
        },
    }
}

// What the module with this number lacks.
#[unsafe(no_mangle)]
pub extern "C" fn nebosvar_missing(c: &Carousel, number: u16) -> LackOut
    ensures { result ≡ lack_out (report_of c.now number) }
{
    match carousel_handout::missing(*c, number) {
        Ok(None) => LackOut {
            count: 0,
            lowest: 0,
            refusal: 0,
        },
        Ok(Some(lack)) => LackOut {
            count: lack.count,
            lowest: lack.lowest,
            refusal: 0,
        },
        Err(r) => LackOut {
            count: 0,
            lowest: 0,
            refusal: r.number,
        },
    }
}

// The section's header, and how many common descriptors and applications it has.
#[unsafe(no_mangle)]
pub extern "C" fn nebosvar_table(section: &[u8]) -> TableOut
    ensures { result ≡ table_out (read_answer section.now) }
{
    ait_numbers::table(section)
}

// The application at a place.
#[unsafe(no_mangle)]
pub extern "C" fn nebosvar_application(section: &[u8], application: usize) -> ApplicationOut
    ensures { result ≡ application_out (application_answer section.now application) }
{
    ait_numbers::application(section, application)
}

// A descriptor of the application at a place, or of the common loop.
#[unsafe(no_mangle)]
pub extern "C" fn nebosvar_descriptor(
    section: &[u8],
    application: usize,
    descriptor: usize,
) -> DescriptorOut
    ensures { result ≡ descriptor_out (descriptor_answer section.now (scope_of application) descriptor) }
{
    ait_numbers::descriptor(section, application, descriptor)
}

// An item of a kind in that descriptor, by its place among those of the kind. A kind that is none of the five has no place.
#[unsafe(no_mangle)]
pub extern "C" fn nebosvar_item(
    section: &[u8],
    application: usize,
    descriptor: usize,
    kind: u8,
    item: usize,
) -> ItemOut
    ensures { result ≡ item_out (item_asked section.now (scope_of application) descriptor kind item) }
{
    ait_numbers::item(section, application, descriptor, kind, item)
}

// An extension of a base in that descriptor.
#[unsafe(no_mangle)]
pub extern "C" fn nebosvar_extension(
    section: &[u8],
    application: usize,
    descriptor: usize,
    base: usize,
    extension: usize,
) -> PartOut
    ensures { result ≡ extension_out (extension_answer section.now (scope_of application) descriptor base extension) }
{
    ait_numbers::extension(section, application, descriptor, base, extension)
}

// Where the descriptor stands that the label at a place of the application's 0x00 names.
#[unsafe(no_mangle)]
pub extern "C" fn nebosvar_label(section: &[u8], application: usize, label: usize) -> LabelOut
    ensures { result ≡ label_out (resolve_answer section.now application label) }
{
    ait_numbers::label(section, application, label)
}

// Judges a drift list: its issue, and how many records it has.
#[unsafe(no_mangle)]
pub extern "C" fn nebosvar_list_read(list: &[u8]) -> ListOut
    ensures { result ≡ list_out (list_answer list.now) }
{
    list_out(drift_list::read(list))
}

// The record at a place of it. The whole list is judged each time.
#[unsafe(no_mangle)]
pub extern "C" fn nebosvar_list_record(list: &[u8], k: usize) -> FixOut
    ensures { result ≡ fix_out (fix_answer list.now k) }
{
    fix_out(drift_list::record_at(list, k))
}

// The same of a list that was accepted, judging that record alone.
#[unsafe(no_mangle)]
pub extern "C" fn nebosvar_list_walk(list: &[u8], k: usize) -> FixOut
    ensures { result ≡ fix_out (walk_answer list.now k) }
{
    fix_out(drift_list::walk_at(list, k))
}

// Writes a drift list: five numbers for each record.
#[unsafe(no_mangle)]
pub extern "C" fn nebosvar_list_write(
    issue: u32,
    count: u32,
    numbers: &[i32],
    out: &mut [u8],
) -> WrittenOut
    ensures { (result ≡ written_out (write_answer (draft issue count numbers.now) (length out.old)))
        × (out.new ≡ written_bytes (draft issue count numbers.now) out.old) }
{
    let answer = drift_list::write(issue, count, numbers, out);
    written_out(answer)
}

// How many sections one rotation of a playlist has.
#[unsafe(no_mangle)]
pub extern "C" fn nebosvar_section_count(playlist: &Playlist) -> CountedOut
    ensures { result ≡ counted_out (count_answer playlist.now) }
{
    counted_out(carousel_play::section_count(*playlist))
}

// Writes the section at a place of the rotation at the start of `out`.
#[unsafe(no_mangle)]
pub extern "C" fn nebosvar_write_section(
    playlist: &Playlist,
    image: &[u8],
    identifier: u32,
    place: usize,
    out: &mut [u8],
) -> WrittenOut
    ensures { (result ≡ played_out (play_answer identifier playlist.now image.now place (length out.old)))
        × (out.new ≡ played_bytes identifier playlist.now image.now place out.old) }
{
    let answer = carousel_play::write_section(*playlist, image, identifier, place, out);
    written_out(answer)
}

// One packet: the state after it, and at the buffer's start the sections that it made whole.
#[unsafe(no_mangle)]
pub extern "C" fn nebosvar_feed(pid: u16, packet: &[u8], state: &mut [u8], out: &mut [u8]) -> FedOut
    ensures { (result ≡ fed_out (feed_answer pid state.old (length out.old) packet.now))
        × (state.new ≡ feed_state pid state.old (length out.old) packet.now)
        × (out.new ≡ feed_out pid state.old packet.now out.old) }
{
    let handed = transport::feed(pid, packet, state, out);
    fed_out(handed)
}

// Many packets, laid end to end, for as long as the buffer has room.
#[unsafe(no_mangle)]
pub extern "C" fn nebosvar_gather(
    pid: u16,
    packets: &[u8],
    state: &mut [u8],
    out: &mut [u8],
) -> GatheredOut
    ensures { (result ≡ gathered_out (gather_answer pid state.old (length out.old) packets.now))
        × (state.new ≡ gather_state pid state.old (length out.old) packets.now)
        × (out.new ≡ gather_out pid state.old packets.now out.old) }
{
    let gathered = transport::gather(pid, packets, state, out);
    gathered_out(gathered)
}

// Writes the packets of one section at the start of `out`.
#[unsafe(no_mangle)]
pub extern "C" fn nebosvar_write_packets(
    pid: u16,
    counter: u8,
    section: &[u8],
    out: &mut [u8],
) -> PackedOut
    ensures { (result ≡ packed_out (pack_answer pid counter section.now (length out.old)))
        × (out.new ≡ packed_bytes pid counter section.now out.old) }
{
    let packed = transport_write::write_packets(pid, counter, section, out);
    packed_out(packed)
}

fn fate_out(f: Fate) -> FateOut
    ensures { result ≡ fate_out f }
{
    FateOut {
        refused_at: spot_number(receiver::fate_place(f)),
        refusal: receiver::fate_number(f),
        kind: receiver::kind_number(f),
    }
}

fn what_out(w: Result<Section, Stop>) -> TakenOut
    ensures { result ≡ what_out w }
{
    match w {
        Err(stop) => TakenOut {
            length: 0,
            refused_at: NOWHERE,
            stop: receiver::stop_number(stop),
            refusal: 0,
            kind: 0,
        },
        Ok(section) => {
            let out = fate_out(section.fate);
            TakenOut {
                length: section.length,
                refused_at: out.refused_at,
                stop: 0,
                refusal: out.refusal,
                kind: out.kind,
            }
        }
    }
}
