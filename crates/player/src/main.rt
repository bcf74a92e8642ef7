// One rotation of a carousel on standard output: player DOWNLOAD BLOCKSIZE IDENTIFIER NUMBER VERSION FILE [NUMBER VERSION FILE ...].
//
// Each module is a file's whole content. Nothing is written where something is wrong: then a line on
// standard error says what, the arguments first, then a file that can not be read, then the refusal's
// number. An output that is closed ends the program.
#![tactic(auto)]

mod arguments;
mod files;

ghost use Rattle.std.specs.Prelude.{◌≤◌, length};

use arguments::{are_good, module_count, value};
use carousel_play::{LARGEST_SECTION, Playlist};
use files::{Loaded, load};
use std::env::Env;

fn main(rt: HostRuntime) {
    let count = streams::argument_count(&rt);
    if !are_good(&rt, count) {
        let _ = rt.stderr().write_all(
            b"usage: player DOWNLOAD BLOCKSIZE IDENTIFIER NUMBER VERSION FILE [NUMBER VERSION FILE ...]\n",
        );
        return;
    }
    let n = module_count(count);
    let mut image = [0; carousel_messages::MOST_BYTES];
    let loaded = load(&rt, n, &mut image);
    if let Some(k) = loaded.missing {
        tell_missing(&rt, &rt.stderr(), k);
        return;
    }
    play(
        &rt,
        &rt.stdout(),
        &rt.stderr(),
        playlist(&rt, loaded, n),
        &image,
    )
}

// What is announced. More modules than there may be are one too many.
fn playlist(env: &impl Env, loaded: Loaded, n: usize) -> Playlist {
    let ms = loaded.modules;
    Playlist {
        download: value(env, 1, arguments::MOST_THIRTY_TWO),
        block_size: value(env, 2, arguments::MOST_SIXTEEN) as u16,
        count: n.min(carousel_messages::MOST_MODULES + 1) as u16,
        modules: ms,
    }
}

// The rotation, or its refusal.
fn play(env: &impl Env, output: &impl Print, log: &impl Print, p: Playlist, image: &[u8]) {
    match carousel_play::section_count(p) {
        Err(n) => tell_refused(log, n),
        Ok(n) => {
            let mut out = [0; streams::LARGE];
            write_rotation(env, output, p, image, n, &mut out);
        }
    }
}

// Writes each section, as many at once as `out` has room for.
fn write_rotation(
    env: &impl Env,
    output: &impl Print,
    p: Playlist,
    image: &[u8],
    sections: usize,
    out: &mut [u8],
) {
    let identifier = value(env, 3, arguments::MOST_THIRTY_TWO);
    let mut end: usize = 0;
    for place in 0..sections {
        end += put_section(p, image, identifier, place, &mut out[end..]);
        if out.len() - end < LARGEST_SECTION {
            if output.write_all(&out[..end]).is_err() {
                return;
            }
            end = 0;
        }
    }
    let _ = output.write_all(&out[..end]);
}

// Puts the section at a place at the start of `out`, and answers its size.
fn put_section(p: Playlist, image: &[u8], identifier: u32, place: usize, out: &mut [u8]) -> usize
    ensures { result ≤ length out.old }
{
    match carousel_play::write_section(p, image, identifier, place, out) {
        Ok(n) => n.min(out.len()),
        Err(_) => 0,
    }
}

fn tell_missing(env: &impl Env, log: &impl Print, k: usize) {
    let mut name = [0; streams::PATH];
    let n = streams::argument(env, k, &mut name).unwrap_or(0);
    let _ = log.write_all(b"no file ");
    let _ = log.write_all(&name[..n]);
    let _ = log.write_all(b"\n");
}

fn tell_refused(log: &impl Print, n: u8) {
    let _ = println!(log; "refused,{n}");
}
