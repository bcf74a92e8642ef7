// The modules' files, read one after another into the image.
ghost use Rattle.std.specs.Prelude.{◌+◌, ◌*◌, ◌^◌, ◌≤◌, ◌<◌, IfSome, length};

use crate::arguments::{MOST_EIGHT, MOST_SIXTEEN, value};
use carousel_messages::{Listed, MOST_MODULES};
use std::env::Env;
use std::io::Read;
use std::rt::Files;
use std::{fs, str};

// The modules, those past the most left out; and the argument that names a file which can not be read, if one does. An enum may hold no
// array.
#[derive(Clone, Copy)]
pub struct Loaded {
    pub missing: Option<usize>,
    pub modules: [Listed; MOST_MODULES],
}

// Reads the files of n modules into the image.
pub fn load<R: Env + Files>(rt: &R, n: usize, image: &mut [u8]) -> Loaded
    requires { (3 * n + 4 < 2 ^ 64) × (length image.old ≤ 262144) }
{
    let mut ms = [Listed::default(); MOST_MODULES];
    let mut at: usize = 0;
    for i in 0..n {
        let Some(size) = read_file(rt, 6 + 3 * i, image, at) else {
            return Loaded {
                missing: Some(6 + 3 * i),
                modules: ms,
            };
        };
        if i < MOST_MODULES {
            ms[i] = Listed {
                number: value(rt, 4 + 3 * i, MOST_SIXTEEN) as u16,
                size: size as u32,
                version: value(rt, 5 + 3 * i, MOST_EIGHT) as u8,
            };
        }
        at = (at + size).min(image.len());
    }
    Loaded {
        missing: None,
        modules: ms,
    }
}

// Reads the file that argument k names into the image from a place on, and answers how many bytes; none of a file that can not be
// read. A name that is not UTF-8 names none.
fn read_file<R: Env + Files>(rt: &R, k: usize, image: &mut [u8], at: usize) -> Option<usize>
    requires { at ≤ length image.old }
    ensures { IfSome result (λ n. at + n ≤ length image.old + 1) }
{
    let mut name = [0; streams::PATH];
    let n = streams::argument(rt, k, &mut name)?;
    let Ok(path) = str::from_utf8(&name[..n]) else {
        return None;
    };
    match fs::open(rt, path) {
        Ok(mut file) => read_all(&mut file, image, at),
        Err(_) => None,
    }
}

// Reads to the end of the file. Where the image ends before it, the size is one more than there was room for.
fn read_all<F: Read>(file: &mut F, image: &mut [u8], at: usize) -> Option<usize>
    requires { at ≤ length image.old }
    ensures { IfSome result (λ n. at + n ≤ length image.old + 1) }
{
    let mut end = at;
    while end < image.len() {
        let n = read_some(file, &mut image[end..])?;
        if n == 0 {
            return Some(end - at);
        }
        end += n;
    }
    let mut one = [0u8; 1];
    let more = read_some(file, &mut one)?;
    Some(end - at + more)
}

// One read.
fn read_some<F: Read>(file: &mut F, part: &mut [u8]) -> Option<usize>
    ensures { IfSome result (λ n. n ≤ length part.old) }
{
    file.read(part).ok()
}
