// The drift list of a module, a line for each buoy; or why there is none: driftlist MODULE.
//
// It reads the first 65,536 bytes of standard input and nothing beyond, and runs an empty record over
// them. A read that fails ends the input; an output that is closed ends the program.
#![tactic(auto)]

use std::env::Env;
use std::io::Read;

fn main(rt: HostRuntime) {
    match asked(&rt) {
        None => usage(&rt.stderr()),
        Some(number) => print_list(&mut rt.stdin(), &rt, number),
    }
}

// The module that the program's one argument asks for.
fn asked(env: &impl Env) -> Option<u16> {
    if streams::argument_count(env) != 2 {
        return None;
    }
    let mut argument = [0; streams::PATH];
    let n = streams::argument(env, 1, &mut argument)?;
    drift_report::module_asked(&argument[..n])
}

fn usage(log: &impl Print) {
    let _ = log.write_all(b"usage: driftlist MODULE\n");
}

fn print_list<R: Read, P: Print>(input: &mut R, output: &P, number: u16) {
    let mut stretch = [0; streams::LARGE];
    let n = streams::read_full(input, &mut stretch);
    let mut image = [0; streams::LARGE];
    let mut out = [0; drift_report::ROOM];
    let size = drift_report::write_page(&stretch[..n], &mut image, number, &mut out);
    let _ = output.write_all(&out[..size]);
}
