// The paper's program: what became of each section, a line each, and why it stopped.
//
// It reads the first 65,536 bytes of standard input and nothing beyond, and runs an empty record over
// them. A read that fails ends the input; an output that is closed ends the program.
#![tactic(auto)]

fn main(rt: HostRuntime) {
    let mut stretch = [0; streams::LARGE];
    let n = streams::read_full(&mut rt.stdin(), &mut stretch);
    let mut image = [0; streams::LARGE];
    let mut out = [0; report::ROOM];
    let size = report::write_report(&stretch[..n], &mut image, &mut out);
    let _ = rt.write_all(&out[..size]);
}
