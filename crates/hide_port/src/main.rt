// The hide program: hides the port that its argument names in the table on standard input, and writes the table without it.
#![tactic(auto)]

use input::Filled;
use std::rt::Env;

fn main(rt: HostRuntime) {
    let mut name = io::buffer();
    let mut space = input::room();
    let mut out = io::large_buffer();
    let mut text = io::buffer();
    // an argument that is missing or longer than the buffer has no bytes here, and so is no number
    let count = rt.arg(1, &mut name).unwrap_or(0);
    let read = input::fill(&mut rt.stdin(), &mut space);
    let input = Filled {
        space: &space,
        read,
    };
    let r = hide_report::report(&name[..count], &input, &mut out, &mut text);
    let _ = rt.stderr().write_all(&text[..r.line]);
    if rt.write_all(&out[..r.written]).is_err() {
        let _ = rt.stderr().write_all(b"the table was not written\n");
    }
}
