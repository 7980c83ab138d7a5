// The check program: reads a table from standard input and prints the printed form of document 01.
#![tactic(auto)]

use input::Filled;

fn main(rt: HostRuntime) {
    let mut space = input::room();
    let mut text = io::large_buffer();
    let read = input::fill(&mut rt.stdin(), &mut space);
    let input = Filled {
        space: &space,
        read,
    };
    let n = report::report(&input, &mut text);
    if rt.write_all(&text[..n]).is_err() {
        let _ = rt.stderr().write_all(b"the answer was not written\n");
    }
}
