// The preview program: prints what the analysis of the join of three named files, FIRST SECOND ADDED, comes to, as the check program prints it.
#![tactic(auto)]

use input::Filled;

fn main(rt: HostRuntime) {
    let mut first = input::room();
    let mut second = input::room();
    let mut added = input::room();
    let mut text = io::large_buffer();
    let first_read = input::fill_argument(&rt, 1, &mut first);
    let second_read = input::fill_argument(&rt, 2, &mut second);
    let added_read = input::fill_argument(&rt, 3, &mut added);
    let n = preview_report::report(
        &Filled {
            space: &first,
            read: first_read,
        },
        &Filled {
            space: &second,
            read: second_read,
        },
        &Filled {
            space: &added,
            read: added_read,
        },
        &mut text,
    );
    if rt.write_all(&text[..n]).is_err() {
        let _ = rt.stderr().write_all(b"the answer was not written\n");
    }
}
