// The join program: joins the tables and the added records of three named files, FIRST SECOND ADDED, and writes the joined table.
#![tactic(auto)]

use input::Filled;

fn main(rt: HostRuntime) {
    let mut first = input::room();
    let mut second = input::room();
    let mut added = input::room();
    let mut out = io::large_buffer();
    let mut text = io::buffer();
    let first_read = input::fill_argument(&rt, 1, &mut first);
    let second_read = input::fill_argument(&rt, 2, &mut second);
    let added_read = input::fill_argument(&rt, 3, &mut added);
    let r = join_report::report(
        &Filled {
            space: &first,
            read: first_read,
        },
        &Filled {
            space: &second,
            read: second_read,
        },
        &Filled {
            space: &added,
            read: added_read,
        },
        &mut out,
        &mut text,
    );
    let _ = rt.stderr().write_all(&text[..r.line]);
    if rt.write_all(&out[..r.written]).is_err() {
        let _ = rt.stderr().write_all(b"the table was not written\n");
    }
}
