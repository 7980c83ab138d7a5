// Reading an input into a buffer, and whether it was read whole.
#![tactic(auto)]

ghost use Rattle.std.specs.Prelude.{◌≡◌, ◌+◌, ◌-◌, ◌^◌, ◌≤◌, ◌<◌, length, take, drop};
ghost use Rattle.std.specs.Io.KnownBytes.{Consumes, IsAtEnd};
ghost use Rattle.input.specs.Input.{read_result, whole_of, AfterRead, Onward};

use std::fs::File;
use std::io::Read;
use std::rt::{Env, Files};
use std::{io, str};

mod filled;

pub use filled::Filled;

// How a reading ended: more may come, the input's end was reached, or a read failed.
#[derive(Clone, Copy, PartialEq, Eq)]
pub enum End {
    More,
    Reached,
    Failed,
}

// How many bytes stand at the front of the buffer, and how the reading ended.
#[derive(Clone, Copy)]
pub struct Input {
    pub count: usize,
    pub end: End,
}

// Why an input was not read whole: a read failed, or it is longer than is taken.
#[derive(Clone, Copy, PartialEq, Eq)]
pub enum Stop {
    Unread,
    Long,
}

// The most bytes of an input that are taken.
const MOST: usize = 65536;

impl Input {
    // How many bytes an input that was read whole has.
    #[tactic(auto, unfolding(crate::specs::Input::whole_of, crate::specs::Input::read_whole))]
    pub fn whole(self) -> Result<usize, Stop>
        ensures { result ≡ whole_of self }
    {
        if self.end == End::Failed {
            return Err(Stop::Unread);
        }
        if self.count > MOST {
            return Err(Stop::Long);
        }
        Ok(self.count)
    }
}

// What a read came to that was to fill the buffer from `count` on: no bytes are the end of the input.
fn after_read(count: usize, got: io::Result<usize>, rest: &[u8]) -> Input
    requires { count + length rest.now < 2 ^ 64 }
    ensures { AfterRead count (read_result got) (length rest.now) result }
{
    let Ok(n) = got else {
        return failed(count);
    };
    let n = n.min(rest.len());
    let end = if n > 0 { End::More } else { End::Reached };
    Input {
        count: count + n,
        end,
    }
}

// One read into the part of the buffer from `count` on.
fn read_once<R: Read>(reader: &mut R, buf: &mut [u8], count: usize) -> Input
    requires { count ≤ length buf.old }
    ensures onward { Onward count (length buf.old) result }
    ensures buf_len_unchanged { length buf.new ≡ length buf.old }
    ensures front { take count buf.new ≡ take count buf.old }
    ensures bytes { Consumes (R.remaining reader.old) (R.remaining reader.new)
        (take (result.count - count) (drop count buf.new)) }
    ensures end { count < length buf.old → result.end ≡ End.Reached
        → IsAtEnd (R.remaining reader.new) }
{
    let got = reader.read(&mut buf[count..]);
    after_read(count, got, &buf[count..])
}

// Reads until the buffer is full, the input ends or a read fails: what was read stands at the front. `read_exact` does not say how much that
// is. The clauses `bytes` and `end` speak of a reader whose bytes std knows; of a file or standard input it knows none.
pub fn fill<R: Read>(reader: &mut R, buf: &mut [u8]) -> Input
    ensures count_in_bounds { result.count ≤ length buf.new }
    ensures buf_len_unchanged { length buf.new ≡ length buf.old }
    ensures bytes { Consumes (R.remaining reader.old) (R.remaining reader.new)
        (take result.count buf.new) }
    ensures end { result.end ≡ End.Reached → IsAtEnd (R.remaining reader.new) }
    ensures full { result.end ≡ End.More → result.count ≡ length buf.new }
{
    let mut input = Input {
        count: 0,
        end: End::More,
    };
    while input.end == End::More && input.count < buf.len() {
        input = read_once(reader, buf, input.count);
    }
    input
}

// A reading that failed behind so many bytes.
fn failed(count: usize) -> Input
    ensures count_value { result.count ≡ count }
    ensures end_value { result.end ≡ End.Failed }
{
    Input {
        count,
        end: End::Failed,
    }
}

// Reads the file of this name. One that cannot be opened counts as a failed read, and so does a name that is not UTF-8.
pub fn fill_named<R: Files>(files: &R, name: &[u8], buf: &mut [u8]) -> Input
    ensures count_in_bounds { result.count ≤ length buf.new }
    ensures buf_len_unchanged { length buf.new ≡ length buf.old }
{
    let Ok(name) = str::from_utf8(name) else {
        return failed(0);
    };
    let Ok(mut file) = File::open(files, name) else {
        return failed(0);
    };
    fill(&mut file, buf)
}

// Reads the file that argument k names. A name that is missing or too long counts as a failed read.
pub fn fill_argument<R: Env + Files>(rt: &R, k: usize, buf: &mut [u8]) -> Input
    ensures count_in_bounds { result.count ≤ length buf.new }
    ensures buf_len_unchanged { length buf.new ≡ length buf.old }
{
    let mut name = [0u8; 4096];
    let Ok(n) = rt.arg(k, &mut name) else {
        return failed(0);
    };
    fill_named(rt, &name[..n], buf)
}

// Room for an input, with a byte more than is taken, so that a longer input shows.
pub fn room() -> [u8; 65537]
    ensures { 65537 ≡ length result }
{
    [0; 65537]
}
