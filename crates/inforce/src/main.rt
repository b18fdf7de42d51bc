// The plan in force: standard input holds the day as one word, low byte first, then two notices one after the other, the first as long as its own length word says and
// the second to the end. Writes the file of the notice that is in force, or the line `refused N P` with the refusal's number and its place.
// 16,384 bytes are kept of an input, which is room for any two sound notices: what is longer has one of over 6,912 bytes, which is refused however much of it is kept.
#![tactic(auto)]

ghost use Rattle.std.specs.Prelude.{◌≡◌, ◌≤◌, length};
ghost use Rattle.io.specs.Counts.{IsPrefixLen};
ghost use Rattle.inforce.specs.FirstNotice.{first_end};

use format::words::word;
use notices::{in_force, plan_in_force};
use std::io::Read;
use streams::{read_behind, write_bytes, write_refused};

// Where the first notice ends: as its length word says, or with the input.
fn first_end(both: &[u8]) -> usize
    ensures { (result ≡ first_end both.now) × (result ≤ length both.now) }
{
    let end = 4 + usize::from(word(both, 1));
    end.min(both.len())
}

fn write_plan<'a>(rt: HostRuntime, first: &'a [u8], second: &'a [u8], day: u16) {
    let plan = plan_in_force(first, second, day);
    if plan.number != 0 {
        write_refused(&rt, plan.number, plan.place);
        return;
    }
    write_bytes(&rt, in_force(first, second, day));
}

fn answer(rt: HostRuntime, input: &[u8]) {
    if input.len() < 2 {
        write_bytes(&rt.stderr(), b"inforce: standard input holds no day\n");
        return;
    }
    let both = &input[2..];
    let end = first_end(both);
    write_plan(rt, &both[..end], &both[end..], word(input, 0));
}

// Reads until the buffer is full, the input ends or a read fails; the answer is how many bytes it put at the start of the buffer.
fn read_full<R: Read>(reader: &mut R, buffer: &mut [u8]) -> usize
    ensures { IsPrefixLen result buffer.new }
{
    let mut done = 0;
    while done < buffer.len() {
        match read_behind(reader, buffer, done) {
            Ok(0) | Err(_) => break,
            Ok(more) => done += more,
        }
    }
    done
}

fn main(rt: HostRuntime) {
    let mut buffer = [0u8; 16384];
    let kept = read_full(&mut rt.stdin(), &mut buffer);
    answer(rt, &buffer[..kept]);
}
