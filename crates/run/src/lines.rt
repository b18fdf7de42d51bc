// The lines of a state.
ghost use Rattle.std.specs.Prelude.{◌+◌, ◌≤◌, ◌<◌};

use format::words::word;
use masks::{UserRole, has_role};
use streams::write_bytes;

// A number, behind what it is.
fn write_number(out: &impl Print, name: &[u8], value: usize) {
    write_bytes(out, name);
    let _ = out.print(value);
}

// A word of the state, behind what it is.
fn write_word(out: &impl Print, name: &[u8], state: &[u8], at: usize)
    requires { at < 4294967296 }
{
    write_number(out, name, usize::from(word(state, at)));
}

fn end_line(out: &impl Print) {
    write_bytes(out, b"\n");
}

// The role, if it is in the mask.
fn write_role(out: &impl Print, mask: u16, role: u16) {
    if has_role(mask, UserRole(role)) {
        write_number(out, b" ", usize::from(role));
    }
}

// The roles of a mask, lowest first, or a dash if there are none.
fn write_roles(out: &impl Print, mask: u16) {
    if mask == 0 {
        write_bytes(out, b" -");
        return;
    }
    for role in 1..=16 {
        write_role(out, mask, role);
    }
}

// The eight variables of a thread.
fn write_variables(out: &impl Print, state: &[u8], at: usize)
    requires { at + 8 ≤ 4294967296 }
{
    write_bytes(out, b" variables");
    for i in 0..8 {
        write_word(out, b" ", state, at + i);
    }
}

// A thread, with its number, whose words begin at an offset.
fn write_thread(out: &impl Print, state: &[u8], i: usize, at: usize)
    requires { at + 12 ≤ 4294967296 }
{
    write_number(out, b"thread ", i);
    write_word(out, b" user ", state, at);
    write_word(out, b" node ", state, at + 1);
    write_bytes(out, b" roles");
    write_roles(out, word(state, at + 2));
    write_variables(out, state, at + 4);
    end_line(out);
}

// A made channel, with its number.
fn write_channel(out: &impl Print, state: &[u8], i: usize, at: usize)
    requires { at + 2 ≤ 4294967296 }
{
    write_number(out, b"channel ", i);
    write_word(out, b" owner ", state, at);
    write_word(out, b" kind ", state, at + 1);
    end_line(out);
}

// The made channels, after the first four words.
fn write_channels(out: &impl Print, state: &[u8], made: usize)
    requires { made < 65536 }
{
    for i in 0..made {
        write_channel(out, state, i + 1, 4 + 2 * i);
    }
}

// The threads, from an offset on.
fn write_threads(out: &impl Print, state: &[u8], threads: usize, base: usize)
    requires { (threads < 65536) × (base ≤ 131074) }
{
    for i in 0..threads {
        write_thread(out, state, i + 1, base + 12 * i);
    }
}

// The state that a run leaves: choices done, threads, made channels, then each made channel and each thread.
pub fn write_state(out: &impl Print, state: &[u8]) {
    let threads = usize::from(word(state, 2));
    let made = usize::from(word(state, 3));
    write_word(out, b"done ", state, 0);
    write_number(out, b"\nthreads ", threads);
    write_number(out, b"\nchannels ", made);
    end_line(out);
    write_channels(out, state, made);
    write_threads(out, state, threads, 4 + 2 * made);
}
