// Runs a clinic file through a list of choices: the arguments name the file, and the choices as words, low byte first. It writes the state that
// the run leaves, if there is one, and after it, if anything is refused, the line `refused N P` with the refusal's number and its place. Where the
// arguments are not two, or a file cannot be read, it says so on standard error and writes nothing else.
#![tactic(auto)]

mod lines;
mod list;

ghost use Rattle.std.specs.Prelude.{◌≤◌, ◌≡◌, IfErr, IfOk, length};
ghost use Rattle.io.specs.Counts.{IsPrefixLen};
ghost use Rattle.run.specs.State.{has_state};

use format::Verdict;
use format::words::word;
use lines::write_state;
use list::{list_words, no_bytes, no_words, put_words, read_choices};
use running::run;
use std::env::{Env, FillError};
use std::fs::{File, Files};
use std::str::from_utf8;
use streams::{Cut, read_or_cut, write_bytes, write_refused};

// Opens the file that an argument names. An argument that is missing, too long for a path or no text counts as the empty one, which names no file.
fn open_argument<R: Env + Files>(rt: &R, i: usize) -> std::io::Result<R::File> {
    let mut path = [0u8; 4096];
    let length = rt.arg(i, &mut path).unwrap_or(0);
    File::open(rt, from_utf8(&path[..length]).unwrap_or(""))
}

// Reads the clinic file. A file that could not be opened counts as one whose first read fails.
fn load_file<R: Env + Files>(rt: &R, buffer: &mut [u8]) -> Result<usize, Cut>
    requires { length buffer.old ≡ 16384 }
    ensures whole { IfOk result (λ kept. IsPrefixLen kept buffer.new) }
    ensures cut { IfErr result (λ cut. IsPrefixLen cut.kept buffer.new) }
{
    match open_argument(rt, 1) {
        Ok(mut file) => read_or_cut(&mut file, buffer),
        Err(_) => Err(Cut { kept: 0 }),
    }
}

// Reads the choices, likewise.
fn load_choices<R: Env + Files>(rt: &R, buffer: &mut [u8]) -> Result<usize, Cut>
    requires { length buffer.old ≡ 278528 }
    ensures prefix_len { IfOk result (λ kept. IsPrefixLen kept buffer.new) }
    ensures kept_bound { IfOk result (λ kept. kept ≤ 262144) }
    ensures cut { IfErr result (λ cut. IsPrefixLen cut.kept buffer.new × (cut.kept ≤ 262144)) }
{
    match open_argument(rt, 2) {
        Ok(mut file) => read_choices(&mut file, buffer),
        Err(_) => Err(Cut { kept: 0 }),
    }
}

// Whether a run into an output of zeros has left a state there: it went to the end of the list, or was halted at a choice, whose refusal is the
// second word. That it has one exactly where neither 17 nor 1 to 10 refuse is `state_exactly` of proofs/StateLaws.
fn has_state(verdict: Verdict, out: &[u8]) -> bool
    ensures { result ≡ has_state verdict out.now }
{
    (verdict.number == 0) | (word(out, 1) != 0)
}

// Runs the file through the choices, and writes what comes of it.
fn run_through(rt: HostRuntime, file: &[u8], bytes: &[u8])
    requires { length bytes.now ≤ 262144 }
{
    let mut words = no_words();
    put_words(bytes, &mut words);
    let count = list_words(bytes.len());
    let mut out = [0u8; 1800];
    let verdict = run(file, &words[..count], &mut out);
    if has_state(verdict, &out) {
        write_state(&rt, &out);
    }
    if verdict.number != 0 {
        write_refused(&rt, verdict.number, verdict.place);
    }
}

// Reads the choices for a file that could be read.
fn run_file(rt: HostRuntime, file: &[u8]) {
    let mut buffer = no_bytes();
    let Ok(kept) = load_choices(&rt, &mut buffer) else {
        write_bytes(&rt.stderr(), b"run: the choices cannot be read\n");
        return;
    };
    run_through(rt, file, &buffer[..kept]);
}

// Whether there is an argument of this number.
fn has_argument(rt: &impl Env, i: usize) -> bool {
    !matches!(rt.arg(i, &mut [0u8; 1]), Err(FillError::NotPresent))
}

fn main(rt: HostRuntime) {
    if !has_argument(&rt, 2) || has_argument(&rt, 3) {
        write_bytes(&rt.stderr(), b"usage: run FILE CHOICES\n");
        return;
    }
    let mut buffer = [0u8; 16384];
    let Ok(kept) = load_file(&rt, &mut buffer) else {
        write_bytes(&rt.stderr(), b"run: the clinic file cannot be read\n");
        return;
    };
    run_file(rt, &buffer[..kept]);
}
