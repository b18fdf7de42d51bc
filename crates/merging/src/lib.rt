// Two clinic files of version 1 in one.
#![tactic(auto)]

mod counts;
mod file;
mod moves;
mod own;
mod same;
mod writers;

ghost use Rattle.std.specs.Prelude.{◌≡◌, cond, ◌≤◌, length, Ok};
ghost use Rattle.format.specs.Answers.{fine, refused};
ghost use Rattle.merging.specs.Merging.{merging, merged_over};
ghost use Rattle.merging.specs.Writers.{own_entered};

use counts::{add_counts, head_for, sums_fit};
use file::put_file;
use format::answers::{not_written, or_else};
use format::header::length_for;
use format::words::narrow;
use format::{Head, Verdict, Written};
use own::own;
use same::same_tables;

// How many users, channels and nodes stand before a file's own.
#[derive(Clone, Copy)]
pub struct Shift {
    pub users: u16,
    pub channels: u16,
    pub nodes: u16,
}

// The largest file of version 1, in bytes.
const ROOM: usize = 6874;

// A test's refusal, at place 0.
fn unless(holds: bool, number: u16) -> Verdict
    ensures { result ≡ cond holds fine (refused number 0) }
{
    if holds {
        return Verdict::FINE;
    }
    Verdict { number, place: 0 }
}

// Two files that 1 to 10 leave clean: 25, then 3 for the sums, else the merged file.
fn join(first: &[u8], one: Head, second: &[u8], two: Head, out: &mut [u8]) -> Written
    requires { (own_entered first.now ≡ Ok one) × (own_entered second.now ≡ Ok two) × (6874 ≤ length out.old) }
    ensures { (result ≡ merging first.now second.now (length out.old)) × (out.new ≡ merged_over first.now second.now out.old) }
{
    let tables = unless(same_tables(first, one, second, two), 25);
    let counts = add_counts(one.count, two.count);
    let sums = unless(sums_fit(counts), 3);
    let answer = or_else(tables, sums);
    if answer.number != 0 {
        return not_written(answer.number, answer.place);
    }
    let whole = head_for(counts);
    put_file(first, one, second, two, whole, out);
    Written {
        number: 0,
        place: 0,
        length: narrow(length_for(whole.at.nodes, whole.count.nodes)),
    }
}

// The first file is clean: the second's own refusal, or what joining them gives.
fn join_second(first: &[u8], one: Head, second: &[u8], out: &mut [u8]) -> Written
    requires { (own_entered first.now ≡ Ok one) × (6874 ≤ length out.old) }
    ensures { (result ≡ merging first.now second.now (length out.old)) × (out.new ≡ merged_over first.now second.now out.old) }
{
    match own(second) {
        Err(refusal) => not_written(refusal.number, refusal.place),
        Ok(two) => join(first, one, second, two, out),
    }
}

// Merges two files: 17, then the first file's own refusal, then the second's, then 25 and 3, else the merged file. What the output has past it, or where
// anything is refused, stays.
pub fn merge(first: &[u8], second: &[u8], out: &mut [u8]) -> Written
    ensures { (result ≡ merging first.now second.now (length out.old)) × (out.new ≡ merged_over first.now second.now out.old) }
{
    if out.len() < ROOM {
        return not_written(17, 0);
    }
    match own(first) {
        Err(refusal) => not_written(refusal.number, refusal.place),
        Ok(one) => join_second(first, one, second, out),
    }
}
