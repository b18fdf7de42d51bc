// Runs with seats: a choice that may have to wait, lists of such choices, and what a caller asks of them.
#![tactic(auto)]

mod choice;
pub mod list;
mod read;
pub mod runs;
pub mod start;
pub mod table;

ghost use Rattle.std.specs.Prelude.{◌≡◌, cond, ◌≤◌, length, replicate};
ghost use Rattle.format.specs.Header.{Laid};
ghost use Rattle.format.specs.Contents.{contents_at};
ghost use Rattle.naming.specs.Scopes.{awaited_by};
ghost use Rattle.seating.specs.SeatedRunning.{seated_over};
ghost use Rattle.seating.specs.SeatsRead.{no_seats, seats_after};
ghost use Rattle.seated.specs.SeatedEntry.{written_of, seated_written, written_by, out_by, seats_by};

use checking::{enter, enter_scoped};
use choices::Progress;
use dispatching::output_length;
use format::{Head, Verdict, Written};
use read::{line_words, taken_words, waiting_words};
use running::out::put_state;
use running::{is_listed, stopped_at};
use runs::run_seated_by;
use seating::Seats;
use steps::beside::{BESIDE, totals_of};
use steps::records::TABLE;
use table::seats_bar;

// What a seated choice comes to: refused; its session waits; a step that ends the thread; any other step.
#[derive(Clone, Copy)]
pub enum Sat {
    Refused(u16),
    Waits,
    Ends,
    Steps,
}

// How many choices were done, the refusal of the next (0 if none), how many were answered 26, and what the last done was answered, 26 or 0.
#[derive(Clone, Copy)]
pub struct SeatedWent {
    pub count: u16,
    pub refusal: u16,
    pub waited: u16,
    pub last: u16,
}

fn not_written(verdict: Verdict) -> Written
    ensures { result ≡ written_of verdict 0 }
{
    Written {
        number: verdict.number,
        place: verdict.place,
        length: 0,
    }
}

// The run of a file that 1 to 10 leave clean, and its output. Nobody reads the totals of its state: the table that they go by is left empty.
fn run_into(file: &[u8], head: Head, choices: &[u16], seats: &[u16], out: &mut [u8]) -> Written
    requires { Laid file.now head × (length choices.now ≤ 131070) × (1800 ≤ length out.old) }
    ensures { (result ≡ written_by (contents_at file.now head) seats.now choices.now)
        × (out.new ≡ out_by (contents_at file.now head) seats.now choices.now out.old) }
{
    let bar = seats_bar(file, head, seats);
    if bar.number != 0 {
        return not_written(bar);
    }
    let mut sends = [0u16; 33];
    let mut receives = [0u16; 33];
    let mut threads = [0u16; TABLE];
    let mut beside = [0u16; BESIDE];
    let mut owners = [0u16; 64];
    let mut lines = [0u16; 528];
    let table = [0u64; 0];
    let went = run_seated_by(
        file,
        head,
        &mut sends,
        &mut receives,
        &table,
        seats,
        choices,
        &mut threads,
        &mut beside,
        &mut owners,
        &mut lines,
    );
    let progress = Progress {
        count: went.count,
        refusal: went.refusal,
    };
    put_state(&threads, &beside, progress, out);
    let verdict = stopped_at(progress);
    Written {
        number: verdict.number,
        place: verdict.place,
        length: output_length(&beside),
    }
}

// The run of a file through a list of choices with a table of seats, and the state that it leaves.
pub fn run_seated(file: &[u8], choices: &[u16], seats: &[u16], out: &mut [u8]) -> Written
    ensures { (result ≡ seated_written file.now choices.now seats.now (length out.old))
        × (out.new ≡ seated_over file.now choices.now seats.now out.old) }
{
    if !(is_listed(choices.len()) & (1800 <= out.len())) {
        return not_written(Verdict {
            number: 17,
            place: 0,
        });
    }
    let answer = enter(file);
    match answer {
        Err(first) => not_written(first),
        Ok(head) => run_into(file, head, choices, seats, out),
    }
}

// A refusal in place of what is read.
fn no_seats(verdict: Verdict) -> Seats
    ensures { result ≡ no_seats verdict }
{
    Seats {
        number: verdict.number,
        place: verdict.place,
        waited: 0,
        last: 0,
        taken: [0; 16],
        waiting: [0; 16],
        line: [0; 512],
        totals: [0; 32],
    }
}

// What is read of the state in which the run stands, of a file that 1 to 10 leave clean.
fn seats_in(file: &[u8], head: Head, table: &[u64], choices: &[u16], seats: &[u16]) -> Seats
    requires { Laid file.now head × (length choices.now ≤ 131070) }
    ensures { result ≡ seats_by (awaited_by table.now) (contents_at file.now head) seats.now choices.now }
{
    let bar = seats_bar(file, head, seats);
    if bar.number != 0 {
        return no_seats(bar);
    }
    let mut sends = [0u16; 33];
    let mut receives = [0u16; 33];
    let mut threads = [0u16; TABLE];
    let mut beside = [0u16; BESIDE];
    let mut owners = [0u16; 64];
    let mut lines = [0u16; 528];
    let went = run_seated_by(
        file,
        head,
        &mut sends,
        &mut receives,
        table,
        seats,
        choices,
        &mut threads,
        &mut beside,
        &mut owners,
        &mut lines,
    );
    let verdict = stopped_at(Progress {
        count: went.count,
        refusal: went.refusal,
    });
    let taken = taken_words(&threads, &beside, &owners);
    let waiting = waiting_words(&lines);
    let line = line_words(&lines);
    let totals = totals_of(&beside);
    Seats {
        number: verdict.number,
        place: verdict.place,
        waited: went.waited,
        last: went.last,
        taken,
        waiting,
        line,
        totals,
    }
}

// What is read of the seats after a list of choices, with a table lent to work in.
fn seats_with(file: &[u8], choices: &[u16], seats: &[u16], table: &mut [u64]) -> Seats
    requires { (length table.old ≡ 1025) × (table.old ≡ replicate (length table.old) 0) }
    ensures { result ≡ seats_after file.now choices.now seats.now }
{
    if !is_listed(choices.len()) {
        return no_seats(Verdict {
            number: 17,
            place: 0,
        });
    }
    let answer = enter_scoped(file, table);
    match answer {
        Err(first) => no_seats(first),
        Ok(head) => seats_in(file, head, table, choices, seats),
    }
}

pub fn seats_after(file: &[u8], choices: &[u16], seats: &[u16]) -> Seats
    ensures { result ≡ seats_after file.now choices.now seats.now }
{
    let mut table = [0u64; 1025];
    seats_with(file, choices, seats, &mut table)
}
