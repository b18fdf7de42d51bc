// A certificate for all schedules: a table of states is checked to have every state that a run can come to, and no
// other.
#![tactic(auto)]

pub mod explore;
pub mod parts;
pub mod words;

ghost use Rattle.std.specs.Prelude.{◌≡◌, true, ◌||◌, ◌≤◌, ◌<◌, ltb, length, get_or};
ghost use Rattle.format.specs.Header.{Laid};
ghost use Rattle.format.specs.Contents.{contents_at};
ghost use Rattle.steps.specs.Kept.{Sized};
ghost use Rattle.seats.specs.Seats.{limited_of, seated_start, overfilled_at};
ghost use Rattle.seating.specs.SeatTables.{LineRows};
ghost use Rattle.seated.specs.SeatedTables.{seated_in};
ghost use Rattle.rows.specs.Rows.{row_words, stands_at};
ghost use Rattle.certifying.specs.Certificate.{closing, fault_at, some_rows};
ghost use Rattle.certifying.specs.Kept.{certificate_at};
ghost use Rattle.certifying.specs.Parts.{some_part, closing_part, asked_fits, asked_from, asked_fault};
ghost use Rattle.certifying.specs.Parts.{closing_asked_by, closing_asked};

use checking::enter;
use format::Head;
use parts::try_asked;
use rows::compare::same_row;
use seated::runs::run_seated_by;
use seated::table::seats_bar;
use steps::beside::BESIDE;
use steps::records::TABLE;
use words::{number_at, short};

// How many rows are known to be reached, and the next word of the list of targets.
#[derive(Clone, Copy)]
pub struct Search {
    pub known: usize,
    pub cursor: usize,
}

// The rows from one to another, which is not one of them, and the words of the list of targets that their choices have.
#[derive(Clone, Copy)]
pub struct Part {
    pub from: usize,
    pub to: usize,
    pub begin: usize,
    pub end: usize,
}

// The refusal, 0 if none, its place in the file, and with 18 the row at fault, from 1 on.
#[repr(C)]
#[derive(Clone, Copy)]
pub struct Closing {
    pub number: u16,
    pub place: u16,
    pub row: u32,
}

// 18 at the row at fault, if there is one.
fn fault_at(row: usize) -> Closing
    requires { row < 4294967296 }
    ensures { result ≡ fault_at row }
{
    if row == 0 {
        return Closing {
            number: 0,
            place: 0,
            row: 0,
        };
    }
    Closing {
        number: 18,
        place: 0,
        row: short(row),
    }
}

fn has_rows(n: usize) -> bool
    ensures { result ≡ some_rows n }
{
    0 < n && n < 4294967295
}

fn has_part(rows: usize, words: usize, part: Part) -> bool
    ensures { result ≡ some_part rows words part }
{
    has_rows(rows)
        & (part.from < part.to)
        & (part.to <= rows)
        & (part.begin <= part.end)
        & (part.end <= words)
}

// Whether a part begins later, or the first row is the state that the tables hold.
fn begins_fine(
    from: usize,
    states: &[u16],
    places: &[u32],
    roles: usize,
    threads: &[u16],
    beside: &[u16],
    owners: &[u16],
    lines: &[u16],
) -> bool
    requires { (0 < length places.now) × (roles ≤ 16) × Sized threads.now beside.now
        × (length owners.now ≡ 64) × LineRows lines.now }
    ensures { result ≡ (ltb 0 from || stands_at states.now (get_or places.now 0 0)
        (row_words roles (seated_in threads.now beside.now owners.now
        lines.now))) }
{
    if 0 < from {
        return true;
    }
    let at = number_at(places, 0);
    same_row(states, at, roles, threads, beside, owners, lines)
}

// What is asked: a part of the rows, or none, which stands for all of them.
fn fits_asked(rows: usize, words: usize, asked: Option<Part>) -> bool
    ensures { result ≡ asked_fits rows words asked }
{
    match asked {
        None => has_rows(rows),
        Some(part) => has_part(rows, words, part),
    }
}

fn from_asked(asked: Option<Part>) -> usize
    ensures { result ≡ asked_from asked }
{
    match asked {
        None => 0,
        Some(part) => part.from,
    }
}

// The rows against the runs of a file that neither 1 to 10 nor the table of seats refuse: 0, or the number of the row
// at fault.
fn row_at_fault(
    file: &[u8],
    head: Head,
    seats: &[u16],
    states: &[u16],
    places: &[u32],
    next: &[u32],
    asked: Option<Part>,
) -> usize
    requires { Laid file.now head × (length seats.now ≤ 16)
        × (asked_fits (length places.now) (length next.now) asked ≡ true)
        × (overfilled_at (limited_of (contents_at file.now head) seats.now) (seated_start (contents_at
        file.now head)) (length seats.now) ≡ 0) }
    ensures { (result ≡ asked_fault (certificate_at file.now head seats.now
        states.now places.now next.now)
        (seated_start (contents_at file.now head)) asked) × (result < 4294967296) }
{
    let mut sends = [0u16; 33];
    let mut receives = [0u16; 33];
    let mut threads = [0u16; TABLE];
    let mut beside = [0u16; BESIDE];
    let mut owners = [0u16; 64];
    let mut lines = [0u16; 528];
    let table = [0u64; 0];
    let none = [0u16; 0];
    run_seated_by(
        file,
        head,
        &mut sends,
        &mut receives,
        &table,
        seats,
        &none,
        &mut threads,
        &mut beside,
        &mut owners,
        &mut lines,
    );
    let from = from_asked(asked);
    if !begins_fine(
        from,
        states,
        places,
        seats.len(),
        &threads,
        &beside,
        &owners,
        &lines,
    ) {
        return 1;
    }
    try_asked(
        file,
        head,
        &sends,
        &receives,
        seats,
        states,
        places,
        next,
        &mut threads,
        &mut beside,
        &mut owners,
        &mut lines,
        asked,
    )
}

// A file that 1 to 10 leave clean.
fn closed_in(
    file: &[u8],
    head: Head,
    seats: &[u16],
    states: &[u16],
    places: &[u32],
    next: &[u32],
    asked: Option<Part>,
) -> Closing
    requires { Laid file.now head × (asked_fits (length places.now) (length next.now) asked ≡ true) }
    ensures { result ≡ closing_asked_by (contents_at file.now head) seats.now
        states.now places.now next.now asked }
{
    let bar = seats_bar(file, head, seats);
    if bar.number != 0 {
        return Closing {
            number: bar.number,
            place: bar.place,
            row: 0,
        };
    }
    fault_at(row_at_fault(file, head, seats, states, places, next, asked))
}

fn check_asked(
    file: &[u8],
    seats: &[u16],
    states: &[u16],
    places: &[u32],
    next: &[u32],
    asked: Option<Part>,
) -> Closing
    ensures { result ≡ closing_asked file.now seats.now states.now
        places.now next.now asked }
{
    if !fits_asked(places.len(), next.len(), asked) {
        return Closing {
            number: 17,
            place: 0,
            row: 0,
        };
    }
    let answer = enter(file);
    match answer {
        Err(first) => Closing {
            number: first.number,
            place: first.place,
            row: 0,
        },
        Ok(head) => closed_in(file, head, seats, states, places, next, asked),
    }
}

// Whether a table has every state of every run of the file with this table of seats, and no other.
pub fn check_closed(
    file: &[u8],
    seats: &[u16],
    states: &[u16],
    places: &[u32],
    next: &[u32],
) -> Closing
    ensures { result ≡ closing file.now seats.now states.now
        places.now next.now }
{
    check_asked(file, seats, states, places, next, None)
}

// Whether a part of such a table is right: where the parts of a chain are, the whole is.
pub fn check_closed_part(
    file: &[u8],
    seats: &[u16],
    states: &[u16],
    places: &[u32],
    next: &[u32],
    part: Part,
) -> Closing
    ensures { result ≡ closing_part file.now seats.now states.now
        places.now next.now part }
{
    check_asked(file, seats, states, places, next, Some(part))
}
