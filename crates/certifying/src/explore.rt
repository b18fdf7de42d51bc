// Each choice of a row is tried: it is refused, or leads to the row that is named for it.
ghost use Rattle.std.specs.Prelude.{◌≡◌, ◌+◌, ◌≤◌, ◌<◌, length};
ghost use Rattle.steps.specs.Kept.{Sized};
ghost use Rattle.steps.specs.Records.{thread_table_words};
ghost use Rattle.steps.specs.Beside.{beside_words};
ghost use Rattle.seating.specs.SeatTables.{LineRows};
ghost use Rattle.seated.specs.SeatedTables.{seated_in};
ghost use Rattle.certifying.specs.Certificate.{arrives, choice_tried, partners_tried, row_tried, rows_tried};
ghost use Rattle.certifying.specs.Kept.{is_done, certificate_at, Prepared, KnownRows, Trying, Tries};

use super::Search;
use super::words::{index_after, number_at};
use format::Head;
use rows::compare::same_row;
use rows::load::load_row;
use seated::Sat;
use seated::list::choose_one;
use steps::beside::thread_count;

// A choice is done where it is a step or has to wait.
fn is_done(sat: Sat) -> bool
    ensures { result ≡ is_done sat }
{
    !matches!(sat, Sat::Refused(_))
}

// The tables hold the state that a choice led to: its row is looked up; none where the choice names no row with that state.
fn arrive(
    roles: usize,
    states: &[u16],
    places: &[u32],
    next: &[u32],
    threads: &[u16],
    beside: &[u16],
    owners: &[u16],
    lines: &[u16],
    search: Search,
) -> Option<Search>
    requires { (roles ≤ 16) × Sized threads.now beside.now × (length owners.now ≡ 64) × LineRows lines.now }
    ensures { result ≡ arrives roles states.now places.now next.now
        (seated_in threads.now beside.now owners.now lines.now) search }
{
    if next.len() <= search.cursor {
        return None;
    }
    let k = number_at(next, search.cursor);
    if search.known < k {
        return None;
    }
    if places.len() <= k {
        return None;
    }
    let at = number_at(places, k);
    if !same_row(states, at, roles, threads, beside, owners, lines) {
        return None;
    }
    let cursor = index_after(next, search.cursor);
    let mut known = search.known;
    if k == known {
        known = index_after(places, k);
    }
    Some(Search { known, cursor })
}

// One choice in the state of the row from a place on, which the tables hold before and after.
fn try_choice(
    file: &[u8],
    head: Head,
    sends: &[u16],
    receives: &[u16],
    seats: &[u16],
    states: &[u16],
    places: &[u32],
    next: &[u32],
    threads: &mut [u16],
    beside: &mut [u16],
    owners: &mut [u16],
    lines: &mut [u16],
    at: usize,
    i: u16,
    p: u16,
    search: Search,
) -> Option<Search>
    requires { Prepared file.now head sends.now receives.now seats.now
        × Trying (certificate_at file.now head seats.now states.now places.now next.now) at
        threads.old beside.old owners.old lines.old }
    ensures { Tries (certificate_at file.now head seats.now states.now
        places.now next.now) at (λ K S. choice_tried K S i p search) result
        threads.new beside.new owners.new lines.new }
{
    let table = [0u64; 0];
    let sat = choose_one(
        file, head, sends, receives, &table, seats, threads, beside, owners, lines, i, p,
    );
    if !is_done(sat) {
        return Some(search);
    }
    let trial = arrive(
        seats.len(),
        states,
        places,
        next,
        threads,
        beside,
        owners,
        lines,
        search,
    );
    load_row(states, at, seats.len(), threads, beside, owners, lines);
    trial
}

// The choices of a thread: alone, and with each thread as partner.
fn try_partners(
    file: &[u8],
    head: Head,
    sends: &[u16],
    receives: &[u16],
    seats: &[u16],
    states: &[u16],
    places: &[u32],
    next: &[u32],
    threads: &mut [u16],
    beside: &mut [u16],
    owners: &mut [u16],
    lines: &mut [u16],
    at: usize,
    i: u16,
    count: u16,
    search: Search,
) -> Option<Search>
    requires { Prepared file.now head sends.now receives.now seats.now × (count ≤ 64)
        × Trying (certificate_at file.now head seats.now states.now places.now next.now) at
        threads.old beside.old owners.old lines.old }
    ensures { Tries (certificate_at file.now head seats.now states.now
        places.now next.now) at (λ K S. partners_tried K S i 0 (count + 1) search) result
        threads.new beside.new owners.new lines.new }
{
    let mut on = search;
    for p in 0..=count {
        on = try_choice(
            file, head, sends, receives, seats, states, places, next, threads, beside, owners,
            lines, at, i, p, on,
        )?;
    }
    Some(on)
}

// The choices of all threads.
pub fn try_threads(
    file: &[u8],
    head: Head,
    sends: &[u16],
    receives: &[u16],
    seats: &[u16],
    states: &[u16],
    places: &[u32],
    next: &[u32],
    threads: &mut [u16],
    beside: &mut [u16],
    owners: &mut [u16],
    lines: &mut [u16],
    at: usize,
    search: Search,
) -> Option<Search>
    requires { Prepared file.now head sends.now receives.now seats.now
        × Trying (certificate_at file.now head seats.now states.now places.now next.now) at
        threads.old beside.old owners.old lines.old }
    ensures { Tries (certificate_at file.now head seats.now states.now
        places.now next.now) at (λ K S. row_tried K S search) result
        threads.new beside.new owners.new lines.new }
{
    let count = thread_count(beside);
    let mut on = search;
    for i in 1..=count {
        on = try_partners(
            file, head, sends, receives, seats, states, places, next, threads, beside, owners,
            lines, at, i, count, on,
        )?;
    }
    Some(on)
}

// The rows in order, as far as they are known to be reached: 0, or the number from 1 on of the first that fails, or
// of the first that is never reached.
pub fn try_rows(
    file: &[u8],
    head: Head,
    sends: &[u16],
    receives: &[u16],
    seats: &[u16],
    states: &[u16],
    places: &[u32],
    next: &[u32],
    threads: &mut [u16],
    beside: &mut [u16],
    owners: &mut [u16],
    lines: &mut [u16],
    search: Search,
) -> usize
    requires { Prepared file.now head sends.now receives.now seats.now
        × (length threads.old ≡ thread_table_words) × (length beside.old ≡ beside_words) × (length owners.old ≡ 64)
        × (length lines.old ≡ 528) × (length places.now < 4294967295)
        × KnownRows (certificate_at file.now head seats.now states.now places.now next.now) search.known }
    ensures { (result ≡ rows_tried (certificate_at file.now head seats.now
        states.now places.now next.now) 0 (length places.now) search)
        × (result < 4294967296) }
{
    let mut on = search;
    let mut j: usize = 0;
    while j < on.known {
        let at = number_at(places, j);
        load_row(states, at, seats.len(), threads, beside, owners, lines);
        let trial = try_threads(
            file, head, sends, receives, seats, states, places, next, threads, beside, owners,
            lines, at, on,
        );
        j = index_after(places, j);
        match trial {
            None => return j,
            Some(further) => on = further,
        }
    }
    if j < places.len() {
        return j + 1;
    }
    0
}
