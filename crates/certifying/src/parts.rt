// A part of the rows, which are asked whether they are states in order, since the rows before them are not looked at.
ghost use Rattle.std.specs.Prelude.{◌≡◌, true, ◌+◌, ◌-◌, ◌≤◌, ◌<◌, length, None};
ghost use Rattle.steps.specs.Records.{thread_table_words};
ghost use Rattle.steps.specs.Beside.{beside_words};
ghost use Rattle.certifying.specs.Known.{known_by};
ghost use Rattle.certifying.specs.Kept.{certificate_at, Prepared, KnownRows};
ghost use Rattle.certifying.specs.Parts.{search_at, row_tested, part_tried, asked_fits, asked_tried};

use super::explore::{try_rows, try_threads};
use super::words::number_at;
use super::{Part, Search};
use format::Head;
use ordering::in_order;
use rows::fits::row_fits;
use rows::load::load_row;

// How many rows are known after so many words.
fn known_by(next: &[u32], count: usize) -> usize
    requires { count ≤ length next.now }
    ensures { result ≡ known_by next.now count }
{
    let mut known: usize = 1;
    for c in 0..count {
        known = known.max(number_at(next, c) + 1);
    }
    known
}

// A row that is known and a state in order, and each of its choices.
fn test_row(
    file: &[u8],
    head: Head,
    sends: &[u16],
    receives: &[u16],
    seats: &[u16],
    states: &[u16],
    places: &[u32],
    next: &[u32],
    threads: &mut [u16],
    beside: &mut [u16],
    owners: &mut [u16],
    lines: &mut [u16],
    j: usize,
    search: Search,
) -> Option<Search>
    requires { Prepared file.now head sends.now receives.now seats.now
        × (length threads.old ≡ thread_table_words) × (length beside.old ≡ beside_words) × (length owners.old ≡ 64)
        × (length lines.old ≡ 528) × (j < length places.now) }
    ensures { result ≡ row_tested (certificate_at file.now head seats.now
        states.now places.now next.now) j search }
{
    if search.known <= j {
        return None;
    }
    let at = number_at(places, j);
    if !row_fits(states, at, seats.len()) {
        return None;
    }
    load_row(states, at, seats.len(), threads, beside, owners, lines);
    if !in_order(seats, head.count.sessions, threads, beside, owners, lines) {
        return None;
    }
    try_threads(
        file, head, sends, receives, seats, states, places, next, threads, beside, owners, lines,
        at, search,
    )
}

// The rows of a part in order: 0, or the number from 1 on of the first at fault.
pub fn try_part(
    file: &[u8],
    head: Head,
    sends: &[u16],
    receives: &[u16],
    seats: &[u16],
    states: &[u16],
    places: &[u32],
    next: &[u32],
    threads: &mut [u16],
    beside: &mut [u16],
    owners: &mut [u16],
    lines: &mut [u16],
    part: Part,
) -> usize
    requires { Prepared file.now head sends.now receives.now seats.now
        × (length threads.old ≡ thread_table_words) × (length beside.old ≡ beside_words) × (length owners.old ≡ 64)
        × (length lines.old ≡ 528) × (length places.now < 4294967295) × (part.from < part.to)
        × (part.to ≤ length places.now) × (part.begin ≤ length next.now) }
    ensures { (result ≡ part_tried (certificate_at file.now head seats.now
        states.now places.now next.now) part.end part.from
        (part.to - part.from) (search_at next.now part.begin)) × (result < 4294967296) }
{
    let known = known_by(next, part.begin);
    let mut on = Search {
        known,
        cursor: part.begin,
    };
    for j in part.from..part.to {
        let trial = test_row(
            file, head, sends, receives, seats, states, places, next, threads, beside, owners,
            lines, j, on,
        );
        match trial {
            None => return j + 1,
            Some(further) => on = further,
        }
    }
    if on.cursor == part.end {
        return 0;
    }
    part.to
}

// All rows, or a part of them: 0, or the number of the first at fault.
pub fn try_asked(
    file: &[u8],
    head: Head,
    sends: &[u16],
    receives: &[u16],
    seats: &[u16],
    states: &[u16],
    places: &[u32],
    next: &[u32],
    threads: &mut [u16],
    beside: &mut [u16],
    owners: &mut [u16],
    lines: &mut [u16],
    asked: Option<Part>,
) -> usize
    requires { Prepared file.now head sends.now receives.now seats.now
        × (length threads.old ≡ thread_table_words) × (length beside.old ≡ beside_words) × (length owners.old ≡ 64)
        × (length lines.old ≡ 528) × (asked_fits (length places.now) (length next.now) asked ≡ true)
        × (asked ≡ None
        → KnownRows (certificate_at file.now head seats.now states.now places.now next.now) 1) }
    ensures { (result ≡ asked_tried (certificate_at file.now head seats.now
        states.now places.now next.now) asked) × (result < 4294967296) }
{
    match asked {
        None => try_rows(
            file,
            head,
            sends,
            receives,
            seats,
            states,
            places,
            next,
            threads,
            beside,
            owners,
            lines,
            Search {
                known: 1,
                cursor: 0,
            },
        ),
        Some(part) => try_part(
            file, head, sends, receives, seats, states, places, next, threads, beside, owners,
            lines, part,
        ),
    }
}
