// All choices of one lent state: each that is done is offered, with the state it leads to.
#![tactic(auto)]

pub mod choose;
pub mod write;

ghost use Rattle.std.specs.Prelude.{◌≡◌, true, cond, ◌≤◌, ◌<◌, length};
ghost use Rattle.format.specs.Header.{Laid};
ghost use Rattle.format.specs.Contents.{contents_at};
ghost use Rattle.steps.specs.Records.{thread_table_words};
ghost use Rattle.steps.specs.Beside.{beside_words};
ghost use Rattle.seats.specs.Seats.{limited_of};
ghost use Rattle.rows.specs.Rows.{seated_at};
ghost use Rattle.offering.specs.Offers.{is_state, offering_in, offering_by, offering, Holds};

use checking::enter;
use choose::offer_threads;
use format::Head;
use ordering::in_order;
use rows::compare::same_row;
use rows::fits::row_fits;
use rows::load::load_row;
use rules::grants::fill_grants;
use seated::table::seats_bar;
use steps::beside::BESIDE;
use steps::records::TABLE;
use write::row_length;

// How many offers stand in the output, in how many words, and whether one had no room.
#[derive(Clone, Copy)]
pub struct Noted {
    pub full: bool,
    pub count: u16,
    pub length: usize,
}

// The refusal, 0 if none, and its place; how many offers were written, and how many words.
#[repr(C)]
#[derive(Clone, Copy)]
pub struct Offers {
    pub number: u16,
    pub place: u16,
    pub count: u16,
    pub length: u32,
}

fn none(number: u16, place: u16) -> Offers
    ensures { result ≡ record { number = number; place = place; count = 0; length = 0 } }
{
    Offers {
        number,
        place,
        count: 0,
        length: 0,
    }
}

// Whether the lent words are exactly those of a state in order, which the tables then hold.
fn load_state(
    file: &[u8],
    head: Head,
    seats: &[u16],
    state: &[u16],
    threads: &mut [u16],
    beside: &mut [u16],
    owners: &mut [u16],
    lines: &mut [u16],
) -> bool
    requires { Laid file.now head × (length seats.now ≤ 16) × (length threads.old ≡ thread_table_words)
        × (length beside.old ≡ beside_words) × (length owners.old ≡ 64) × (length lines.old ≡ 528) }
    ensures { (result ≡ is_state (contents_at file.now head) seats.now state.now)
        × (result ≡ true → Holds (limited_of (contents_at file.now head) seats.now)
        (seated_at (length seats.now) state.now 0) threads.new beside.new
        owners.new lines.new) }
{
    let roles = seats.len();
    if !row_fits(state, 0, roles) {
        return false;
    }
    load_row(state, 0, roles, threads, beside, owners, lines);
    if row_length(beside, lines, roles) != state.len() {
        return false;
    }
    if !same_row(state, 0, roles, threads, beside, owners, lines) {
        return false;
    }
    in_order(seats, head.count.sessions, threads, beside, owners, lines)
}

// What is answered: 17 where an offer had no room.
fn offers_of(noted: Noted) -> Offers
    requires { noted.length < 4294967296 }
    ensures { result ≡ record {
      number = cond noted.full 17 0;
      place = 0;
      count = noted.count;
      length = noted.length;
    } }
{
    Offers {
        number: if noted.full { 17 } else { 0 },
        place: 0,
        count: noted.count,
        length: noted.length as u32,
    }
}

// The offers of a state of a file that neither 1 to 10 nor the table of seats refuse.
fn offers_in(file: &[u8], head: Head, seats: &[u16], state: &[u16], out: &mut [u16]) -> Offers
    requires { Laid file.now head × (length seats.now ≤ 16) }
    ensures { (result ≡ (offering_in (contents_at file.now head) seats.now state.now
        out.old).answer) × (out.new ≡ (offering_in (contents_at file.now head)
        seats.now state.now out.old).out) }
{
    let mut sends = [0u16; 33];
    let mut receives = [0u16; 33];
    let mut threads = [0u16; TABLE];
    let mut beside = [0u16; BESIDE];
    let mut owners = [0u16; 64];
    let mut lines = [0u16; 528];
    if !load_state(
        file,
        head,
        seats,
        state,
        &mut threads,
        &mut beside,
        &mut owners,
        &mut lines,
    ) {
        return none(18, 0);
    }
    fill_grants(file, head, &mut sends, &mut receives);
    let noted = offer_threads(
        file,
        head,
        &sends,
        &receives,
        seats,
        state,
        &mut threads,
        &mut beside,
        &mut owners,
        &mut lines,
        out,
    );
    offers_of(noted)
}

// A file that 1 to 10 leave clean.
fn offers_with(file: &[u8], head: Head, seats: &[u16], state: &[u16], out: &mut [u16]) -> Offers
    requires { Laid file.now head }
    ensures { (result ≡ (offering_by (contents_at file.now head) seats.now state.now
        out.old).answer) × (out.new ≡ (offering_by (contents_at file.now head)
        seats.now state.now out.old).out) }
{
    let bar = seats_bar(file, head, seats);
    if bar.number != 0 {
        return none(bar.number, bar.place);
    }
    offers_in(file, head, seats, state, out)
}

// All choices of a lent state that are done, one after the other in the output.
pub fn find_offers(file: &[u8], seats: &[u16], state: &[u16], out: &mut [u16]) -> Offers
    ensures { (result ≡ (offering file.now seats.now state.now
        out.old).answer) × (out.new ≡ (offering file.now seats.now
        state.now out.old).out) }
{
    let answer = enter(file);
    match answer {
        Err(first) => none(first.number, first.place),
        Ok(head) => offers_with(file, head, seats, state, out),
    }
}
