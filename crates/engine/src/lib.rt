// The engine's public face: one function for each thing that a caller asks, exported for C and Rust. A lent slice of bytes is a
// pointer and a length there.
#![tactic(auto)]

mod choosing;
mod starting;
mod walk;

ghost use Rattle.std.specs.Prelude.{◌≡◌, length};
ghost use Rattle.checking.specs.Check.{reading_names, checking};
ghost use Rattle.checking_at.specs.CheckAt.{checking_at};
ghost use Rattle.placing.specs.Placing.{measuring, placing, placed_over};
ghost use Rattle.placing_at.specs.PlaceAt.{measuring_at, placing_at, placed_over_at};
ghost use Rattle.steps.specs.Beside.{total_in};
ghost use Rattle.running.specs.Run.{running, run_over, ready, totals_after};
ghost use Rattle.dispatching.specs.Dispatch.{rounding, round_over};
ghost use Rattle.seating.specs.SeatedRunning.{seated_over};
ghost use Rattle.seating.specs.SeatsRead.{seats_after};
ghost use Rattle.seating.specs.SeatedRound.{seated_rounding, seated_round_over};
ghost use Rattle.seated.specs.SeatedEntry.{seated_written};
ghost use Rattle.offering.specs.Offers.{offering};
ghost use Rattle.certifying.specs.Certificate.{closing};
ghost use Rattle.certifying.specs.Parts.{closing_part};
ghost use Rattle.reasons.specs.Reasons.{reason_of, understood, reason_length, reason_over, meaning_length, meaning_over};
ghost use Rattle.lending.specs.Lent.{choosing, records_over, beside_over};
ghost use Rattle.lending.specs.Starting.{starting, records_started, beside_started};
ghost use Rattle.merging.specs.Merging.{merging, merged_over};
ghost use Rattle.turning.specs.Turning.{turning, turned_over};
ghost use Rattle.notices.specs.Notices.{plan_in_force};
ghost use Rattle.sheets.specs.Sheets.{sheet_of};
ghost use Rattle.sheets.specs.Entries.{entry_of};

use certifying::{Closing, Part};
use choosing::choose_by;
use dispatching::Round;
use format::{Verdict, Written};
use lending::admit;
use lending::starting::begin;
use notices::InForce;
use offering::Offers;
use placing::Placed;
use reasons::Reason;
use running::{Ready, Totals};
use seating::Seats;
use sheets::Sheet;
use starting::start_records;
use steps::Thread;

// Reads a clinic file, of any bytes and any length: the first of the refusals 1 to 10, or 0 and 0 where there is none.
#[unsafe(no_mangle)]
pub extern "C" fn pilzdamo_read(file: &[u8]) -> Verdict
    ensures { result ≡ reading_names file.now }
{
    checking::read_names(file)
}

// Checks a clinic file: the first of the refusals 1 to 13, or 0 and 0 where it passes.
#[unsafe(no_mangle)]
pub extern "C" fn pilzdamo_check(file: &[u8]) -> Verdict
    ensures { result ≡ checking file.now }
{
    checking::check(file)
}

// Places the roles of a clinic file: the first of 17, 1 to 10, 14 to 16; or the placed file at the start of the output, its length in bytes and its
// on steps. Every other byte of the output stays.
#[unsafe(no_mangle)]
pub extern "C" fn pilzdamo_place(file: &[u8], out: &mut [u8]) -> Placed
    ensures { (result ≡ placing file.now (length out.old)) × (out.new ≡ placed_over file.now out.old) }
{
    placing::place(file, out)
}

// Checks a clinic file for a minute of the week, counted from Monday 00:00, with a table of opening hours, three words a row: role, first minute, end
// minute. The first of 22, 1 to 8, 23, 9 and 10, then 11 to 13 and 24 by node, or 0 and 0 where it passes.
#[unsafe(no_mangle)]
pub extern "C" fn pilzdamo_check_at(file: &[u8], hours: &[u16], minute: u16) -> Verdict
    ensures { result ≡ checking_at file.now hours.now minute }
{
    checking_at::check_at(file, hours, minute)
}

// Places the roles of a clinic file that are open at the minute: the first of 17, 22, 1 to 8, 23, 9, 10, 14 to 16; or the placed file, as without hours.
// Every other byte of the output stays.
#[unsafe(no_mangle)]
pub extern "C" fn pilzdamo_place_at(
    file: &[u8],
    hours: &[u16],
    minute: u16,
    out: &mut [u8],
) -> Placed
    ensures { (result ≡ placing_at file.now hours.now minute (length out.old)) × (out.new ≡ placed_over_at file.now hours.now minute out.old) }
{
    placing_at::place_at(file, hours, minute, out)
}

// The answer that `pilzdamo_place` gives in an output long enough, without one: the first of 1 to 10, 14 to 16; or the placed file's length in bytes and
// its on steps.
#[unsafe(no_mangle)]
pub extern "C" fn pilzdamo_measure(file: &[u8]) -> Placed
    ensures { result ≡ measuring file.now }
{
    placing::measure(file)
}

// The same for a minute of the week: that of `pilzdamo_place_at`.
#[unsafe(no_mangle)]
pub extern "C" fn pilzdamo_measure_at(file: &[u8], hours: &[u16], minute: u16) -> Placed
    ensures { result ≡ measuring_at file.now hours.now minute }
{
    placing_at::measure_at(file, hours, minute)
}

// Merges two clinic files of version 1: the first file's users, channels, sessions and nodes, then the second's, all numbers shifted. The first of 17, the first
// file's own refusal of 1 to 10 (2 for another version), the second's, 25 where roles or kinds differ, 3 for sums beyond a limit; or the merged file at the
// start of the output, and its length in bytes. Every other byte of the output stays.
#[unsafe(no_mangle)]
pub extern "C" fn pilzdamo_merge(first: &[u8], second: &[u8], out: &mut [u8]) -> Written
    ensures { (result ≡ merging first.now second.now (length out.old))
        × (out.new ≡ merged_over first.now second.now out.old) }
{
    merging::merge(first, second, out)
}

// Turns a version 2 file to columns: the first of 17 and 1 to 5, where another version is 2; or the version 3 file at the start of the output, and its length in
// bytes. Every other byte of the output stays.
#[unsafe(no_mangle)]
pub extern "C" fn pilzdamo_to_columns(file: &[u8], out: &mut [u8]) -> Written
    ensures { (result ≡ turning 2 file.now (length out.old)) × (out.new ≡ turned_over 2 3 file.now out.old) }
{
    turning::to_columns(file, out)
}

// Turns a version 3 file to rows, in the same way: the version 2 file.
#[unsafe(no_mangle)]
pub extern "C" fn pilzdamo_to_rows(file: &[u8], out: &mut [u8]) -> Written
    ensures { (result ≡ turning 3 file.now (length out.old)) × (out.new ≡ turned_over 3 2 file.now out.old) }
{
    turning::to_rows(file, out)
}

// Which of two notices is in force on a day (since 1 January 2000), each one word with its first day, one word with the file's length in bytes, then the file: the first of
// 27 at 1, 27 at 2 and 28, with the empty part at the start of notice 1; or 0 and 0, and the part of a notice that is its file: of notice 1 or 2, from byte 4 on, and its length.
#[unsafe(no_mangle)]
pub extern "C" fn pilzdamo_in_force(first: &[u8], second: &[u8], day: u16) -> InForce
    ensures { result ≡ plan_in_force first.now second.now day }
{
    notices::plan_in_force(first, second, day)
}

// The group's quarterly sheet of up to 1,000 clinic files in a row, each after one word with its length in bytes; it ends at the first record that isn't whole. How
// many files there are, and in place n - 1 those that placing refuses with number n; of the placed ones the sessions, the on steps, the most of these in one
// session, and the on steps per 1,000 sessions as quotient and remainder, both 0 without sessions.
#[unsafe(no_mangle)]
pub extern "C" fn pilzdamo_sheet(input: &[u8]) -> Sheet
    ensures { result ≡ sheet_of entry_of input.now }
{
    sheets::sheet_of(input)
}

// Runs a clinic file through a list of choices, two words each: thread, partner. The first of 17 and 1 to 10; or the refusal that halted the run, with
// the choice's number as place, or 0 and 0, and then the last state at the start of the output. Every other byte of the output stays.
#[unsafe(no_mangle)]
pub extern "C" fn pilzdamo_run(file: &[u8], choices: &[u16], out: &mut [u8]) -> Verdict
    ensures { (result ≡ running file.now choices.now (length out.old))
        × (out.new ≡ run_over file.now choices.now out.old) }
{
    running::run(file, choices, out)
}

// The ready pair of the state after the list of choices, or the refusal that stopped it with 0 and 0.
#[unsafe(no_mangle)]
pub extern "C" fn pilzdamo_ready(file: &[u8], choices: &[u16]) -> Ready
    ensures { result ≡ ready file.now choices.now }
{
    running::ready_after(file, choices)
}

// The round after the list of choices, handed back as words, 0 past the last, with the answer of the run through both lists: its output stands in out, in as
// many bytes as the length says. 17 also for over 65,471 choices; where 17 or the first of 1 to 10 refuse, length and words are 0 and nothing is
// written. A list that stops has no round: the halted run's answer and output, and all words 0.
#[unsafe(no_mangle)]
pub extern "C" fn pilzdamo_round(file: &[u8], choices: &[u16], out: &mut [u8]) -> Round
    ensures { (result ≡ rounding file.now choices.now (length out.old))
        × (out.new ≡ round_over file.now choices.now out.old) }
{
    dispatching::round_after(file, choices, out)
}

// How many threads stand at a receive on a channel of each of the kinds 1 to 32, in the state in which the run through the list stands, halted or not; all 0 where
// 17 or 1 to 10 refuse. The number and place are those of the run.
#[unsafe(no_mangle)]
pub extern "C" fn pilzdamo_totals(file: &[u8], choices: &[u16]) -> Totals
    ensures { result ≡ totals_after file.now choices.now }
{
    running::totals_after(file, choices)
}

// One of these totals, from the 162 words beside a lent list; 0 for a kind outside 1 to 32 and for another number of words.
#[unsafe(no_mangle)]
pub extern "C" fn pilzdamo_total(beside: &[u16], kind: u16) -> u16
    ensures { result ≡ total_in beside.now kind }
{
    steps::beside::total(beside, kind)
}

// Runs a clinic file through a list of choices with a table of seats, one word a role: 0 for no limit, else 1 to 32. The first of 17 for the list and the output, 1
// to 10, 17 for the table, 26 at the lowest session whose starting mask, taken in order, overfills a role, and then length 0 and nothing is written; or the
// refusal that halted the run, with the choice's number as place, or 0 and 0, and then the last state at the start of the output, in as many bytes as the
// length says. A choice that gets no seat is done, and its session waits. Every other byte of the output stays.
#[unsafe(no_mangle)]
pub extern "C" fn pilzdamo_run_seated(
    file: &[u8],
    choices: &[u16],
    seats: &[u16],
    out: &mut [u8],
) -> Written
    ensures { (result ≡ seated_written file.now choices.now seats.now (length out.old))
        × (out.new ≡ seated_over file.now choices.now seats.now out.old) }
{
    seated::run_seated(file, choices, seats, out)
}

// The round after the list of choices with a table of seats, as without one; a visit that gets no seat is among its choices. Refused as the run with seats is, and
// 17 also for over 65,471 choices: then length and words are 0 and nothing is written.
#[unsafe(no_mangle)]
pub extern "C" fn pilzdamo_round_seated(
    file: &[u8],
    choices: &[u16],
    seats: &[u16],
    out: &mut [u8],
) -> Round
    ensures { (result ≡ seated_rounding file.now choices.now seats.now (length out.old))
        × (out.new ≡ seated_round_over file.now choices.now seats.now out.old) }
{
    seated_rounds::round_seated(file, choices, seats, out)
}

// What is read of the state in which the run with seats stands, halted or not: how many choices were answered 26, what the last one done was answered (26 or 0),
// for each of the roles 1 to 16 the seats taken, how many sessions wait, and its line from 32 * (role - 1) on, 0 past the last, and the 32 totals. The number and
// place are those of the run; where it is refused before the first choice the rest is 0.
#[unsafe(no_mangle)]
pub extern "C" fn pilzdamo_seats(file: &[u8], choices: &[u16], seats: &[u16]) -> Seats
    ensures { result ≡ seats_after file.now choices.now seats.now }
{
    seated::seats_after(file, choices, seats)
}

// Whether a table of states has every state that a run of the file with a table of seats can come to, and no other. `places` has the word of `states` at which each row
// begins, in the order in which a breadth-first search finds them (threads outside, partners inside), and `next` the number of the row, from 0 on, that each choice which is done leads to.
// 17 for no row or 2 ^ 32 - 1 rows and more; refused as the run with seats is; 18 at the row at fault, from 1 on; or 0, 0, 0.
#[unsafe(no_mangle)]
pub extern "C" fn pilzdamo_closed(
    file: &[u8],
    seats: &[u16],
    states: &[u16],
    places: &[u32],
    next: &[u32],
) -> Closing
    ensures { result ≡ closing file.now seats.now states.now places.now next.now }
{
    certifying::check_closed(file, seats, states, places, next)
}

// The same of a part of the rows: `from` to `to`, which is not one of them, counted from 0 on, whose choices that are done have the words `begin` to `end` of `next`.
// How many rows are known at its beginning is told by the words before it. 17 too where there is no such part; 18 also at a row that is no state in order, and at the last where its words end elsewhere.
// Where the parts of a chain from row 0 and word 0 to the last row all answer 0, 0, 0, so does the whole.
#[unsafe(no_mangle)]
pub extern "C" fn pilzdamo_closed_part(
    file: &[u8],
    seats: &[u16],
    states: &[u16],
    places: &[u32],
    next: &[u32],
    from: usize,
    to: usize,
    begin: usize,
    end: usize,
) -> Closing
    ensures { result ≡ closing_part file.now seats.now states.now places.now next.now
        (record { from = from; to = to; begin = begin; end = end }) }
{
    let part = Part {
        from,
        to,
        begin,
        end,
    };
    certifying::check_closed_part(file, seats, states, places, next, part)
}

// All choices of one lent state of a run with seats, for whoever searches the schedules: `state` has a state's words as a certificate's row has them. Each choice that is done is
// offered, threads outside (from 1 on), partners inside (from 0 on): thread, partner, answer (26 where it has to wait, else 0), how many words the state has that it leads to, and these words.
// 1 to 10; refused as the run with seats is; 18 at place 0 where the words are not those of a state in order; 17 at place 0 where an offer has no room, and then those before it stand in the output.
// The count and the length, in words, are those of the offers written.
#[unsafe(no_mangle)]
pub extern "C" fn pilzdamo_offers(
    file: &[u8],
    seats: &[u16],
    state: &[u16],
    out: &mut [u16],
) -> Offers
    ensures { (result ≡ (offering file.now seats.now state.now out.old).answer)
        × (out.new ≡ (offering file.now seats.now state.now out.old).out) }
{
    offering::find_offers(file, seats, state, out)
}

// Carries out one choice in the list that the live desk lends: 64 records of threads, and beside them 162 words: the thread count, the number of made
// channels, owner and kind of 64 made channels, and for each of the kinds 1 to 32 how many threads stand at a receive on a channel of that kind. The first of 1 to 10; 18 at place 0 where what is lent is no list of the file's threads with their totals; the choice's
// refusal at place 1; or 0 and 0, and then only what the choice changes is stored.
#[unsafe(no_mangle)]
pub extern "C" fn pilzdamo_choose(
    file: &[u8],
    threads: &mut [Thread],
    beside: &mut [u16],
    thread: u16,
    partner: u16,
) -> Verdict
    ensures { (result ≡ choosing file.now threads.old beside.old thread partner)
        × (threads.new ≡ records_over file.now threads.old beside.old thread partner)
        × (beside.new ≡ beside_over file.now threads.old beside.old thread partner) }
{
    let mut table = [0u64; 1025];
    match admit(file, threads.len(), beside, &mut table) {
        Err(first) => first,
        Ok(head) => choose_by(threads, file, head, &table, beside, thread, partner),
    }
}

// The lent list and the words beside it as the file starts. The first of 1 to 10; 18 at place 0 for another number of records or of words; or 0 and 0,
// and then one record for each session, the two counts and the 32 totals are stored. Every other record and word stays.
#[unsafe(no_mangle)]
pub extern "C" fn pilzdamo_start(file: &[u8], threads: &mut [Thread], beside: &mut [u16]) -> Verdict
    ensures { (result ≡ starting file.now (length threads.old) (length beside.old))
        × (threads.new ≡ records_started file.now threads.old beside.old)
        × (beside.new ≡ beside_started file.now threads.old beside.old) }
{
    match begin(file, threads.len(), beside) {
        Err(first) => first,
        Ok(head) => {
            start_records(threads, file, head, usize::from(head.count.sessions));
            Verdict::FINE
        }
    }
}

// The sentence of a refusal, in fixed words, at the start of the output: its number, what its place counts (0 none, 1 word, 2 session, 3 node, 4 choice, 5 row,
// 6 notice), the place, and for 9 to 15 at a node that node's tag, 9 elsewhere. Its length in bytes; 0, and nothing is written, for four numbers that are no reason and for an output
// under 120 bytes. Every other byte of the output stays.
#[unsafe(no_mangle)]
pub extern "C" fn pilzdamo_reason(
    number: u16,
    counts: u16,
    place: u16,
    tag: u16,
    out: &mut [u8],
) -> u16
    ensures { (result ≡ reason_length (reason_of number counts place tag) (length out.old))
        × (out.new ≡ reason_over (reason_of number counts place tag) out.old) }
{
    reasons::write_reason(number, counts, place, tag, out)
}

// What such a sentence says; all 0 for any other bytes.
#[unsafe(no_mangle)]
pub extern "C" fn pilzdamo_read_reason(sentence: &[u8]) -> Reason
    ensures { result ≡ understood sentence.now }
{
    reasons::read_reason(sentence)
}

// The meaning of a refusal's number alone: its length in bytes; 0, and nothing is written, for a number that has none and for an output under 120 bytes.
#[unsafe(no_mangle)]
pub extern "C" fn pilzdamo_phrase(number: u16, out: &mut [u8]) -> u16
    ensures { (result ≡ meaning_length number (length out.old)) × (out.new ≡ meaning_over number out.old) }
{
    reasons::write_meaning(number, out)
}
