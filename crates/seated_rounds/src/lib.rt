// Rounds with seats, and what a caller asks of them.
#![tactic(auto)]

pub mod visits;

ghost use Rattle.std.specs.Prelude.{◌≡◌, ◌≤◌, length, replicate};
ghost use Rattle.format.specs.Header.{Laid};
ghost use Rattle.format.specs.Contents.{contents_at};
ghost use Rattle.rules.specs.Schema.{schema_of};
ghost use Rattle.rules.specs.Kept.{Granting};
ghost use Rattle.rules.specs.declared.Way.TheVariants.{Sends, Receives};
ghost use Rattle.seats.specs.Seats.{limited_of};
ghost use Rattle.seating.specs.SeatedRound.{seated_round_by, seated_rounding, seated_round_over};
ghost use Rattle.seated.specs.SeatedTables.{seated_in, Seated};
ghost use Rattle.seated_rounds.specs.SeatedVisits.{SeatedBack};
ghost use Rattle.seated_rounds.specs.RoundEntry.{round_with_seats, round_out_by};

use checking::enter;
use choices::Progress;
use dispatching::{Round, is_listed_for_round, no_round, output_length};
use format::{Head, Verdict};
use running::out::put_state;
use running::stopped_at;
use seated::runs::run_seated_by;
use seated::table::seats_bar;
use steps::beside::BESIDE;
use steps::records::TABLE;
use visits::go_round_seated;

// The round after a run, and how many choices it has: none where the run was stopped.
fn add_round_seated(
    file: &[u8],
    head: Head,
    sends: &[u16],
    receives: &[u16],
    table: &[u64],
    seats: &[u16],
    refusal: u16,
    threads: &mut [u16],
    beside: &mut [u16],
    owners: &mut [u16],
    lines: &mut [u16],
    words: &mut [u16],
) -> u16
    requires { Laid file.now head × Granting (schema_of (contents_at file.now head)) Sends sends.now × Granting (schema_of (contents_at file.now head)) Receives receives.now × (length seats.now ≤ 16)
        × Seated (limited_of (contents_at file.now head) seats.now) threads.old beside.old owners.old lines.old × (words.old ≡ replicate 128 0) }
    ensures { SeatedBack (limited_of (contents_at file.now head) seats.now)
        (seated_round_by (limited_of (contents_at file.now head) seats.now) refusal (seated_in threads.old beside.old owners.old lines.old)) result
        threads.new beside.new owners.new lines.new words.new }
{
    if refusal != 0 {
        return 0;
    }
    go_round_seated(
        file, head, sends, receives, table, seats, threads, beside, owners, lines, words,
    )
}

// The round of a file that 1 to 10 leave clean, and the output. Nobody reads the totals of its state: the table that they go by is left empty.
fn round_into(file: &[u8], head: Head, choices: &[u16], seats: &[u16], out: &mut [u8]) -> Round
    requires { Laid file.now head × (length choices.now ≤ 130942) × (1800 ≤ length out.old) }
    ensures { (result ≡ round_with_seats (contents_at file.now head) seats.now choices.now)
        × (out.new ≡ round_out_by (contents_at file.now head) seats.now choices.now out.old) }
{
    let bar = seats_bar(file, head, seats);
    if bar.number != 0 {
        return no_round(bar);
    }
    let mut sends = [0u16; 33];
    let mut receives = [0u16; 33];
    let mut threads = [0u16; TABLE];
    let mut beside = [0u16; BESIDE];
    let mut owners = [0u16; 64];
    let mut lines = [0u16; 528];
    let mut words = [0u16; 128];
    let table = [0u64; 0];
    let own = run_seated_by(
        file,
        head,
        &mut sends,
        &mut receives,
        &table,
        seats,
        choices,
        &mut threads,
        &mut beside,
        &mut owners,
        &mut lines,
    );
    let more = add_round_seated(
        file,
        head,
        &sends,
        &receives,
        &table,
        seats,
        own.refusal,
        &mut threads,
        &mut beside,
        &mut owners,
        &mut lines,
        &mut words,
    );
    let both = Progress {
        count: own.count + more,
        refusal: own.refusal,
    };
    put_state(&threads, &beside, both, out);
    let verdict = stopped_at(both);
    Round {
        number: verdict.number,
        place: verdict.place,
        length: output_length(&beside),
        words,
    }
}

// The round after a list of choices with a table of seats, and the output of the run through both.
pub fn round_seated(file: &[u8], choices: &[u16], seats: &[u16], out: &mut [u8]) -> Round
    ensures { (result ≡ seated_rounding file.now choices.now seats.now (length out.old))
        × (out.new ≡ seated_round_over file.now choices.now seats.now out.old) }
{
    if !(is_listed_for_round(choices.len()) & (1800 <= out.len())) {
        return no_round(Verdict {
            number: 17,
            place: 0,
        });
    }
    let answer = enter(file);
    match answer {
        Err(first) => no_round(first),
        Ok(head) => round_into(file, head, choices, seats, out),
    }
}
