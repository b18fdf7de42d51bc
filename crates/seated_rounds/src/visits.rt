// The visits of a round with seats, in the tables that keep the state.
ghost use Rattle.std.specs.Prelude.{◌≡◌, ◌-◌, ◌≤◌, ◌<◌, length, replicate};
ghost use Rattle.format.specs.Header.{Laid};
ghost use Rattle.format.specs.Contents.{contents_at};
ghost use Rattle.rules.specs.Schema.{schema_of};
ghost use Rattle.rules.specs.Kept.{Granting};
ghost use Rattle.rules.specs.declared.Way.TheVariants.{Sends, Receives};
ghost use Rattle.steps.specs.Beside.{thread_count};
ghost use Rattle.rounds.specs.Round.{receiver_for, meeting_with, going, visit};
ghost use Rattle.dispatching.specs.Marks.{marks_from};
ghost use Rattle.seats.specs.Seats.{limited_of, seated_choice};
ghost use Rattle.seating.specs.SeatedRound.{seated_threads, seated_round_of};
ghost use Rattle.seated.specs.SeatedTables.{seated_in, Seated};
ghost use Rattle.seated_rounds.specs.SeatedVisits.{SeatedVisitTold, SeatedBack};

use dispatching::Visit;
use dispatching::marks::{close_up, with_moved};
use dispatching::visits::{put_choice, receiver_for};
use format::Head;
use format::words::narrow;
use seated::Sat;
use seated::list::choose_one;
use steps::beside::thread_count;

// The visit of a thread whose lone choice is refused: it meets the first receiver that it can meet, or does nothing.
fn meet_seated(
    file: &[u8],
    head: Head,
    sends: &[u16],
    receives: &[u16],
    table: &[u64],
    seats: &[u16],
    threads: &mut [u16],
    beside: &mut [u16],
    owners: &mut [u16],
    lines: &mut [u16],
    i: u16,
    there: u16,
    moved: u64,
) -> Visit
    requires { Laid file.now head × Granting (schema_of (contents_at file.now head)) Sends sends.now × Granting (schema_of (contents_at file.now head)) Receives receives.now × (length seats.now ≤ 16)
        × Seated (limited_of (contents_at file.now head) seats.now) threads.old beside.old owners.old lines.old × (0 < i) × (i ≤ there) × (there ≤ thread_count beside.old) }
    ensures { SeatedVisitTold (limited_of (contents_at file.now head) seats.now)
        (going seated_threads (seated_choice (limited_of (contents_at file.now head) seats.now)) (seated_in threads.old beside.old owners.old lines.old) (i - 1) (marks_from 1 there moved)
        (meeting_with seated_threads (seated_choice (limited_of (contents_at file.now head) seats.now)) (seated_in threads.old beside.old owners.old lines.old) i
        (receiver_for seated_threads (seated_choice (limited_of (contents_at file.now head) seats.now)) (seated_in threads.old beside.old owners.old lines.old) i 1 (marks_from 1 there moved))))
        i there result threads.new beside.new owners.new lines.new }
{
    let p = receiver_for(
        file, head, sends, receives, threads, beside, i, there, moved,
    );
    if p == 0 {
        return Visit {
            is_done: false,
            partner: 0,
            next: i + 1,
            present: there,
            moved,
        };
    }
    choose_one(
        file, head, sends, receives, table, seats, threads, beside, owners, lines, i, p,
    );
    Visit {
        is_done: true,
        partner: p,
        next: i + 1,
        present: there,
        moved: with_moved(with_moved(moved, p), i),
    }
}

// The visit of thread i: its lone choice if that is not refused, else a meeting. One that gets no seat is in the round's list and is no step.
pub fn visit_seated(
    file: &[u8],
    head: Head,
    sends: &[u16],
    receives: &[u16],
    table: &[u64],
    seats: &[u16],
    threads: &mut [u16],
    beside: &mut [u16],
    owners: &mut [u16],
    lines: &mut [u16],
    i: u16,
    there: u16,
    moved: u64,
) -> Visit
    requires { Laid file.now head × Granting (schema_of (contents_at file.now head)) Sends sends.now × Granting (schema_of (contents_at file.now head)) Receives receives.now × (length seats.now ≤ 16)
        × Seated (limited_of (contents_at file.now head) seats.now) threads.old beside.old owners.old lines.old × (0 < i) × (i ≤ there) × (there ≤ thread_count beside.old) }
    ensures { SeatedVisitTold (limited_of (contents_at file.now head) seats.now)
        (visit seated_threads (seated_choice (limited_of (contents_at file.now head) seats.now)) (seated_in threads.old beside.old owners.old lines.old) (i - 1) (marks_from 1 there moved))
        i there result threads.new beside.new owners.new lines.new }
{
    let sat = choose_one(
        file, head, sends, receives, table, seats, threads, beside, owners, lines, i, 0,
    );
    match sat {
        Sat::Refused(_) => meet_seated(
            file, head, sends, receives, table, seats, threads, beside, owners, lines, i, there,
            moved,
        ),
        Sat::Waits => Visit {
            is_done: true,
            partner: 0,
            next: i + 1,
            present: there,
            moved,
        },
        Sat::Ends => Visit {
            is_done: true,
            partner: 0,
            next: i,
            present: there - 1,
            moved: close_up(moved, i),
        },
        Sat::Steps => Visit {
            is_done: true,
            partner: 0,
            next: i + 1,
            present: there,
            moved: with_moved(moved, i),
        },
    }
}

// A round with seats: its choices, two words each, and how many there are.
pub fn go_round_seated(
    file: &[u8],
    head: Head,
    sends: &[u16],
    receives: &[u16],
    table: &[u64],
    seats: &[u16],
    threads: &mut [u16],
    beside: &mut [u16],
    owners: &mut [u16],
    lines: &mut [u16],
    words: &mut [u16],
) -> u16
    requires { Laid file.now head × Granting (schema_of (contents_at file.now head)) Sends sends.now × Granting (schema_of (contents_at file.now head)) Receives receives.now × (length seats.now ≤ 16)
        × Seated (limited_of (contents_at file.now head) seats.now) threads.old beside.old owners.old lines.old × (words.old ≡ replicate 128 0) }
    ensures { SeatedBack (limited_of (contents_at file.now head) seats.now)
        (seated_round_of (limited_of (contents_at file.now head) seats.now) (seated_in threads.old beside.old owners.old lines.old)) result
        threads.new beside.new owners.new lines.new words.new }
{
    let mut i: u16 = 1;
    let mut there = thread_count(beside);
    let mut moved: u64 = 0;
    let mut n: usize = 0;
    while i <= there {
        let seen = visit_seated(
            file, head, sends, receives, table, seats, threads, beside, owners, lines, i, there,
            moved,
        );
        n = put_choice(words, n, i, seen);
        i = seen.next;
        there = seen.present;
        moved = seen.moved;
    }
    narrow(n)
}
