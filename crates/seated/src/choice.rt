// One choice of a run with seats, in the tables that keep its state.
ghost use Rattle.std.specs.Prelude.{◌≡◌, false, ◌+◌, ◌-◌, ◌≤◌, ◌<◌, length, drop};
ghost use Rattle.std.proofs.Math.Seq.{paste};
ghost use Rattle.format.specs.Header.{Laid};
ghost use Rattle.format.specs.Contents.{contents_at};
ghost use Rattle.rules.specs.Schema.{schema_of};
ghost use Rattle.rules.specs.Kept.{Granting};
ghost use Rattle.rules.specs.declared.Way.TheVariants.{Sends, Receives};
ghost use Rattle.steps.specs.Choice.{clinic_of};
ghost use Rattle.steps.specs.Kept.{state_in, Sized};
ghost use Rattle.naming.specs.Scopes.{awaited_by};
ghost use Rattle.seats.specs.Seats.{limited_of, seats_in, in_line};
ghost use Rattle.seating.specs.SeatTables.{line_in, LineRows};
ghost use Rattle.seated.specs.SeatedTables.{seated_in, Seated, role_asked, LineUp, owners_passed, PassRoom, sat_of, WaitTold, SteppedOn, ChoseSeated};

use super::Sat;
use choices::list::go_through;
use format::Head;
use format::sections::{in_count, single_node, user_roles};
use masks::{UserRole, has_role};
use seating::lines::{in_line, join, leave};
use seating::seat::seat_answer;
use steps::Answer;
use steps::beside::thread_count;
use steps::records::thread_at;

// The seats of a role, 0 for no limit.
pub fn seats_of(seats: &[u16], role: UserRole) -> u16
    ensures { result ≡ seats_in seats.now role.0 }
{
    if role.0 == 0 {
        return 0;
    }
    let at = usize::from(role.0 - 1);
    if at < seats.len() {
        return seats[at];
    }
    0
}

// The role for which the choice may ask for a seat, 0 for none.
fn role_asked(
    file: &[u8],
    head: Head,
    seats: &[u16],
    threads: &[u16],
    beside: &[u16],
    i: u16,
    p: u16,
) -> u16
    requires { Laid file.now head × Sized threads.now beside.now }
    ensures { result ≡ role_asked (limited_of (contents_at file.now head) seats.now) (state_in threads.now beside.now) i p }
{
    let count = thread_count(beside);
    if !(in_count(count, i) & (p == 0)) {
        return 0;
    }
    let own = thread_at(threads, usize::from(i - 1));
    let n = single_node(file, head, own.node);
    if n.tag != 7 {
        return 0;
    }
    if !has_role(user_roles(file, head, own.user), UserRole(n.f1)) {
        return 0;
    }
    if seats_of(seats, UserRole(n.f1)) == 0 {
        return 0;
    }
    n.f1
}

// The line of a role after the answer about a seat: the head that gets one leaves it, one that has to wait joins it once.
fn line_up(lines: &mut [u16], role: u16, k: u16, answer: u16)
    requires { LineRows lines.old × (1 ≤ role) × (role ≤ 16) × ((answer ≡ 0 → ⊥) → (answer ≡ 1 → ⊥) → in_line k (line_in lines.old role) ≡ false → length (line_in lines.old role) < 32) }
    ensures { LineUp lines.old role k answer lines.new }
{
    if answer == 0 {
        return;
    }
    let row = usize::from(role - 1);
    if answer == 1 {
        if 0 < lines[33 * row] {
            leave(lines, row);
        }
        return;
    }
    if !in_line(lines, row, k) {
        join(lines, row, k);
    }
}

// Whether the choice has to wait for a seat. The head that gets one leaves its line; one that gets none joins the line.
fn has_to_wait(
    file: &[u8],
    head: Head,
    seats: &[u16],
    threads: &[u16],
    beside: &[u16],
    owners: &[u16],
    lines: &mut [u16],
    i: u16,
    p: u16,
) -> bool
    requires { Laid file.now head × (length seats.now ≤ 16)
        × Seated (limited_of (contents_at file.now head) seats.now) threads.now beside.now owners.now lines.old }
    ensures { WaitTold (limited_of (contents_at file.now head) seats.now)
        (seated_in threads.now beside.now owners.now lines.old) i p result lines.new }
{
    let role = role_asked(file, head, seats, threads, beside, i, p);
    if role == 0 {
        return false;
    }
    let count = thread_count(beside);
    let k = owners[usize::from(i - 1)];
    let limit = seats_of(seats, UserRole(role));
    let answer = seat_answer(
        threads,
        owners,
        lines,
        usize::from(count),
        UserRole(role),
        limit,
        k,
    );
    line_up(lines, role, k, answer);
    answer == 2
}

// One of so many threads is gone: the sessions of those after it move down by one.
fn move_down(owners: &mut [u16], count: usize, at: usize)
    requires { (at < count) × (count ≤ length owners.old) }
    ensures { owners.new ≡ paste owners.old at (drop (at + 1) owners.old) (count - 1 - at) }
{
    for k in at..count - 1 {
        owners[k] = owners[k + 1];
    }
}

// The threads' sessions after an answer: a new last thread has its maker's, an end takes its away.
fn pass_on(owners: &mut [u16], count: usize, i: u16, answer: Answer)
    requires { (length owners.old ≡ 64) × PassRoom count i answer }
    ensures { owners.new ≡ owners_passed owners.old count i answer }
{
    match answer {
        Answer::Adds => owners[count] = owners[usize::from(i - 1)],
        Answer::Ends => move_down(owners, count, usize::from(i - 1)),
        _ => {}
    }
}

fn sat_of(answer: Answer) -> Sat
    ensures { result ≡ sat_of answer }
{
    match answer {
        Answer::Refused(n) => Sat::Refused(n),
        Answer::Ends => Sat::Ends,
        _ => Sat::Steps,
    }
}

// A choice that gets its seat or asks for none, carried out in the tables. (The loop over a list is lent this one choice: a step with one caller is compiled into it.)
fn step_on(
    file: &[u8],
    head: Head,
    sends: &[u16],
    receives: &[u16],
    table: &[u64],
    threads: &mut [u16],
    beside: &mut [u16],
    owners: &mut [u16],
    i: u16,
    p: u16,
) -> Sat
    requires { Laid file.now head × Granting (schema_of (contents_at file.now head)) Sends sends.now × Granting (schema_of (contents_at file.now head)) Receives receives.now
        × Sized threads.old beside.old × (length owners.old ≡ 64) }
    ensures { SteppedOn (awaited_by table.now) (clinic_of (contents_at file.now head)) i p result threads.old beside.old owners.old
        threads.new beside.new owners.new }
{
    let count = thread_count(beside);
    let list = [i, p];
    let went = go_through(file, head, sends, receives, table, &list, threads, beside);
    let answer = went.last;
    pass_on(owners, usize::from(count), i, answer);
    sat_of(answer)
}

// One choice of a run with seats.
pub fn choose_seated(
    file: &[u8],
    head: Head,
    sends: &[u16],
    receives: &[u16],
    table: &[u64],
    seats: &[u16],
    threads: &mut [u16],
    beside: &mut [u16],
    owners: &mut [u16],
    lines: &mut [u16],
    i: u16,
    p: u16,
) -> Sat
    requires { Laid file.now head × Granting (schema_of (contents_at file.now head)) Sends sends.now × Granting (schema_of (contents_at file.now head)) Receives receives.now
        × (length seats.now ≤ 16) × Seated (limited_of (contents_at file.now head) seats.now) threads.old beside.old owners.old lines.old }
    ensures { ChoseSeated (awaited_by table.now) (limited_of (contents_at file.now head) seats.now) i p result
        threads.old beside.old owners.old lines.old threads.new beside.new owners.new lines.new }
{
    if has_to_wait(file, head, seats, threads, beside, owners, lines, i, p) {
        return Sat::Waits;
    }
    step_on(
        file, head, sends, receives, table, threads, beside, owners, i, p,
    )
}
