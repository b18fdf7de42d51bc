// Whether the tables hold a state that is in order: what a choice with seats asks of the state it is made in.
#![tactic(auto)]

ghost use Rattle.std.specs.Prelude.{◌≡◌, not, ◌&&◌, ◌+◌, ◌≤◌, ◌<◌, length, take};
ghost use Rattle.masks.specs.Mask.{has, with};
ghost use Rattle.format.specs.Contents.{in_count};
ghost use Rattle.reading_exact.specs.Lists.{All};
ghost use Rattle.reading_exact.specs.File.{InCount};
ghost use Rattle.steps.specs.Kept.{Sized};
ghost use Rattle.steps.specs.Beside.{thread_count};
ghost use Rattle.seats.specs.Seats.{seats_in};
ghost use Rattle.seating.specs.SeatTables.{line_row, LineRows};
ghost use Rattle.seated.specs.SeatedTables.{seated_in};
ghost use Rattle.ordering.specs.Order.{all_counted, line_fits, role_fits, in_order};

use format::sections::in_count;
use masks::UserRole;
use rows::words::word_at;
use seating::sessions::{has_session, session_count, sessions_in};
use steps::beside::thread_count;

// Whether the first so many words of a table are each of 1 to n.
fn are_counted(owners: &[u16], count: usize, n: u16) -> bool
    requires { count ≤ length owners.now }
    ensures { result ≡ all_counted n (take count owners.now) }
{
    for owner in &owners[..count] {
        if !in_count(n, *owner) {
            return false;
        }
    }
    true
}

// A session of 1 to n that a mask doesn't have.
fn may_wait(mask: u32, n: u16, k: u16) -> bool
    ensures { result ≡ (in_count n k && not (has mask k)) }
{
    in_count(n, k) & !has_session(mask, k)
}

// The mask with a session put in.
fn with_waiting(mask: u32, k: u16) -> u32
    requires { (1 ≤ k) × (k ≤ 32) }
    ensures { result ≡ with mask k }
{
    mask | (1u32 << (k - 1))
}

// Whether each of a line is a session of 1 to n, isn't in the mask, and didn't come before.
fn line_fits(lines: &[u16], row: usize, mask: u32, n: u16) -> bool
    requires { LineRows lines.now × (row < 16) × (n ≤ 32) }
    ensures { result ≡ line_fits n (has mask) (line_row lines.now row) }
{
    let at = 33 * row + 1;
    let waiting = usize::from(lines[33 * row]);
    let mut seen = mask;
    for k in &lines[at..at + waiting] {
        if !may_wait(seen, n, *k) {
            return false;
        }
        seen = with_waiting(seen, *k);
    }
    true
}

// Whether a role has no more sessions than its limit, and a line of others; without limit, whether it has no line.
fn role_fits(
    threads: &[u16],
    beside: &[u16],
    owners: &[u16],
    lines: &[u16],
    n: u16,
    limit: u16,
    role: u16,
) -> bool
    requires { Sized threads.now beside.now × (length owners.now ≡ 64) × LineRows lines.now × (n ≤ 32)
        × All (InCount n) (take (thread_count beside.now) owners.now) × (1 ≤ role) × (role ≤ 16) }
    ensures { result ≡ role_fits n (seated_in threads.now beside.now owners.now
        lines.now) limit role }
{
    let row = usize::from(role - 1);
    if limit == 0 {
        return lines[33 * row] == 0;
    }
    let count = usize::from(thread_count(beside));
    let mask = sessions_in(threads, owners, count, UserRole(role));
    if limit < session_count(mask) {
        return false;
    }
    line_fits(lines, row, mask, n)
}

// Whether the tables hold a state in order, of a file of n sessions and with a table of seats.
pub fn in_order(
    seats: &[u16],
    n: u16,
    threads: &[u16],
    beside: &[u16],
    owners: &[u16],
    lines: &[u16],
) -> bool
    requires { Sized threads.now beside.now × (length owners.now ≡ 64) × LineRows lines.now × (n ≤ 32) }
    ensures { result ≡ in_order n (seats_in seats.now) (seated_in threads.now
        beside.now owners.now lines.now) }
{
    if !are_counted(owners, usize::from(thread_count(beside)), n) {
        return false;
    }
    for r in (1..=16u16).rev() {
        let limit = word_at(seats, usize::from(r - 1));
        if !role_fits(threads, beside, owners, lines, n, limit, r) {
            return false;
        }
    }
    true
}
