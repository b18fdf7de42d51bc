// The state that the tables hold, compared with the words of a row.
ghost use Rattle.std.specs.Prelude.{◌≡◌, [], ◌∷◌, ◌+◌, ◌*◌, ◌≤◌, ◌<◌, length};
ghost use Rattle.steps.specs.Kept.{Sized};
ghost use Rattle.steps.specs.Records.{threads_in, thread_table_words};
ghost use Rattle.running.specs.Run.{thread_words};
ghost use Rattle.seating.specs.SeatTables.{LineRows};
ghost use Rattle.seated.specs.SeatedTables.{lines_in, seated_in};
ghost use Rattle.rows.specs.Rows.{line_words, row_words, stands_at};

use super::words::same_words;
use masks::role_count;
use steps::Thread;
use steps::beside::{made_count, thread_count};
use steps::records::thread_at;

// Whether a thread's twelve words stand in the states from a place on.
fn same_thread(states: &[u16], at: usize, it: Thread) -> bool
    requires { at < 8589934592 }
    ensures { result ≡ stands_at states.now at (thread_words (it ∷ [])) }
{
    // One array: `same_words` for the variables alone, four words on, would ask more of `at`.
    let vars = it.vars;
    let words = [
        it.user,
        it.node,
        it.mask,
        role_count(it.mask),
        vars[0],
        vars[1],
        vars[2],
        vars[3],
        vars[4],
        vars[5],
        vars[6],
        vars[7],
    ];
    same_words(states, at, &words, 0, 12)
}

fn same_threads(states: &[u16], at: usize, threads: &[u16], n: usize) -> bool
    requires { (at < 8589933000) × (n ≤ 64) × (length threads.now ≡ thread_table_words) }
    ensures { result ≡ stands_at states.now at (thread_words (threads_in threads.now 0 n)) }
{
    for k in 0..n {
        if !same_thread(states, at + 12 * k, thread_at(threads, k)) {
            return false;
        }
    }
    true
}

// A line's words stand in the table as they stand in a row: how many wait, and their sessions.
fn same_lines(states: &[u16], at: usize, lines: &[u16], roles: usize) -> bool
    requires { (at < 8589933000) × (roles ≤ 16) × LineRows lines.now }
    ensures { result ≡ stands_at states.now at (line_words (lines_in lines.now) 1 roles) }
{
    let mut on = at;
    for r in 0..roles {
        let n = usize::from(lines[33 * r]) + 1;
        if !same_words(states, on, lines, 33 * r, n) {
            return false;
        }
        on += n;
    }
    true
}

pub fn same_row(
    states: &[u16],
    at: usize,
    roles: usize,
    threads: &[u16],
    beside: &[u16],
    owners: &[u16],
    lines: &[u16],
) -> bool
    requires { (at < 4294967296) × (roles ≤ 16) × Sized threads.now beside.now × (length owners.now ≡ 64)
        × LineRows lines.now }
    ensures { result ≡ stands_at states.now at
        (row_words roles (seated_in threads.now beside.now owners.now
        lines.now)) }
{
    let used = 2 + 2 * usize::from(made_count(beside));
    let n = usize::from(thread_count(beside));
    if !same_words(states, at, beside, 0, used) {
        return false;
    }
    if !same_threads(states, at + used, threads, n) {
        return false;
    }
    if !same_words(states, at + used + 12 * n, owners, 0, n) {
        return false;
    }
    same_lines(states, at + used + 12 * n + n, lines, roles)
}
