// The state of a row, put into the tables.
ghost use Rattle.std.specs.Prelude.{◌≡◌, [], ◌∷◌, ◌+◌, ◌*◌, ◌≤◌, ◌<◌, length, get_or};
ghost use Rattle.steps.specs.Records.{threads_in, thread_table_words};
ghost use Rattle.steps.specs.Beside.{beside_words};
ghost use Rattle.seating.specs.SeatTables.{LineRows};
ghost use Rattle.seated.specs.SeatedTables.{lines_in};
ghost use Rattle.rows.specs.Rows.{row_thread, row_threads, row_lines, NoLines, LinesFit, RowFits, Loaded};

use super::words::copy_words;
use steps::Thread;
use steps::records::put_thread;

fn thread_from(states: &[u16], at: usize) -> Thread
    requires { at + 12 ≤ length states.now }
    ensures { result ≡ row_thread states.now at }
{
    let mut vars = [0u16; 8];
    vars.copy_from_slice(&states[at + 4..at + 12]);
    Thread {
        user: states[at],
        node: states[at + 1],
        mask: states[at + 2],
        vars,
    }
}

fn load_threads(states: &[u16], at: usize, threads: &mut [u16], n: usize)
    requires { (at + 12 * n ≤ length states.now) × (n ≤ 64) × (length threads.old ≡ thread_table_words) }
    ensures { (threads_in threads.new 0 n ≡ row_threads states.now at n) × (length
        threads.new ≡ thread_table_words) }
{
    for k in 0..n {
        put_thread(threads, k, thread_from(states, at + 12 * k));
    }
}

// Nobody waits.
fn clear_lines(lines: &mut [u16])
    requires { length lines.old ≡ 528 }
    ensures { (length lines.new ≡ 528) × NoLines lines.new 0 }
{
    for r in 0..16 {
        lines[33 * r] = 0;
    }
}

fn load_lines(states: &[u16], at: usize, lines: &mut [u16], roles: usize)
    requires { (roles ≤ 16) × LinesFit states.now at roles × (length lines.old ≡ 528) }
    ensures { LineRows lines.new × (lines_in lines.new ≡ (λ x. get_or ([] ∷ row_lines
        states.now at roles) x [])) }
{
    clear_lines(lines);
    let mut on = at;
    for r in 0..roles {
        let n = usize::from(states[on]) + 1;
        copy_words(states, on, lines, 33 * r, n);
        on += n;
    }
}

pub fn load_row(
    states: &[u16],
    at: usize,
    roles: usize,
    threads: &mut [u16],
    beside: &mut [u16],
    owners: &mut [u16],
    lines: &mut [u16],
)
    requires { (at < 4294967296) × (roles ≤ 16) × RowFits roles states.now at
        × (length threads.old ≡ thread_table_words) × (length beside.old ≡ beside_words) × (length
        owners.old ≡ 64) × (length lines.old ≡ 528) }
    ensures { Loaded roles states.now at threads.new beside.new
        owners.new lines.new }
{
    let n = usize::from(states[at]);
    let used = 2 + 2 * usize::from(states[at + 1]);
    copy_words(states, at, beside, 0, used);
    load_threads(states, at + used, threads, n);
    copy_words(states, at + used + 12 * n, owners, 0, n);
    load_lines(states, at + used + 12 * n + n, lines, roles);
}
