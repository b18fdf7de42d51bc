// The words of the state that the tables hold, put into an output.
ghost use Rattle.std.specs.Prelude.{◌≡◌, [], ◌∷◌, ◌+◌, ◌*◌, ◌≤◌, length};
ghost use Rattle.std.proofs.lemmas.List.Edits.{sets};
ghost use Rattle.steps.specs.Kept.{Sized};
ghost use Rattle.steps.specs.Records.{threads_in, thread_table_words};
ghost use Rattle.steps.specs.Beside.{beside_words, thread_count, made_count};
ghost use Rattle.running.specs.Run.{thread_words};
ghost use Rattle.seating.specs.SeatTables.{LineRows};
ghost use Rattle.seated.specs.SeatedTables.{lines_in, seated_in};
ghost use Rattle.rows.specs.Rows.{line_words, row_words};

use masks::role_count;
use rows::words::copy_words;
use steps::Thread;
use steps::beside::{made_count, thread_count};
use steps::records::thread_at;

// A thread: user, node, mask, the number of roles it holds, its eight variables.
fn put_thread(out: &mut [u16], at: usize, it: Thread)
    requires { at + 12 ≤ length out.old }
    ensures { out.new ≡ sets out.old at (thread_words (it ∷ [])) }
{
    // One array, as `rows::compare` has it: two copies, of four words and of `vars`, would be no plainer.
    let vars = it.vars;
    let words = [
        it.user,
        it.node,
        it.mask,
        role_count(it.mask),
        vars[0],
        vars[1],
        vars[2],
        vars[3],
        vars[4],
        vars[5],
        vars[6],
        vars[7],
    ];
    copy_words(&words, 0, out, at, 12);
}

fn put_threads(threads: &[u16], n: usize, out: &mut [u16], at: usize)
    requires { (n ≤ 64) × (length threads.now ≡ thread_table_words) × (at + 12 * n ≤ length out.old) }
    ensures { out.new ≡ sets out.old at
        (thread_words (threads_in threads.now 0 n)) }
{
    for k in 0..n {
        put_thread(out, at + 12 * k, thread_at(threads, k));
    }
}

// A line's words stand in the table as they stand in a row: how many wait, and their sessions.
fn put_lines(lines: &[u16], roles: usize, out: &mut [u16], at: usize)
    requires { (roles ≤ 16) × LineRows lines.now
        × (at + length (line_words (lines_in lines.now) 1 roles) ≤ length out.old) }
    ensures { out.new ≡ sets out.old at (line_words (lines_in lines.now) 1 roles) }
{
    let mut on = at;
    for r in 0..roles {
        let n = usize::from(lines[33 * r]) + 1;
        copy_words(lines, 33 * r, out, on, n);
        on += n;
    }
}

// How many words the lines have.
fn lines_length(lines: &[u16], roles: usize) -> usize
    requires { (roles ≤ 16) × LineRows lines.now }
    ensures { (result ≡ length (line_words (lines_in lines.now) 1 roles)) × (result ≤ 528) }
{
    let mut n: usize = 0;
    for r in 0..roles {
        n += usize::from(lines[33 * r]) + 1;
    }
    n
}

// How many words the state has.
pub fn row_length(beside: &[u16], lines: &[u16], roles: usize) -> usize
    requires { (length beside.now ≡ beside_words) × (thread_count beside.now ≤ 64) × (made_count beside.now ≤ 64)
        × (roles ≤ 16) × LineRows lines.now }
    ensures { (result ≡ 2 + 2 * made_count beside.now + 13 * thread_count beside.now
        + length (line_words (lines_in lines.now) 1 roles)) × (result ≤ 1490) }
{
    let m = usize::from(made_count(beside));
    let n = usize::from(thread_count(beside));
    2 + 2 * m + 13 * n + lines_length(lines, roles)
}

pub fn put_row(
    out: &mut [u16],
    at: usize,
    roles: usize,
    threads: &[u16],
    beside: &[u16],
    owners: &[u16],
    lines: &[u16],
)
    requires { (roles ≤ 16) × Sized threads.now beside.now × (length owners.now ≡ 64) × LineRows lines.now
        × (at + (2 + 2 * made_count beside.now + 13 * thread_count beside.now
        + length (line_words (lines_in lines.now) 1 roles)) ≤ length out.old) }
    ensures { out.new ≡ sets out.old at (row_words roles (seated_in threads.now
        beside.now owners.now lines.now)) }
{
    let used = 2 + 2 * usize::from(made_count(beside));
    let n = usize::from(thread_count(beside));
    copy_words(beside, 0, out, at, used);
    put_threads(threads, n, out, at + used);
    copy_words(owners, 0, out, at + used + 12 * n, n);
    put_lines(lines, roles, out, at + used + 12 * n + n);
}
