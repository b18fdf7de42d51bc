// Running: a file through a list of choices, with its output; the ready pair.
#![tactic(auto)]

pub mod out;
pub mod pairs;

ghost use Rattle.std.specs.Prelude.{◌≡◌, cond, ◌+◌, ◌≤◌, ◌<◌, eqb, length, replicate};
ghost use Rattle.std.proofs.lemmas.List.Edits.{sets};
ghost use Rattle.format.specs.Words.{bytes_of};
ghost use Rattle.format.specs.Answers.{fine, refused};
ghost use Rattle.format.specs.Header.{Laid};
ghost use Rattle.format.specs.Contents.{contents_at};
ghost use Rattle.steps.specs.Choice.{clinic_of};
ghost use Rattle.naming.specs.Scopes.{awaited_by};
ghost use Rattle.steps.specs.Beside.{beside_words, total_words, totals_in};
ghost use Rattle.choices.specs.Choices.{start, run};
ghost use Rattle.choices.specs.Stored.{beside_run};
ghost use Rattle.running.specs.Run.{ran_words, listed, stopped, running, run_over, ready_pair, ready_of, ready, totals_of, totals_after};

use checking::{enter, enter_scoped};
use choices::Progress;
use choices::list::{run_by, run_list};
use format::{Head, Verdict};
use out::put_state;
use pairs::ready_pair;
use steps::beside::{BESIDE, totals_of};
use steps::records::TABLE;

// The ready pair, or the refusal that stopped the run.
#[repr(C)]
#[derive(Clone, Copy)]
pub struct Ready {
    pub number: u16,
    pub place: u16,
    pub sender: u16,
    pub receiver: u16,
}

// How many threads wait for each of the kinds 1 to 32, or the refusal that stopped the run.
#[repr(C)]
#[derive(Clone, Copy)]
pub struct Totals {
    pub number: u16,
    pub place: u16,
    pub totals: [u16; 32],
}

// The words of a table of what each node is reached with. Most files are short and need a shorter one: a node has six bytes, and the head 26, so that one
// of so many bytes has at most 84 nodes.
const SCOPES: usize = 1025;

const SHORT: usize = 530;

const FEW: usize = 85;

// A sender and a receiver, 0 and 0 for none.
#[derive(Clone, Copy)]
pub struct Two {
    pub sender: u16,
    pub receiver: u16,
}

// Not 17: an even number of words of choices, and at most 65,535 choices.
pub fn is_listed(words: usize) -> bool
    ensures { result ≡ listed words }
{
    (words % 2 == 0) & (words <= 131070)
}

// A run halted at a choice has the choice's number as place.
pub fn stopped_at(progress: Progress) -> Verdict
    requires { (progress.refusal ≡ 0 → ⊥) → progress.count < 65535 }
    ensures { result ≡ cond (eqb progress.refusal 0) fine (refused progress.refusal (progress.count + 1)) }
{
    if progress.refusal == 0 {
        return Verdict::FINE;
    }
    Verdict {
        number: progress.refusal,
        place: progress.count + 1,
    }
}

// The run of a file that 1 to 10 leave clean, and its output. The table has what each node is reached with.
fn run_into(file: &[u8], head: Head, table: &[u64], choices: &[u16], out: &mut [u8]) -> Verdict
    requires { Laid file.now head × (length choices.now ≤ 131070) × (1800 ≤ length out.old) }
    ensures { (result ≡ stopped (run (clinic_of (contents_at file.now head)) (start (contents_at file.now head)) choices.now))
        × (out.new ≡ sets out.old 0 (bytes_of (ran_words (run (clinic_of (contents_at file.now head)) (start (contents_at file.now head)) choices.now)))) }
{
    let mut threads = [0u16; TABLE];
    let mut beside = [0u16; BESIDE];
    let progress = run_list(file, head, table, choices, &mut threads, &mut beside);
    put_state(&threads, &beside, progress, out);
    stopped_at(progress)
}

// The run of a file through a list of choices, and the state that it leaves, with a table lent to work in.
fn run_with(file: &[u8], choices: &[u16], table: &mut [u64], out: &mut [u8]) -> Verdict
    ensures { (result ≡ running file.now choices.now (length out.old))
        × (out.new ≡ run_over file.now choices.now out.old) }
{
    if !(is_listed(choices.len()) & (1800 <= out.len())) {
        return Verdict {
            number: 17,
            place: 0,
        };
    }
    let answer = enter_scoped(file, table);
    match answer {
        Err(first) => first,
        Ok(head) => run_into(file, head, table, choices, out),
    }
}

pub fn run(file: &[u8], choices: &[u16], out: &mut [u8]) -> Verdict
    ensures { (result ≡ running file.now choices.now (length out.old))
        × (out.new ≡ run_over file.now choices.now out.old) }
{
    if file.len() <= SHORT {
        let mut table = [0u64; FEW];
        return run_with(file, choices, &mut table, out);
    }
    let mut table = [0u64; SCOPES];
    run_with(file, choices, &mut table, out)
}

// A refusal in place of a pair.
fn no_pair(verdict: Verdict) -> Ready
    ensures { result ≡ record { number = verdict.number; place = verdict.place; sender = 0; receiver = 0 } }
{
    Ready {
        number: verdict.number,
        place: verdict.place,
        sender: 0,
        receiver: 0,
    }
}

// The pair of the state that the list leaves, of a file that 1 to 10 leave clean. Nobody reads the totals of its state: the table that they go by is left
// empty.
fn ready_in(file: &[u8], head: Head, choices: &[u16]) -> Ready
    requires { Laid file.now head × (length choices.now ≤ 131070) }
    ensures { result ≡ ready_of (stopped (run (clinic_of (contents_at file.now head)) (start (contents_at file.now head)) choices.now))
        (ready_pair (clinic_of (contents_at file.now head)) (run (clinic_of (contents_at file.now head)) (start (contents_at file.now head)) choices.now).state) }
{
    let mut sends = [0u16; 33];
    let mut receives = [0u16; 33];
    let mut threads = [0u16; TABLE];
    let mut beside = [0u16; BESIDE];
    let table = [0u64; 0];
    let progress = run_by(
        file,
        head,
        &mut sends,
        &mut receives,
        &table,
        choices,
        &mut threads,
        &mut beside,
    );
    let verdict = stopped_at(progress);
    if verdict.number != 0 {
        return no_pair(verdict);
    }
    let pair = ready_pair(file, head, &sends, &receives, &threads, &beside);
    Ready {
        number: 0,
        place: 0,
        sender: pair.sender,
        receiver: pair.receiver,
    }
}

// The ready pair of the state that a list of choices leaves.
pub fn ready_after(file: &[u8], choices: &[u16]) -> Ready
    ensures { result ≡ ready file.now choices.now }
{
    if !is_listed(choices.len()) {
        return no_pair(Verdict {
            number: 17,
            place: 0,
        });
    }
    let answer = enter(file);
    match answer {
        Err(first) => no_pair(first),
        Ok(head) => ready_in(file, head, choices),
    }
}

// A refusal in place of totals.
fn no_totals(verdict: Verdict) -> Totals
    ensures { result ≡ totals_of verdict (replicate total_words 0) }
{
    Totals {
        number: verdict.number,
        place: verdict.place,
        totals: [0; 32],
    }
}

// The totals of the state in which the run stands, of a file that 1 to 10 leave clean.
fn totals_in(file: &[u8], head: Head, table: &[u64], choices: &[u16]) -> Totals
    requires { Laid file.now head × (length choices.now ≤ 131070) }
    ensures { result ≡ totals_of (stopped (run (clinic_of (contents_at file.now head)) (start (contents_at file.now head)) choices.now))
        (totals_in (beside_run (awaited_by table.now) (clinic_of (contents_at file.now head)) (start (contents_at file.now head)) (replicate beside_words 0) choices.now)) }
{
    let mut threads = [0u16; TABLE];
    let mut beside = [0u16; BESIDE];
    let progress = run_list(file, head, table, choices, &mut threads, &mut beside);
    let verdict = stopped_at(progress);
    let totals = totals_of(&beside);
    Totals {
        number: verdict.number,
        place: verdict.place,
        totals,
    }
}

// How many threads wait for each kind in the state that a list of choices leaves, with a table lent to work in.
fn totals_with(file: &[u8], choices: &[u16], table: &mut [u64]) -> Totals
    requires { (length table.old ≡ 1025) × (table.old ≡ replicate (length table.old) 0) }
    ensures { result ≡ totals_after file.now choices.now }
{
    if !is_listed(choices.len()) {
        return no_totals(Verdict {
            number: 17,
            place: 0,
        });
    }
    let answer = enter_scoped(file, table);
    match answer {
        Err(first) => no_totals(first),
        Ok(head) => totals_in(file, head, table, choices),
    }
}

pub fn totals_after(file: &[u8], choices: &[u16]) -> Totals
    ensures { result ≡ totals_after file.now choices.now }
{
    let mut table = [0u64; SCOPES];
    totals_with(file, choices, &mut table)
}
