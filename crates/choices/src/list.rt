// A list of choices, each carried out in the tables that keep the state.
ghost use Rattle.std.specs.Prelude.{◌≡◌, cond, ◌≤◌, ◌<◌, length, replicate};
ghost use Rattle.format.specs.Header.{Laid};
ghost use Rattle.format.specs.Contents.{in_count, item, contents_at};
ghost use Rattle.rules.specs.Schema.{schema_of};
ghost use Rattle.rules.specs.Kept.{Granting};
ghost use Rattle.rules.specs.declared.Way.TheVariants.{Sends, Receives};
ghost use Rattle.steps.specs.Choice.{clinic_of, outcome};
ghost use Rattle.steps.specs.Threads.{no_thread};
ghost use Rattle.choices.specs.Choices.{start, run};
ghost use Rattle.steps.specs.Kept.{state_in, Sized};
ghost use Rattle.steps.specs.Acted.{outcome_of};
ghost use Rattle.choices.specs.Stored.{HasRoom, Chose, untried, tried, beside_run, Gone, Through};
ghost use Rattle.steps.specs.Records.{thread_table_words};
ghost use Rattle.naming.specs.Scopes.{awaited_by};
ghost use Rattle.steps.specs.Beside.{thread_count, made_count, beside_words, counts_by, beside_by, start_beside};

use super::state::{add_thread, remove_thread};
use super::{Progress, Went};
use format::Head;
use format::sections::{in_count, session};
use format::words::narrow;
use rules::grants::fill_grants;
use steps::act::act;
use steps::beside::{add_made, reach, recount, start_words, thread_count};
use steps::records::{put_thread, thread_at};
use steps::{Acted, Answer, Thread};

// What a choice of thread i with partner p comes to is stored in place, but for the totals. A refused one stores nothing.
fn store(threads: &mut [u16], beside: &mut [u16], i: u16, p: u16, it: Acted) -> Answer
    requires { Sized threads.old beside.old × (0 < i) × (i ≤ thread_count beside.old) × HasRoom (thread_count beside.old) (made_count beside.old) p it.answer }
    ensures { Chose (counts_by beside.old (outcome_of it)) (outcome_of it) i p result threads.old beside.old threads.new beside.new }
{
    let at = usize::from(i - 1);
    let answer = it.answer;
    let first = it.first;
    let second = it.second;
    match answer {
        Answer::Refused(n) => {
            return Answer::Refused(n);
        }
        Answer::Moves => {
            put_thread(threads, at, first);
            return Answer::Moves;
        }
        Answer::Adds => {
            put_thread(threads, at, first);
            add_thread(threads, beside, second);
            return Answer::Adds;
        }
        Answer::Makes(made) => {
            put_thread(threads, at, first);
            add_made(beside, made);
            return Answer::Makes(made);
        }
        Answer::Ends => {
            remove_thread(threads, beside, i);
            return Answer::Ends;
        }
        Answer::Meets => {
            put_thread(threads, at, first);
            put_thread(threads, usize::from(p - 1), second);
            return Answer::Meets;
        }
    }
}

// The thread to look at for the partner: the one that a choice names; where it names none, the thread itself.
pub fn looked_at(count: u16, i: u16, p: u16) -> u16
    ensures { result ≡ cond (in_count count p) p i }
{
    if in_count(count, p) {
        return p;
    }
    i
}

// One choice, carried out in the tables: the one way to a step. A function with one caller is compiled into it: `act` has this one, and this the loop.
fn choose(
    file: &[u8],
    head: Head,
    sends: &[u16],
    receives: &[u16],
    table: &[u64],
    threads: &mut [u16],
    beside: &mut [u16],
    i: u16,
    p: u16,
) -> Answer
    requires { Laid file.now head × Granting (schema_of (contents_at file.now head)) Sends sends.now × Granting (schema_of (contents_at file.now head)) Receives receives.now × Sized threads.old beside.old }
    ensures { Chose (beside_by (awaited_by table.now) beside.old (outcome (clinic_of (contents_at file.now head)) (state_in threads.old beside.old) i p))
        (outcome (clinic_of (contents_at file.now head)) (state_in threads.old beside.old) i p) i p result
        threads.old beside.old threads.new beside.new }
{
    let count = thread_count(beside);
    if !in_count(count, i) {
        return Answer::Refused(18);
    }
    let own = thread_at(threads, usize::from(i - 1));
    let q = looked_at(count, i, p);
    let other = thread_at(threads, usize::from(q - 1));
    let it = act(file, head, sends, receives, beside, own, p, other);
    let answer = store(threads, beside, i, p, it);
    recount(beside, table, it);
    answer
}

// The choices in order, two words each, up to the first that is refused. The table has what each node is reached with.
pub fn go_through(
    file: &[u8],
    head: Head,
    sends: &[u16],
    receives: &[u16],
    table: &[u64],
    choices: &[u16],
    threads: &mut [u16],
    beside: &mut [u16],
) -> Went
    requires { Laid file.now head × Granting (schema_of (contents_at file.now head)) Sends sends.now × Granting (schema_of (contents_at file.now head)) Receives receives.now
        × (length choices.now ≤ 131070) × Sized threads.old beside.old }
    ensures { Through (run (clinic_of (contents_at file.now head)) (state_in threads.old beside.old) choices.now)
        (tried (awaited_by table.now) (clinic_of (contents_at file.now head)) (state_in threads.old beside.old) (untried beside.old) choices.now) result threads.new beside.new }
{
    let n = choices.len() / 2;
    let mut last = Answer::Refused(0);
    for k in 0..n {
        let i = choices[2 * k];
        let p = choices[2 * k + 1];
        let answer = choose(file, head, sends, receives, table, threads, beside, i, p);
        if let Answer::Refused(refusal) = answer {
            return Went {
                count: narrow(k),
                refusal,
                last: answer,
            };
        }
        last = answer;
    }
    Went {
        count: narrow(n),
        refusal: 0,
        last,
    }
}

// A session's thread at the start: at its root, with the session's mask and nothing bound; no thread for no session.
pub fn opening(file: &[u8], head: Head, k: u16) -> Thread
    requires { Laid file.now head }
    ensures { result ≡ item no_thread (start (contents_at file.now head)).threads k }
{
    let it = session(file, head, k);
    Thread {
        user: it.user,
        node: it.root,
        mask: it.mask,
        vars: [0; 8],
    }
}

// The words beside the threads of the start: how many, no channel made, and the totals of those that start at a receive.
pub fn start_beside(file: &[u8], head: Head, table: &[u64], beside: &mut [u16])
    requires { Laid file.now head × (length beside.old ≡ beside_words) }
    ensures { beside.new ≡ start_beside (awaited_by table.now) beside.old (start (contents_at file.now head)).threads }
{
    let sessions = head.count.sessions;
    start_words(beside, sessions);
    if table.len() == 0 {
        return;
    }
    for k in 1..=sessions {
        let it = session(file, head, k);
        reach(beside, table, it.root);
    }
}

// One thread for each session, in order, no channel made, and the totals.
fn open_threads(file: &[u8], head: Head, table: &[u64], threads: &mut [u16], beside: &mut [u16])
    requires { Laid file.now head × (length threads.old ≡ thread_table_words) × (length beside.old ≡ beside_words) }
    ensures { (state_in threads.new beside.new ≡ start (contents_at file.now head)) × Sized threads.new beside.new
        × (beside.new ≡ start_beside (awaited_by table.now) beside.old (start (contents_at file.now head)).threads) }
{
    let n = usize::from(head.count.sessions);
    for i in 0..n {
        put_thread(threads, i, opening(file, head, narrow(i + 1)));
    }
    start_beside(file, head, table, beside);
}

// The start of a run, with the grants in two tables. What the state's tables held before is of no account. The table has what each node is reached with.
pub fn open_run(
    file: &[u8],
    head: Head,
    sends: &mut [u16],
    receives: &mut [u16],
    table: &[u64],
    threads: &mut [u16],
    beside: &mut [u16],
)
    requires { Laid file.now head × (length sends.old ≡ 33) × (length receives.old ≡ 33) × (sends.old ≡ replicate (length sends.old) 0) × (receives.old ≡ replicate (length receives.old) 0)
        × (length threads.old ≡ thread_table_words) × (length beside.old ≡ beside_words) }
    ensures { (state_in threads.new beside.new ≡ start (contents_at file.now head)) × Sized threads.new beside.new
        × (beside.new ≡ start_beside (awaited_by table.now) beside.old (start (contents_at file.now head)).threads)
        × Granting (schema_of (contents_at file.now head)) Sends sends.new × Granting (schema_of (contents_at file.now head)) Receives receives.new }
{
    fill_grants(file, head, sends, receives);
    open_threads(file, head, table, threads, beside);
}

// The run of a file through a list of choices, which leaves the grants in the two tables.
pub fn run_by(
    file: &[u8],
    head: Head,
    sends: &mut [u16],
    receives: &mut [u16],
    table: &[u64],
    choices: &[u16],
    threads: &mut [u16],
    beside: &mut [u16],
) -> Progress
    requires { Laid file.now head × (length sends.old ≡ 33) × (length receives.old ≡ 33) × (sends.old ≡ replicate (length sends.old) 0) × (receives.old ≡ replicate (length receives.old) 0)
        × (length choices.now ≤ 131070) × (length threads.old ≡ thread_table_words) × (length beside.old ≡ beside_words) }
    ensures { Gone (run (clinic_of (contents_at file.now head)) (start (contents_at file.now head)) choices.now)
        (beside_run (awaited_by table.now) (clinic_of (contents_at file.now head)) (start (contents_at file.now head)) beside.old choices.now) result threads.new beside.new
        × Granting (schema_of (contents_at file.now head)) Sends sends.new × Granting (schema_of (contents_at file.now head)) Receives receives.new }
{
    open_run(file, head, sends, receives, table, threads, beside);
    let went = go_through(file, head, sends, receives, table, choices, threads, beside);
    Progress {
        count: went.count,
        refusal: went.refusal,
    }
}

// The same for a caller that has no use for the grants.
pub fn run_list(
    file: &[u8],
    head: Head,
    table: &[u64],
    choices: &[u16],
    threads: &mut [u16],
    beside: &mut [u16],
) -> Progress
    requires { Laid file.now head × (length choices.now ≤ 131070) × (length threads.old ≡ thread_table_words) × (length beside.old ≡ beside_words) }
    ensures { Gone (run (clinic_of (contents_at file.now head)) (start (contents_at file.now head)) choices.now)
        (beside_run (awaited_by table.now) (clinic_of (contents_at file.now head)) (start (contents_at file.now head)) beside.old choices.now) result threads.new beside.new }
{
    let mut sends = [0u16; 33];
    let mut receives = [0u16; 33];
    run_by(
        file,
        head,
        &mut sends,
        &mut receives,
        table,
        choices,
        threads,
        beside,
    )
}
