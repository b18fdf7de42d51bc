// The step of a lent choice, by value on the two records that it touches: they are laid in a table at their places, and a run's own loop goes there through
// a list of this one choice. (A step with one caller is compiled into the loop; a second caller would keep it out.)
ghost use Rattle.std.specs.Prelude.{◌≡◌, ◌-◌, ◌≤◌, ◌<◌, length, replicate};
ghost use Rattle.format.specs.Header.{Laid};
ghost use Rattle.format.specs.Contents.{contents_at};
ghost use Rattle.rules.specs.Schema.{schema_of};
ghost use Rattle.rules.specs.Kept.{Granting};
ghost use Rattle.rules.specs.declared.Way.TheVariants.{Sends, Receives};
ghost use Rattle.steps.specs.declared.Outcome.TheVariants.{Refused};
ghost use Rattle.naming.specs.Scopes.{awaited_by};
ghost use Rattle.steps.specs.Acted.{acted_of, outcome_by};
ghost use Rattle.steps.specs.Beside.{thread_count, made_count, beside_words, beside_by};
ghost use Rattle.steps.specs.Records.{thread_in, record_at, thread_table_words};
ghost use Rattle.steps.specs.Choice.{clinic_of};
ghost use Rattle.steps.specs.Kept.{Sized};
ghost use Rattle.lending.specs.Walk.{outcome_on, second_at};

use choices::list::{go_through, looked_at};
use format::Head;
use format::sections::in_count;
use rules::grants::fill_grants;
use steps::beside::thread_count;
use steps::records::{TABLE, put_thread, thread_at};
use steps::threads::no_thread;
use steps::{Acted, Answer, Thread};

// An answer with the threads that it leaves, as they stand in a table.
fn read_back(words: &[u16], count: usize, at: usize, to: usize, answer: Answer) -> Acted
    requires { (length words.now ≡ thread_table_words) × (at < 64) × (second_at count to answer < 64) }
    ensures { result ≡ acted_of (outcome_by answer (thread_in words.now (record_at at)) (thread_in words.now (record_at (second_at count to answer)))) }
{
    let none = no_thread();
    let own = thread_at(words, at);
    match answer {
        Answer::Refused(_) => {
            return Acted {
                answer,
                first: none,
                second: none,
            };
        }
        Answer::Moves => {
            return Acted {
                answer,
                first: own,
                second: none,
            };
        }
        Answer::Adds => {
            let last = thread_at(words, count);
            return Acted {
                answer,
                first: own,
                second: last,
            };
        }
        Answer::Makes(_) => {
            return Acted {
                answer,
                first: own,
                second: none,
            };
        }
        Answer::Ends => {
            return Acted {
                answer,
                first: none,
                second: none,
            };
        }
        Answer::Meets => {
            let other = thread_at(words, to);
            return Acted {
                answer,
                first: own,
                second: other,
            };
        }
    }
}

// The step, in a table lent to work in, by tables that have the grants. The acting thread is laid last: where the partner is no other thread, its
// record stands.
fn step_in(
    file: &[u8],
    head: Head,
    sends: &[u16],
    receives: &[u16],
    table: &[u64],
    words: &mut [u16],
    beside: &mut [u16],
    i: u16,
    own: Thread,
    p: u16,
    other: Thread,
) -> Acted
    requires { Laid file.now head × Granting (schema_of (contents_at file.now head)) Sends sends.now × Granting (schema_of (contents_at file.now head)) Receives receives.now
        × Sized words.old beside.old × (p ≡ i → other ≡ own) }
    ensures { (result ≡ acted_of (outcome_on (clinic_of (contents_at file.now head)) beside.old i own p other))
        × (beside.new ≡ beside_by (awaited_by table.now) beside.old (outcome_on (clinic_of (contents_at file.now head)) beside.old i own p other)) }
{
    let count = thread_count(beside);
    if !in_count(count, i) {
        let none = no_thread();
        return Acted {
            answer: Answer::Refused(18),
            first: none,
            second: none,
        };
    }
    let at = usize::from(i - 1);
    let q = looked_at(count, i, p);
    let to = usize::from(q - 1);
    put_thread(words, to, other);
    put_thread(words, at, own);
    let list = [i, p];
    let went = go_through(file, head, sends, receives, table, &list, words, beside);
    let answer = went.last;
    read_back(words, usize::from(count), at, to, answer)
}

// The same, with tables lent to work in.
fn step_with(
    file: &[u8],
    head: Head,
    sends: &mut [u16],
    receives: &mut [u16],
    table: &[u64],
    words: &mut [u16],
    beside: &mut [u16],
    i: u16,
    own: Thread,
    p: u16,
    other: Thread,
) -> Acted
    requires { Laid file.now head × (length sends.old ≡ 33) × (length receives.old ≡ 33) × (sends.old ≡ replicate (length sends.old) 0) × (receives.old ≡ replicate (length receives.old) 0)
        × (length words.old ≡ thread_table_words) × (length beside.old ≡ beside_words) × (thread_count beside.old ≤ 64) × (made_count beside.old ≤ 64) × (p ≡ i → other ≡ own) }
    ensures { (result ≡ acted_of (outcome_on (clinic_of (contents_at file.now head)) beside.old i own p other))
        × (beside.new ≡ beside_by (awaited_by table.now) beside.old (outcome_on (clinic_of (contents_at file.now head)) beside.old i own p other)) }
{
    fill_grants(file, head, sends, receives);
    step_in(
        file, head, sends, receives, table, words, beside, i, own, p, other,
    )
}

// A choice of thread i, `own`, with partner p, which is `other` where it is a thread; the words beside the list are changed in place. The table has what each node
// is reached with.
pub fn stepped(
    file: &[u8],
    head: Head,
    table: &[u64],
    beside: &mut [u16],
    i: u16,
    own: Thread,
    p: u16,
    other: Thread,
) -> Acted
    requires { Laid file.now head × (length beside.old ≡ beside_words) × (thread_count beside.old ≤ 64) × (made_count beside.old ≤ 64) × (p ≡ i → other ≡ own) }
    ensures { (result ≡ acted_of (outcome_on (clinic_of (contents_at file.now head)) beside.old i own p other))
        × (beside.new ≡ beside_by (awaited_by table.now) beside.old (outcome_on (clinic_of (contents_at file.now head)) beside.old i own p other)) }
{
    let mut sends = [0u16; 33];
    let mut receives = [0u16; 33];
    let mut words = [0u16; TABLE];
    step_with(
        file,
        head,
        &mut sends,
        &mut receives,
        table,
        &mut words,
        beside,
        i,
        own,
        p,
        other,
    )
}
