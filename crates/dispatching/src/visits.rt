// The visits of a round, in the tables that keep the state.
ghost use Rattle.std.specs.Prelude.{◌≡◌, false, cond, not, ◌&&◌, [], ◌∷◌, ◌++◌, suc, ◌+◌, ◌*◌, ◌-◌, ◌/◌, ◌≤◌, ◌<◌, eqb, length, set, replicate};
ghost use Rattle.format.specs.Header.{Laid};
ghost use Rattle.format.specs.Contents.{contents_at};
ghost use Rattle.masks.specs.Mask.{has};
ghost use Rattle.rules.specs.Schema.{schema_of};
ghost use Rattle.rules.specs.Kept.{Granting};
ghost use Rattle.rules.specs.declared.Way.TheVariants.{Sends, Receives};
ghost use Rattle.steps.specs.Choice.{clinic_of};
ghost use Rattle.steps.specs.Kept.{state_in, Sized};
ghost use Rattle.steps.specs.Records.{thread_in, record_at};
ghost use Rattle.steps.specs.Beside.{thread_count, made_of};
ghost use Rattle.running.specs.Ways.{in_of};
ghost use Rattle.rounds.specs.Round.{receiver_for, meeting_with, going, visit};
ghost use Rattle.dispatching.specs.Dispatch.{threads_of, comes_to, round_of};
ghost use Rattle.dispatching.specs.Marks.{marks_from};
ghost use Rattle.dispatching.specs.Visits.{VisitTold, HandedBack};

use super::Visit;
use super::marks::{close_up, has_moved, with_moved};
use choices::list::go_through;
use format::Head;
use format::sections::node_tag;
use format::words::narrow;
use running::pairs::{receives_over, sends_on};
use steps::Answer;
use steps::beside::thread_count;
use steps::records::thread_at;

// Whether thread p has not moved, and may receive on what is sent on.
fn is_free(
    file: &[u8],
    head: Head,
    receives: &[u16],
    threads: &[u16],
    beside: &[u16],
    over: u16,
    moved: u64,
    p: u16,
) -> bool
    requires { Laid file.now head × Granting (schema_of (contents_at file.now head)) Receives receives.now × Sized threads.now beside.now × (0 < p) × (p ≤ 64) × (over ≡ 0 → ⊥) }
    ensures { result ≡ (not (has moved p) && eqb over (in_of (clinic_of (contents_at file.now head)) (made_of beside.now) (thread_in threads.now (record_at (p - 1))))) }
{
    if has_moved(moved, p) {
        return false;
    }
    let t = thread_at(threads, usize::from(p - 1));
    receives_over(file, head, receives, beside, t, over)
}

// The first of the threads present from the round's start that has not moved and that thread i can meet, 0 if there is none.
pub fn receiver_for(
    file: &[u8],
    head: Head,
    sends: &[u16],
    receives: &[u16],
    threads: &[u16],
    beside: &[u16],
    i: u16,
    there: u16,
    moved: u64,
) -> u16
    requires { Laid file.now head × Granting (schema_of (contents_at file.now head)) Sends sends.now × Granting (schema_of (contents_at file.now head)) Receives receives.now × Sized threads.now beside.now
        × (0 < i) × (i ≤ thread_count beside.now) × (there ≤ thread_count beside.now) }
    ensures { result ≡ receiver_for threads_of (comes_to (clinic_of (contents_at file.now head))) (state_in threads.now beside.now) i 1 (marks_from 1 there moved) }
{
    let own = thread_at(threads, usize::from(i - 1));
    let over = sends_on(file, head, sends, beside, own);
    if over == 0 {
        return 0;
    }
    for p in 1..=there {
        if is_free(file, head, receives, threads, beside, over, moved, p) {
            return p;
        }
    }
    0
}

// The tag of the node at which thread i stands, 0 at none.
fn tag_at(file: &[u8], head: Head, threads: &[u16], i: u16) -> u16
    requires { Laid file.now head × (0 < i) × (record_at i ≤ length threads.now) }
    ensures { result ≡ ((clinic_of (contents_at file.now head)).node (thread_in threads.now (record_at (i - 1))).node).tag }
{
    let own = thread_at(threads, usize::from(i - 1));
    node_tag(file, head, own.node)
}

// A visit of thread i that does nothing.
fn pass_by(i: u16, there: u16, moved: u64) -> Visit
    requires { i < 65535 }
    ensures { result ≡ record { is_done = false; partner = 0; next = i + 1; present = there; moved = moved } }
{
    Visit {
        is_done: false,
        partner: 0,
        next: i + 1,
        present: there,
        moved,
    }
}

// The visit of a thread at a send: it meets the first receiver that it can meet, or does nothing.
fn meet(
    file: &[u8],
    head: Head,
    sends: &[u16],
    receives: &[u16],
    table: &[u64],
    threads: &mut [u16],
    beside: &mut [u16],
    i: u16,
    there: u16,
    moved: u64,
) -> Visit
    requires { Laid file.now head × Granting (schema_of (contents_at file.now head)) Sends sends.now × Granting (schema_of (contents_at file.now head)) Receives receives.now × Sized threads.old beside.old
        × (0 < i) × (i ≤ there) × (there ≤ thread_count beside.old) }
    ensures { VisitTold (going threads_of (comes_to (clinic_of (contents_at file.now head))) (state_in threads.old beside.old) (i - 1) (marks_from 1 there moved)
        (meeting_with threads_of (comes_to (clinic_of (contents_at file.now head))) (state_in threads.old beside.old) i
        (receiver_for threads_of (comes_to (clinic_of (contents_at file.now head))) (state_in threads.old beside.old) i 1 (marks_from 1 there moved))))
        i there result threads.new beside.new }
{
    let p = receiver_for(
        file, head, sends, receives, threads, beside, i, there, moved,
    );
    if p == 0 {
        return pass_by(i, there, moved);
    }
    let list = [i, p];
    go_through(file, head, sends, receives, table, &list, threads, beside);
    Visit {
        is_done: true,
        partner: p,
        next: i + 1,
        present: there,
        moved: with_moved(with_moved(moved, p), i),
    }
}

// The visit of thread i: its lone step if that is not refused, else a meeting. A thread at a send or a receive has no lone step, and one that is not at a
// send meets nobody of itself.
fn visit(
    file: &[u8],
    head: Head,
    sends: &[u16],
    receives: &[u16],
    table: &[u64],
    threads: &mut [u16],
    beside: &mut [u16],
    i: u16,
    there: u16,
    moved: u64,
) -> Visit
    requires { Laid file.now head × Granting (schema_of (contents_at file.now head)) Sends sends.now × Granting (schema_of (contents_at file.now head)) Receives receives.now × Sized threads.old beside.old
        × (0 < i) × (i ≤ there) × (there ≤ thread_count beside.old) }
    ensures { VisitTold (visit threads_of (comes_to (clinic_of (contents_at file.now head))) (state_in threads.old beside.old) (i - 1) (marks_from 1 there moved))
        i there result threads.new beside.new }
{
    let tag = tag_at(file, head, threads, i);
    if tag == 6 {
        return meet(
            file, head, sends, receives, table, threads, beside, i, there, moved,
        );
    }
    if tag == 5 {
        return pass_by(i, there, moved);
    }
    let list = [i, 0u16];
    let went = go_through(file, head, sends, receives, table, &list, threads, beside);
    let answer = went.last;
    match answer {
        Answer::Refused(_) => pass_by(i, there, moved),
        Answer::Ends => Visit {
            is_done: true,
            partner: 0,
            next: i,
            present: there - 1,
            moved: close_up(moved, i),
        },
        _ => Visit {
            is_done: true,
            partner: 0,
            next: i + 1,
            present: there,
            moved: with_moved(moved, i),
        },
    }
}

// The choice that a visit of thread i added to the round, after n others. How many there are then.
pub fn put_choice(words: &mut [u16], n: usize, i: u16, seen: Visit) -> usize
    requires { 2 * n + 2 ≤ length words.old }
    ensures { (result ≡ cond seen.is_done (n + 1) n) × (words.new ≡ cond seen.is_done (set (set words.old (2 * n) i) (2 * n + 1) seen.partner) words.old) }
{
    if seen.is_done {
        words[2 * n] = i;
        words[2 * n + 1] = seen.partner;
        return n + 1;
    }
    n
}

// A round: its choices, two words each, and how many there are.
pub fn go_round(
    file: &[u8],
    head: Head,
    sends: &[u16],
    receives: &[u16],
    table: &[u64],
    threads: &mut [u16],
    beside: &mut [u16],
    words: &mut [u16],
) -> u16
    requires { Laid file.now head × Granting (schema_of (contents_at file.now head)) Sends sends.now × Granting (schema_of (contents_at file.now head)) Receives receives.now × Sized threads.old beside.old
        × (words.old ≡ replicate 128 0) }
    ensures { HandedBack (round_of (clinic_of (contents_at file.now head)) (state_in threads.old beside.old)) result threads.new beside.new words.new }
{
    let mut i: u16 = 1;
    let mut there = thread_count(beside);
    let mut moved: u64 = 0;
    let mut n: usize = 0;
    while i <= there {
        let seen = visit(
            file, head, sends, receives, table, threads, beside, i, there, moved,
        );
        n = put_choice(words, n, i, seen);
        i = seen.next;
        there = seen.present;
        moved = seen.moved;
    }
    narrow(n)
}
