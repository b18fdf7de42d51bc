// The ready pair of a state.
ghost use Rattle.std.specs.Prelude.{◌≡◌, cond, not, ◌&&◌, ◌≤◌, eqb, length, get_or};
ghost use Rattle.std.specs.Int.Bits.{bit_and};
ghost use Rattle.format.specs.Header.{Laid};
ghost use Rattle.format.specs.Contents.{contents_at};
ghost use Rattle.rules.specs.Schema.{schema_of};
ghost use Rattle.rules.specs.Kept.{Granting};
ghost use Rattle.rules.specs.declared.Way.{Way};
ghost use Rattle.rules.specs.declared.Way.TheVariants.{Sends, Receives};
ghost use Rattle.steps.specs.Threads.{value};
ghost use Rattle.steps.specs.Choice.{clinic_of, kind_held};
ghost use Rattle.running.specs.Run.{ready_pair};
ghost use Rattle.running.specs.Ways.{works_on, out_of, in_of, OfEach, stands_in};
ghost use Rattle.steps.specs.Kept.{state_in, Sized};
ghost use Rattle.steps.specs.Beside.{thread_count, made_count, made_of, beside_words};

use super::Two;
use format::sections::node;
use format::words::narrow;
use format::{Head, Node};
use rules::grants::may;
use steps::Thread;
use steps::act::kind_held;
use steps::beside::thread_count;
use steps::records::thread_at;

// What an operand stands for, where a role that the thread holds permits the step by the table of grants; 0 where not.
fn works_on(file: &[u8], head: Head, table: &[u16], beside: &[u16], t: Thread, x: u16) -> u16
    requires { Laid file.now head × (length beside.now ≡ beside_words) × (made_count beside.now ≤ 64) }
    ensures { result ≡ cond (not (eqb (bit_and t.mask (get_or table.now (kind_held (schema_of (contents_at file.now head)) (made_of beside.now) (value t x)) 0)) 0)) (value t x) 0 }
{
    let over = t.value(x);
    if may(table, t.mask, kind_held(file, head, beside, over)) {
        return over;
    }
    0
}

// What a thread at a node may send on, or receive on: where the node has the way's tag, by the grants of that way.
fn way_at(
    file: &[u8],
    head: Head,
    tag: u16,
    table: &[u16],
    beside: &[u16],
    t: Thread,
    it: Node,
) -> u16
    ghost way: { Way }
    requires { Laid file.now head × Granting (schema_of (contents_at file.now head)) way table.now × (length beside.now ≡ beside_words) × (made_count beside.now ≤ 64) }
    ensures { result ≡ cond (eqb it.tag tag) (works_on (clinic_of (contents_at file.now head)) (made_of beside.now) way t it.f1) 0 }
{
    if it.tag != tag {
        return 0;
    }
    works_on(file, head, table, beside, t, it.f1)
}

// What a thread may send on now.
pub fn sends_on(file: &[u8], head: Head, sends: &[u16], beside: &[u16], t: Thread) -> u16
    requires { Laid file.now head × Granting (schema_of (contents_at file.now head)) Sends sends.now × (length beside.now ≡ beside_words) × (made_count beside.now ≤ 64) }
    ensures { result ≡ out_of (clinic_of (contents_at file.now head)) (made_of beside.now) t }
{
    let it = node(file, head, t.node);
    way_at(file, head, 6, sends, beside, t, it)
}

// Whether a thread may receive on a value now. Most threads are told apart by the value, before any grant is asked for.
pub fn receives_over(
    file: &[u8],
    head: Head,
    receives: &[u16],
    beside: &[u16],
    t: Thread,
    over: u16,
) -> bool
    requires { Laid file.now head × Granting (schema_of (contents_at file.now head)) Receives receives.now × (length beside.now ≡ beside_words) × (made_count beside.now ≤ 64) × (over ≡ 0 → ⊥) }
    ensures { result ≡ eqb over (in_of (clinic_of (contents_at file.now head)) (made_of beside.now) t) }
{
    let it = node(file, head, t.node);
    if it.tag != 5 {
        return false;
    }
    if t.value(it.f1) != over {
        return false;
    }
    may(receives, t.mask, kind_held(file, head, beside, over))
}

// For each thread what it may send on now, and what it may receive on.
fn fill_ways(
    file: &[u8],
    head: Head,
    sends: &[u16],
    receives: &[u16],
    threads: &[u16],
    beside: &[u16],
    outs: &mut [u16],
    ins: &mut [u16],
)
    requires { Laid file.now head × Granting (schema_of (contents_at file.now head)) Sends sends.now × Granting (schema_of (contents_at file.now head)) Receives receives.now × Sized threads.now beside.now × (length outs.old ≡ 64) × (length ins.old ≡ 64) }
    ensures { OfEach (out_of (clinic_of (contents_at file.now head)) (made_of beside.now)) threads.now (thread_count beside.now) outs.new
        × OfEach (in_of (clinic_of (contents_at file.now head)) (made_of beside.now)) threads.now (thread_count beside.now) ins.new }
{
    let count = usize::from(thread_count(beside));
    for i in 0..count {
        let t = thread_at(threads, i);
        let it = node(file, head, t.node);
        let out = way_at(file, head, 6, sends, beside, t, it);
        let at = way_at(file, head, 5, receives, beside, t, it);
        outs[i] = out;
        ins[i] = at;
    }
}

// Whether a word stands in a table of 64. No branch: all are looked at, many at a time.
fn stands_in(table: &[u16], x: u16) -> bool
    requires { length table.now ≡ 64 }
    ensures { result ≡ stands_in x table.now }
{
    let mut found: u16 = 0;
    for k in 0..64 {
        found |= (table[k] == x) as u16;
    }
    found != 0
}

// How many of the threads a sender need not try: all where it sends on nothing, or on what no thread receives on; else none.
fn left_out(ins: &[u16], over: u16, count: usize) -> usize
    requires { length ins.now ≡ 64 }
    ensures { result ≡ cond (not (eqb over 0) && stands_in over ins.now) 0 count }
{
    if over == 0 {
        return count;
    }
    if stands_in(ins, over) {
        return 0;
    }
    count
}

// The lowest sender, then the lowest receiver that can meet it; a sender without one is passed over. Two threads can meet exactly where the one may
// send on what the other may receive on, so that a pair is one comparison.
pub fn ready_pair(
    file: &[u8],
    head: Head,
    sends: &[u16],
    receives: &[u16],
    threads: &[u16],
    beside: &[u16],
) -> Two
    requires { Laid file.now head × Granting (schema_of (contents_at file.now head)) Sends sends.now × Granting (schema_of (contents_at file.now head)) Receives receives.now × Sized threads.now beside.now }
    ensures { result ≡ record {
      sender = (ready_pair (clinic_of (contents_at file.now head)) (state_in threads.now beside.now)).0;
      receiver = (ready_pair (clinic_of (contents_at file.now head)) (state_in threads.now beside.now)).1;
    } }
{
    let mut outs = [0u16; 64];
    let mut ins = [0u16; 64];
    fill_ways(
        file, head, sends, receives, threads, beside, &mut outs, &mut ins,
    );
    let count = usize::from(thread_count(beside));
    let mut sender: u16 = 0;
    let mut receiver: u16 = 0;
    'senders: for i in 0..count {
        let over = outs[i];
        for j in left_out(&ins, over, count)..count {
            if ins[j] == over {
                sender = narrow(i + 1);
                receiver = narrow(j + 1);
                break 'senders;
            }
        }
    }
    Two { sender, receiver }
}
