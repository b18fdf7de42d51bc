// Threads as words in a table, twelve each: eleven of the thread and one that is not used. So the place of a thread is a shift of three times its index.
ghost use Rattle.std.specs.Prelude.{◌≡◌, ◌+◌, ◌*◌, ◌-◌, ◌≤◌, ◌<◌, length, drop};
ghost use Rattle.std.proofs.Math.Seq.{paste};
ghost use Rattle.steps.specs.Records.{record_words, record_at, thread_in, stored};

use super::Thread;

// The words from one thread to the next, and of a table of 64 threads.
pub const RECORD: usize = 12;

pub const TABLE: usize = 768;

// The thread of an index, from 0 on.
pub fn thread_at(threads: &[u16], i: usize) -> Thread
    requires { record_at i + record_words ≤ length threads.now }
    ensures { result ≡ thread_in threads.now (record_at i) }
{
    let at = RECORD * i;
    let mut vars = [0; 8];
    for k in 0..8 {
        vars[k] = threads[at + 3 + k];
    }
    Thread {
        user: threads[at],
        node: threads[at + 1],
        mask: threads[at + 2],
        vars,
    }
}

// Another thread at an index.
pub fn put_thread(threads: &mut [u16], i: usize, t: Thread)
    requires { record_at i + record_words ≤ length threads.old }
    ensures { (threads.new ≡ stored threads.old (record_at i) t) × (length t.vars ≡ 8) }
{
    let at = RECORD * i;
    threads[at] = t.user;
    threads[at + 1] = t.node;
    threads[at + 2] = t.mask;
    for k in 0..8 {
        threads[at + 3 + k] = t.vars[k];
    }
}

// Of so many threads one is removed: those after it move down by one.
pub fn close_gap(threads: &mut [u16], count: usize, i: usize)
    requires { (i < count) × (record_at count ≤ length threads.old) }
    ensures { threads.new ≡ paste threads.old (record_at i) (drop (record_at i + record_words) threads.old) (record_at (count - 1) - record_at i) }
{
    let at = RECORD * i;
    threads.copy_within(at + RECORD..RECORD * count, at);
}
