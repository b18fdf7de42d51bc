// The output of a run: choices done, the refusal, and the state.
ghost use Rattle.std.specs.Prelude.{◌≡◌, [], ◌∷◌, ◌+◌, ◌*◌, ◌≤◌, length};
ghost use Rattle.std.proofs.lemmas.List.Edits.{sets};
ghost use Rattle.format.specs.Words.{bytes_of};
ghost use Rattle.running.specs.Run.{thread_words, ran_words};
ghost use Rattle.steps.specs.Kept.{state_in, Sized};
ghost use Rattle.steps.specs.Records.{threads_in, thread_table_words};
ghost use Rattle.steps.specs.Beside.{made_to, beside_words, made_words};

use choices::Progress;
use format::words::put_word;
use masks::role_count;
use steps::Thread;
use steps::beside::{made_at, made_count, thread_count};
use steps::records::thread_at;

// Two words: a made channel's owner and kind.
fn put_two(out: &mut [u8], at: usize, first: u16, second: u16)
    requires { 2 * at + 4 ≤ length out.old }
    ensures { out.new ≡ sets out.old (2 * at) (bytes_of (first ∷ second ∷ [])) }
{
    put_word(out, at, first);
    put_word(out, at + 1, second);
}

// Four words.
fn put_four(out: &mut [u8], at: usize, first: u16, second: u16, third: u16, fourth: u16)
    requires { 2 * at + 8 ≤ length out.old }
    ensures { out.new ≡ sets out.old (2 * at) (bytes_of (first ∷ second ∷ third ∷ fourth ∷ [])) }
{
    put_two(out, at, first, second);
    put_two(out, at + 2, third, fourth);
}

// A thread: user, node, mask, the number of roles it holds, its eight variables.
fn put_thread(out: &mut [u8], at: usize, it: Thread)
    requires { 2 * at + 24 ≤ length out.old }
    ensures { out.new ≡ sets out.old (2 * at) (bytes_of (thread_words (it ∷ []))) }
{
    let vars = it.vars;
    put_four(out, at, it.user, it.node, it.mask, role_count(it.mask));
    put_four(out, at + 4, vars[0], vars[1], vars[2], vars[3]);
    put_four(out, at + 8, vars[4], vars[5], vars[6], vars[7]);
}

// The made channels, after the first four words.
fn put_made(beside: &[u16], made: usize, out: &mut [u8])
    requires { (made ≤ 64) × (length beside.now ≡ beside_words) × (1800 ≤ length out.old) }
    ensures { out.new ≡ sets out.old 8 (bytes_of (made_words (made_to beside.now made))) }
{
    for i in 0..made {
        let it = made_at(beside, i);
        put_two(out, 4 + 2 * i, it.owner, it.kind.0);
    }
}

// The threads, from a place on.
fn put_threads(threads: &[u16], count: usize, out: &mut [u8], base: usize)
    requires { (count ≤ 64) × (length threads.now ≡ thread_table_words) × (2 * (base + 12 * count) ≤ length out.old) }
    ensures { out.new ≡ sets out.old (2 * base) (bytes_of (thread_words (threads_in threads.now 0 count))) }
{
    for i in 0..count {
        put_thread(out, base + 12 * i, thread_at(threads, i));
    }
}

// Choices done, refusal, threads, made channels; then the made channels and the threads. Every other byte stays.
pub fn put_state(threads: &[u16], beside: &[u16], progress: Progress, out: &mut [u8])
    requires { Sized threads.now beside.now × (1800 ≤ length out.old) }
    ensures { out.new ≡ sets out.old 0 (bytes_of (ran_words (record {
      count = progress.count;
      refusal = progress.refusal;
      state = state_in threads.now beside.now;
    }))) }
{
    let count = thread_count(beside);
    let made = made_count(beside);
    put_four(out, 0, progress.count, progress.refusal, count, made);
    put_made(beside, usize::from(made), out);
    put_threads(threads, usize::from(count), out, 4 + 2 * usize::from(made));
}
