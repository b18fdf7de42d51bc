// The state of a run, kept in two tables: the threads, and the words beside them.
ghost use Rattle.std.specs.Prelude.{◌≡◌, [], ◌∷◌, ◌++◌, ◌+◌, ◌-◌, ◌≤◌, ◌<◌};
ghost use Rattle.steps.specs.Choice.{removed};
ghost use Rattle.steps.specs.Kept.{state_in, Sized};
ghost use Rattle.steps.specs.Beside.{thread_count, with_threads};

use steps::Thread;
use steps::beside::{set_threads, thread_count};
use steps::records::{close_gap, put_thread};

// A new last thread.
pub fn add_thread(threads: &mut [u16], beside: &mut [u16], t: Thread)
    requires { Sized threads.old beside.old × (thread_count beside.old < 64) }
    ensures { (state_in threads.exit.now beside.new ≡ record {
      threads = (state_in threads.entry.now beside.old).threads ++ (t ∷ []);
      made = (state_in threads.entry.now beside.old).made;
    })
        × (beside.new ≡ with_threads beside.old (thread_count beside.old + 1)) × Sized threads.exit.now beside.new }
{
    let n = thread_count(beside);
    put_thread(threads, usize::from(n), t);
    set_threads(beside, n + 1);
}

// A thread is removed.
pub fn remove_thread(threads: &mut [u16], beside: &mut [u16], i: u16)
    requires { Sized threads.old beside.old × (0 < i) × (i ≤ thread_count beside.old) }
    ensures { (state_in threads.new beside.new ≡ removed (state_in threads.old beside.old) i)
        × (beside.new ≡ with_threads beside.old (thread_count beside.old - 1)) × Sized threads.new beside.new }
{
    let n = thread_count(beside);
    close_gap(threads, usize::from(n), usize::from(i - 1));
    set_threads(beside, n - 1);
}
