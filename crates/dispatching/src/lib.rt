// Dispatching: a round asked for after a run's choices.
#![tactic(auto)]

pub mod marks;
pub mod visits;

ghost use Rattle.std.specs.Prelude.{◌≡◌, cond, [], ◌+◌, ◌*◌, ◌/◌, ◌≤◌, ◌<◌, eqb, length, replicate};
ghost use Rattle.std.proofs.lemmas.List.Edits.{sets};
ghost use Rattle.format.specs.Words.{bytes_of};
ghost use Rattle.format.specs.Header.{Laid};
ghost use Rattle.format.specs.Contents.{contents_at};
ghost use Rattle.rules.specs.Schema.{schema_of};
ghost use Rattle.rules.specs.Kept.{Granting};
ghost use Rattle.rules.specs.declared.Way.TheVariants.{Sends, Receives};
ghost use Rattle.steps.specs.Choice.{clinic_of};
ghost use Rattle.steps.specs.Kept.{state_in, Sized};
ghost use Rattle.steps.specs.Beside.{thread_count, made_count};
ghost use Rattle.choices.specs.Choices.{start, run};
ghost use Rattle.running.specs.Run.{ran_words};
ghost use Rattle.dispatching.specs.Dispatch.{round_by, after_list, both_by, round_listed, round_answer, no_round, rounding, round_over};
ghost use Rattle.dispatching.specs.Visits.{HandedBack};

use checking::enter;
use choices::Progress;
use choices::list::{go_through, open_run};
use format::{Head, Verdict};
use running::out::put_state;
use running::stopped_at;
use steps::beside::{BESIDE, made_count, thread_count};
use steps::records::TABLE;
use visits::go_round;

// A visit: whether it added a choice to the round, and with which partner; the thread that is visited next; how many threads are present from the
// round's start, and which of them have moved.
#[derive(Clone, Copy)]
pub struct Visit {
    pub is_done: bool,
    pub partner: u16,
    pub next: u16,
    pub present: u16,
    pub moved: u64,
}

// The answer of the run through the input's choices and then the round's, the bytes of its output, and the round's choices, 0 past the last.
#[repr(C)]
#[derive(Clone, Copy)]
pub struct Round {
    pub number: u16,
    pub place: u16,
    pub length: u16,
    pub words: [u16; 128],
}

// Not 17: an even number of words of choices, and at most 65,471 choices.
pub fn is_listed_for_round(words: usize) -> bool
    ensures { result ≡ round_listed words }
{
    (words % 2 == 0) & (words <= 130942)
}

// A refusal in place of a round.
pub fn no_round(verdict: Verdict) -> Round
    ensures { result ≡ no_round verdict }
{
    Round {
        number: verdict.number,
        place: verdict.place,
        length: 0,
        words: [0; 128],
    }
}

// The bytes of an output: four words, two for each made channel, twelve for each thread.
pub fn output_length(beside: &[u16]) -> u16
    requires { (thread_count beside.now ≤ 64) × (made_count beside.now ≤ 64) }
    ensures { result ≡ 8 + 4 * made_count beside.now + 24 * thread_count beside.now }
{
    8 + 4 * made_count(beside) + 24 * thread_count(beside)
}

// The round after a run, and how many choices it has: none where the run was stopped.
fn add_round(
    file: &[u8],
    head: Head,
    sends: &[u16],
    receives: &[u16],
    table: &[u64],
    refusal: u16,
    threads: &mut [u16],
    beside: &mut [u16],
    words: &mut [u16],
) -> u16
    requires { Laid file.now head × Granting (schema_of (contents_at file.now head)) Sends sends.now × Granting (schema_of (contents_at file.now head)) Receives receives.now × Sized threads.old beside.old
        × (words.old ≡ replicate 128 0) }
    ensures { HandedBack (round_by (clinic_of (contents_at file.now head)) refusal (state_in threads.old beside.old)) result
        threads.new beside.new words.new }
{
    if refusal != 0 {
        return 0;
    }
    go_round(file, head, sends, receives, table, threads, beside, words)
}

// The round of a file that 1 to 10 leave clean, and the output. Nobody reads the totals of its state: the table that they go by is left empty.
fn round_into(file: &[u8], head: Head, choices: &[u16], out: &mut [u8]) -> Round
    requires { Laid file.now head × (length choices.now ≤ 130942) × (1800 ≤ length out.old) }
    ensures { (result ≡ round_answer (both_by (contents_at file.now head) choices.now) (after_list (contents_at file.now head) choices.now).words)
        × (out.new ≡ sets out.old 0 (bytes_of (ran_words (both_by (contents_at file.now head) choices.now)))) }
{
    let mut sends = [0u16; 33];
    let mut receives = [0u16; 33];
    let mut threads = [0u16; TABLE];
    let mut beside = [0u16; BESIDE];
    let mut words = [0u16; 128];
    let table = [0u64; 0];
    open_run(
        file,
        head,
        &mut sends,
        &mut receives,
        &table,
        &mut threads,
        &mut beside,
    );
    let own = go_through(
        file,
        head,
        &sends,
        &receives,
        &table,
        choices,
        &mut threads,
        &mut beside,
    );
    let more = add_round(
        file,
        head,
        &sends,
        &receives,
        &table,
        own.refusal,
        &mut threads,
        &mut beside,
        &mut words,
    );
    let both = Progress {
        count: own.count + more,
        refusal: own.refusal,
    };
    put_state(&threads, &beside, both, out);
    let verdict = stopped_at(both);
    Round {
        number: verdict.number,
        place: verdict.place,
        length: output_length(&beside),
        words,
    }
}

// The round after a list of choices, and the output of the run through both.
pub fn round_after(file: &[u8], choices: &[u16], out: &mut [u8]) -> Round
    ensures { (result ≡ rounding file.now choices.now (length out.old))
        × (out.new ≡ round_over file.now choices.now out.old) }
{
    if !(is_listed_for_round(choices.len()) & (1800 <= out.len())) {
        return no_round(Verdict {
            number: 17,
            place: 0,
        });
    }
    let answer = enter(file);
    match answer {
        Err(first) => no_round(first),
        Ok(head) => round_into(file, head, choices, out),
    }
}
