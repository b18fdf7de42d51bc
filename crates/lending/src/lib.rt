// The live desk's own list of threads: what lets a list through, the judging of its records, one choice in it and its start. The list is a slice of
// records; what is here takes and gives back its records by value.
#![tactic(auto)]

pub mod judging;
pub mod starting;
pub mod stepping;
pub mod storing;

ghost use Rattle.std.specs.Prelude.{◌≡◌, length, replicate};
ghost use Rattle.format.specs.Answers.{refused};
ghost use Rattle.lending.specs.Lent.{sizes_fit};
ghost use Rattle.lending.specs.Walk.{admitted, Admits, index_of, answer_of};

use checking::enter_scoped;
use format::sections::in_count;
use format::{Head, Verdict};
use judging::made_fit;
use steps::beside::{BESIDE, made_count, thread_count};
use steps::{Acted, Answer};

// What judging the records one by one has come to: whether all so far are as their nodes ask, and how many of them wait for each kind.
#[derive(Clone, Copy)]
pub struct Tally {
    pub fits: bool,
    pub totals: [u16; 32],
}

// The sizes are right: so many records, the words beside them, counts of at most 64.
fn sizes_fit(records: usize, beside: &[u16]) -> bool
    ensures { result ≡ sizes_fit records beside.now }
{
    let words = beside.len() == BESIDE;
    words & ((records == 64) & (thread_count(beside) <= 64) & (made_count(beside) <= 64))
}

// What is lent may not be.
pub fn unlendable() -> Verdict
    ensures { result ≡ refused 18 0 }
{
    Verdict {
        number: 18,
        place: 0,
    }
}

// A file and a list of so many records with the words beside it, before the records are judged: the file's head, and in the table what each node is
// reached with; or the first of 1 to 10, and then 18 at place 0 for wrong sizes and made channels.
pub fn admit(
    file: &[u8],
    records: usize,
    beside: &[u16],
    table: &mut [u64],
) -> Result<Head, Verdict>
    requires { (length table.old ≡ 1025) × (table.old ≡ replicate (length table.old) 0) }
    ensures { (result ≡ admitted file.now records beside.now) × (length table.new ≡ 1025)
        × Admits file.now records beside.now table.new result }
{
    let head = enter_scoped(file, table)?;
    if !sizes_fit(records, beside) {
        return Err(unlendable());
    }
    if !made_fit(head, beside) {
        return Err(unlendable());
    }
    Ok(head)
}

// Where the record of a thread stands; the first for no thread.
pub fn index_of(count: u16, i: u16) -> usize
    ensures { result ≡ index_of count i }
{
    if in_count(count, i) {
        return usize::from(i - 1);
    }
    0
}

// The answer of a choice, which has place 1.
pub fn answer_of(it: Acted) -> Verdict
    ensures { result ≡ answer_of it.answer }
{
    match it.answer {
        Answer::Refused(number) => Verdict { number, place: 1 },
        _ => Verdict::FINE,
    }
}
