// Which of two lent notices is in force on a day. A notice: one word with its first day of validity, one word with the file's length in bytes, then the file.
#![tactic(auto)]

ghost use Rattle.std.specs.Prelude.{◌≡◌};
ghost use Rattle.notices.specs.Notices.{is_sound, second_holds, unheld, held, plan_in_force, part_of, place_of};

use checking::read_names;
use format::words::word;

// What a caller gets: a refusal's number and place, or 0 and 0; and the part that is handed back: of which notice (1 or 2), at which byte of it, how many bytes.
#[repr(C)]
#[derive(Clone, Copy)]
pub struct InForce {
    pub number: u16,
    pub place: u16,
    pub notice: u16,
    pub at: u16,
    pub length: u16,
}

// Whether the length word is the number of bytes after it, and 1 to 10 refuse nothing of the file. A word past the end counts as 0, so that a notice under 4 bytes has
// another length than its word says.
fn is_sound(notice: &[u8]) -> bool
    ensures { result ≡ is_sound notice.now }
{
    if notice.len() != 4 + usize::from(word(notice, 1)) {
        return false;
    }
    let verdict = read_names(&notice[4..]);
    verdict.number == 0
}

// Whether the second of two sound notices is in force, by their first days.
fn second_holds(first: u16, second: u16, day: u16) -> bool
    ensures { result ≡ second_holds first second day }
{
    (second <= day) & ((day < first) | (first <= second))
}

// A refusal, with the empty part of the first notice.
fn refuse(number: u16, place: u16) -> InForce
    ensures { result ≡ unheld number place }
{
    InForce {
        number,
        place,
        notice: 1,
        at: 0,
        length: 0,
    }
}

// The file of a notice.
fn hold(notice: u16, length: u16) -> InForce
    ensures { result ≡ held notice length }
{
    InForce {
        number: 0,
        place: 0,
        notice,
        at: 4,
        length,
    }
}

// The plan in force: 27 at 1, then at 2, before any look at the days; then the file of the notice that supersedes; 28 where neither has begun.
pub fn plan_in_force(first: &[u8], second: &[u8], day: u16) -> InForce
    ensures { result ≡ plan_in_force first.now second.now day }
{
    if !is_sound(first) {
        return refuse(27, 1);
    }
    if !is_sound(second) {
        return refuse(27, 2);
    }
    let from = word(first, 0);
    if second_holds(from, word(second, 0), day) {
        return hold(2, word(second, 1));
    }
    if from <= day {
        return hold(1, word(first, 1));
    }
    refuse(28, 0)
}

// That file, as a part of whichever notice holds it; on a refusal the empty part at the start of the first.
pub fn in_force<'a>(first: &'a [u8], second: &'a [u8], day: u16) -> &'a [u8]
    ensures { (result.now ≡ part_of (plan_in_force first.now second.now day) first.now second.now)
        × (result.ref_ptr ≡ place_of (plan_in_force first.now second.now day) first.entry.ref_ptr second.entry.ref_ptr) }
{
    let plan = plan_in_force(first, second, day);
    let at = usize::from(plan.at);
    let end = at + usize::from(plan.length);
    if plan.notice == 2 {
        return &second[at..end];
    }
    &first[at..end]
}
