// The check of a clinic file for a minute of the week: 22, then 1 to 8, 23, 9 and 10 together by node, then 11 to 13 and 24 by node.
#![tactic(auto)]

mod shut_on;

ghost use Rattle.std.specs.Prelude.{◌≡◌, ◌/◌, ◌≤◌, length};
ghost use Rattle.checking_at.specs.CheckAt.{sooner, opened_at, checking_at};

use checking::examine_opened;
use format::{Head, Verdict};
use hours::{rows_answer, shut, table_answer};
use reading::{open, with_head};
use shut_on::shut_on;

// The file's head, or the first of 1 to 8 and 23.
pub fn open_at(file: &[u8], hours: &[u16]) -> Result<Head, Verdict>
    requires { length hours.now / 3 ≤ 64 }
    ensures { result ≡ opened_at file.now hours.now }
{
    let head = open(file)?;
    with_head(head, rows_answer(hours, head.count.roles))
}

// Of two answers the one at the lower node, and at one node the first.
fn sooner(first: Verdict, second: Verdict) -> Verdict
    ensures { result ≡ sooner first second }
{
    if first.number == 0 {
        return second;
    }
    if second.number == 0 {
        return first;
    }
    if second.place < first.place {
        return second;
    }
    first
}

// The first of the refusals 22, 1 to 8, 23, 9 to 13 and 24.
pub fn check_at(file: &[u8], hours: &[u16], minute: u16) -> Verdict
    ensures { result ≡ checking_at file.now hours.now minute }
{
    let first = table_answer(hours, minute);
    if first.number != 0 {
        return first;
    }
    let mut roles = [0u16; 1025];
    let found = examine_opened(file, open_at(file, hours), &mut roles);
    match found.names {
        Err(first) => first,
        Ok(head) => sooner(found.roles, shut_on(file, head, shut(hours, minute))),
    }
}
