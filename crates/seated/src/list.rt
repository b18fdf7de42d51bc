// A list of choices of a run with seats.
ghost use Rattle.std.specs.Prelude.{◌≡◌, ◌≤◌, length};
ghost use Rattle.format.specs.Header.{Laid};
ghost use Rattle.format.specs.Contents.{contents_at};
ghost use Rattle.rules.specs.Schema.{schema_of};
ghost use Rattle.rules.specs.Kept.{Granting};
ghost use Rattle.rules.specs.declared.Way.TheVariants.{Sends, Receives};
ghost use Rattle.naming.specs.Scopes.{awaited_by};
ghost use Rattle.seats.specs.Seats.{limited_of};
ghost use Rattle.seated.specs.SeatedTables.{seated_in, Seated, ChoseSeated};
ghost use Rattle.seated.specs.SeatedLists.{SeatedThrough};

use super::choice::choose_seated;
use super::{Sat, SeatedWent};
use format::Head;
use format::words::narrow;
use steps::beside::thread_count;

// The choices in order, two words each, up to the first that is refused. One that has to wait is done.
pub fn go_seated(
    file: &[u8],
    head: Head,
    sends: &[u16],
    receives: &[u16],
    table: &[u64],
    seats: &[u16],
    choices: &[u16],
    threads: &mut [u16],
    beside: &mut [u16],
    owners: &mut [u16],
    lines: &mut [u16],
) -> SeatedWent
    requires { Laid file.now head × Granting (schema_of (contents_at file.now head)) Sends sends.now × Granting (schema_of (contents_at file.now head)) Receives receives.now
        × (length seats.now ≤ 16) × (length choices.now ≤ 131070) × Seated (limited_of (contents_at file.now head) seats.now) threads.old beside.old owners.old lines.old }
    ensures { SeatedThrough (awaited_by table.now) (limited_of (contents_at file.now head) seats.now)
        (seated_in threads.old beside.old owners.old lines.old) beside.old choices.now result
        threads.new beside.new owners.new lines.new }
{
    let n = choices.len() / 2;
    let mut waited: u16 = 0;
    let mut last: u16 = 0;
    for k in 0..n {
        let i = choices[2 * k];
        let p = choices[2 * k + 1];
        let sat = choose_seated(
            file, head, sends, receives, table, seats, threads, beside, owners, lines, i, p,
        );
        match sat {
            Sat::Refused(refusal) => {
                return SeatedWent {
                    count: narrow(k),
                    refusal,
                    waited,
                    last,
                };
            }
            Sat::Waits => {
                waited += 1;
                last = 26;
            }
            Sat::Ends => {
                last = 0;
            }
            Sat::Steps => {
                last = 0;
            }
        }
    }
    SeatedWent {
        count: narrow(n),
        refusal: 0,
        waited,
        last,
    }
}

// One choice by itself, as a list of one, so that `choose_seated` has one caller and is compiled into the loop.
pub fn choose_one(
    file: &[u8],
    head: Head,
    sends: &[u16],
    receives: &[u16],
    table: &[u64],
    seats: &[u16],
    threads: &mut [u16],
    beside: &mut [u16],
    owners: &mut [u16],
    lines: &mut [u16],
    i: u16,
    p: u16,
) -> Sat
    requires { Laid file.now head × Granting (schema_of (contents_at file.now head)) Sends sends.now × Granting (schema_of (contents_at file.now head)) Receives receives.now
        × (length seats.now ≤ 16) × Seated (limited_of (contents_at file.now head) seats.now) threads.old beside.old owners.old lines.old }
    ensures { ChoseSeated (awaited_by table.now) (limited_of (contents_at file.now head) seats.now) i p result
        threads.old beside.old owners.old lines.old threads.new beside.new owners.new lines.new }
{
    let count = thread_count(beside);
    let list = [i, p];
    let went = go_seated(
        file, head, sends, receives, table, seats, &list, threads, beside, owners, lines,
    );
    if went.refusal != 0 {
        return Sat::Refused(went.refusal);
    }
    if went.waited != 0 {
        return Sat::Waits;
    }
    if thread_count(beside) < count {
        return Sat::Ends;
    }
    Sat::Steps
}
