// Everything that is decided before anything is written.
ghost use Rattle.std.specs.Prelude.{◌≡◌, length};
ghost use Rattle.format.specs.Header.{Laid};
ghost use Rattle.format.specs.Contents.{contents_at};
ghost use Rattle.states.specs.States.{turns_of};
ghost use Rattle.placing.specs.Placing.{labels_from, placeable_by, settling, decided, Settled};

use super::bare::bare;
use super::served::unserved;
use format::{Head, Verdict};
use groups::{Sums, starts as put_starts};
use states::turns as put_turns;

// 15 and 16, or the sums, with each node's roles at its number; each node's turn, and where its group starts.
fn settle(
    file: &[u8],
    head: Head,
    roles: &[u16],
    turns: &mut [u16],
    starts: &mut [u16],
) -> Result<Sums, Verdict>
    requires { Laid file.now head × (length roles.now ≡ 1025) × (length turns.old ≡ 1025) × (length starts.old ≡ 1025) }
    ensures { (result ≡ decided (settling (labels_from (contents_at file.now head) roles.now)) (turns_of (labels_from (contents_at file.now head) roles.now)))
        × Settled result (turns_of (labels_from (contents_at file.now head) roles.now)) turns.old turns.new starts.old starts.new }
{
    let first = unserved(file, head, roles);
    if first.number != 0 {
        return Err(first);
    }
    put_turns(file, head, roles, turns);
    let sums = put_starts(turns, head.count.nodes, starts);
    if 1024 < sums.nodes {
        return Err(Verdict {
            number: 16,
            place: 0,
        });
    }
    Ok(sums)
}

// 14 to 16, or the sums, with each node's roles at its number.
pub fn decide(
    file: &[u8],
    head: Head,
    roles: &[u16],
    turns: &mut [u16],
    starts: &mut [u16],
) -> Result<Sums, Verdict>
    requires { Laid file.now head × (length roles.now ≡ 1025) × (length turns.old ≡ 1025) × (length starts.old ≡ 1025) }
    ensures { (result ≡ decided (placeable_by (contents_at file.now head) (labels_from (contents_at file.now head) roles.now)) (turns_of (labels_from (contents_at file.now head) roles.now)))
        × Settled result (turns_of (labels_from (contents_at file.now head) roles.now)) turns.old turns.new starts.old starts.new }
{
    let first = bare(file, head);
    if first.number != 0 {
        return Err(first);
    }
    settle(file, head, roles, turns, starts)
}
