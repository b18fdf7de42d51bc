// The most on steps in one session. Its nodes stand from its root up to the next session's, so that no tag is read and the on steps are counted without branches.
ghost use Rattle.std.specs.Prelude.{◌≡◌, map, ◌+◌, ◌-◌, ◌≤◌, max, length, take, drop, Ok};
ghost use Rattle.format.specs.Header.{Laid};
ghost use Rattle.format.specs.Contents.{contents_at};
ghost use Rattle.checking.specs.Check.{entered};
ghost use Rattle.states.specs.States.{unpacked};
ghost use Rattle.groups.specs.Groups.{on_of, ons_of, turns_in};
ghost use Rattle.sheets.specs.Entries.{most_from, end_by};

use format::Head;
use format::sections::session;

// The on steps before a node, by its turn.
fn on_before(turn: u16) -> u16
    ensures { (result ≡ on_of (unpacked turn)) × (result ≤ 1) }
{
    let from = turn % 256;
    let to = turn / 256;
    ((from != to) & (to != 0)) as u16
}

// The on steps of the nodes from one up to another, which is not among them; each node's turn stands at its number.
fn ons_between(turns: &[u16], at: usize, end: usize) -> u16
    requires { (end ≤ 1025) × (length turns.now ≡ 1025) }
    ensures { result ≡ ons_of (map unpacked (take (end - at) (drop at turns.now))) }
{
    let mut ons: u16 = 0;
    for i in at..end {
        ons += on_before(turns[i]);
    }
    ons
}

// Where the first k sessions end: at the next one's root, or after the last node.
fn end_of(file: &[u8], head: Head, k: u16) -> usize
    requires { Laid file.now head × (k ≤ head.count.sessions) }
    ensures { result ≡ end_by (1 + head.count.nodes) (drop k (contents_at file.now head).sessions) }
{
    if k == head.count.sessions {
        return 1 + usize::from(head.count.nodes);
    }
    let next = session(file, head, k + 1);
    usize::from(next.root)
}

// Each node's turn stands at its number.
pub fn most_in(file: &[u8], head: Head, turns: &[u16]) -> u16
    requires { (entered file.now ≡ Ok head) × (length turns.now ≡ 1025) }
    ensures { result ≡ most_from 1 0 0 (contents_at file.now head).nodes (turns_in turns.now head.count.nodes) }
{
    let mut most: u16 = 0;
    let mut at: usize = 1;
    for k in 1..=head.count.sessions {
        let end = end_of(file, head, k);
        most = most.max(ons_between(turns, at, end));
        at = end;
    }
    most
}
