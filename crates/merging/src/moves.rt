// A record with its numbers shifted: what it names stands after so many others.
ghost use Rattle.std.specs.Prelude.{◌≡◌, cond, ◌+◌, ◌≤◌, ◌<◌};
ghost use Rattle.merging.specs.Merged.{shifted, moved_channel, moved_session, moved_node};
ghost use Rattle.merging.specs.Writers.{shifts_by, FewBefore};

use super::Shift;
use format::sections::in_count;
use format::{Channel, Node, Session};

// How many stand before what an operand names: 1 to 32 a user, 257 to 320 a channel; all else stays.
fn before(by: Shift, x: u16) -> u16
    requires { FewBefore by }
    ensures { (result + x ≡ shifted by.users by.channels x) × (result ≤ 64) × (result + x < 65536) }
{
    if in_count(32, x) {
        return by.users;
    }
    if (256 < x) & (x <= 320) {
        return by.channels;
    }
    0
}

// A number, or 0.
fn only_if(holds: bool, n: u16) -> u16
    ensures { result ≡ cond holds n 0 }
{
    if holds {
        return n;
    }
    0
}

pub fn moved_channel(by: Shift, it: Channel) -> Channel
    requires { FewBefore by × (it.owner ≤ 32) }
    ensures { result ≡ moved_channel (shifts_by by) it }
{
    Channel {
        owner: by.users + it.owner,
        ..it
    }
}

pub fn moved_session(by: Shift, it: Session) -> Session
    requires { FewBefore by × (it.user ≤ 32) × (it.root ≤ 1025) }
    ensures { result ≡ moved_session (shifts_by by) it }
{
    Session {
        user: by.users + it.user,
        root: by.nodes + it.root,
        ..it
    }
}

// A fork's second child; both operands of compare and send; receive's channel. What stands before is found for every tag, so that no step waits on it.
pub fn moved_node(by: Shift, it: Node) -> Node
    requires { FewBefore by × (it.tag ≡ 1 → it.f1 ≤ 1025) }
    ensures { result ≡ moved_node (shifts_by by) it }
{
    let tag = it.tag;
    let both = (tag == 4) | (tag == 6);
    let fork = only_if(tag == 1, by.nodes);
    let one = only_if(both | (tag == 5), before(by, it.f1));
    let two = only_if(both, before(by, it.f2));
    Node {
        tag,
        f1: fork + one + it.f1,
        f2: two + it.f2,
    }
}
