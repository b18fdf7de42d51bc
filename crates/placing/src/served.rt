// 15: a node that no role of the user permits.
ghost use Rattle.std.specs.Prelude.{◌≡◌, ◌&&◌, eqb, length, drop};
ghost use Rattle.format.specs.Header.{Laid};
ghost use Rattle.format.specs.Contents.{contents_at};
ghost use Rattle.states.specs.States.{needs, labelled};
ghost use Rattle.placing.specs.Placing.{unserved_from};

use format::sections::node_tag;
use format::{Head, Verdict};

fn is_unserved(tag: u16, roles: u16) -> bool
    ensures { result ≡ (needs tag && eqb roles 0) }
{
    ((tag == 5) | (tag == 6)) & (roles == 0)
}

// The lowest of them; each node's roles stand at its number.
pub fn unserved(file: &[u8], head: Head, roles: &[u16]) -> Verdict
    requires { Laid file.now head × (length roles.now ≡ 1025) }
    ensures { result ≡ unserved_from 1 (labelled (contents_at file.now head).nodes (drop 1 roles.now)) }
{
    for n in 1..=head.count.nodes {
        if is_unserved(node_tag(file, head, n), roles[usize::from(n)]) {
            return Verdict {
                number: 15,
                place: n,
            };
        }
    }
    Verdict::FINE
}
