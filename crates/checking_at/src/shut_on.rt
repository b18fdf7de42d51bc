// 24: on of a role that is shut.
ghost use Rattle.std.specs.Prelude.{◌≡◌};
ghost use Rattle.format.specs.Header.{Laid};
ghost use Rattle.format.specs.Contents.{contents_at};
ghost use Rattle.checking_at.specs.CheckAt.{opens_shut, shut_answer};

use format::sections::node;
use format::{Head, Node, Verdict};
use masks::{UserRole, has_role};

fn opens_shut(it: Node, shut: u16) -> bool
    ensures { result ≡ opens_shut shut it }
{
    (it.tag == 7) & has_role(shut, UserRole(it.f1))
}

// The lowest of them.
pub fn shut_on(file: &[u8], head: Head, shut: u16) -> Verdict
    requires { Laid file.now head }
    ensures { result ≡ shut_answer shut (contents_at file.now head) }
{
    for n in 1..=head.count.nodes {
        if opens_shut(node(file, head, n), shut) {
            return Verdict {
                number: 24,
                place: n,
            };
        }
    }
    Verdict::FINE
}
