// 14: all starting masks are 0 and there is no on or off.
ghost use Rattle.std.specs.Prelude.{◌≡◌};
ghost use Rattle.format.specs.Answers.{or_else};
ghost use Rattle.format.specs.Header.{Laid};
ghost use Rattle.format.specs.Contents.{contents_at};
ghost use Rattle.placing.specs.Placing.{masks_answer, switches_answer};

use format::answers::or_else;
use format::sections::{node_tag, session};
use format::{Head, Verdict};

fn masks(file: &[u8], head: Head) -> Verdict
    requires { Laid file.now head }
    ensures { result ≡ masks_answer (contents_at file.now head) }
{
    for n in 1..=head.count.sessions {
        if session(file, head, n).mask != 0 {
            return Verdict {
                number: 14,
                place: 0,
            };
        }
    }
    Verdict::FINE
}

fn switches(file: &[u8], head: Head) -> Verdict
    requires { Laid file.now head }
    ensures { result ≡ switches_answer (contents_at file.now head) }
{
    for n in 1..=head.count.nodes {
        if 6 < node_tag(file, head, n) {
            return Verdict {
                number: 14,
                place: n,
            };
        }
    }
    Verdict::FINE
}

// Masks before nodes.
pub fn bare(file: &[u8], head: Head) -> Verdict
    requires { Laid file.now head }
    ensures { result ≡ or_else (masks_answer (contents_at file.now head)) (switches_answer (contents_at file.now head)) }
{
    or_else(masks(file, head), switches(file, head))
}
