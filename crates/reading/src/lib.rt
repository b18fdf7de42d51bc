// Reading a clinic file: the refusals 1 to 8, 21 after 6, in order.
#![tactic(auto)]

pub mod long;

ghost use Rattle.std.specs.Prelude.{◌≡◌};
ghost use Rattle.format.specs.Header.{Laid};
ghost use Rattle.format.specs.Contents.{contents_at};
ghost use Rattle.reading.specs.Reading.{body_answer, with_head, opened};

use format::answers::or_else;
use format::header::read_head;
use format::{Head, Verdict};

// The head, where an answer refuses nothing.
pub fn with_head(head: Head, first: Verdict) -> Result<Head, Verdict>
    ensures { result ≡ with_head head first }
{
    if first.number == 0 {
        return Ok(head);
    }
    Err(first)
}

// What follows the head: the first of the refusals 6 to 8.
fn body(file: &[u8], head: Head) -> Verdict
    requires { Laid file.now head }
    ensures { result ≡ body_answer head (contents_at file.now head) }
{
    or_else(tables::records(file, head), trees::shape::shape(file, head))
}

// The one way to a head: 1 to 8 refuse nothing, or the first of them does.
pub fn open(file: &[u8]) -> Result<Head, Verdict>
    ensures { result ≡ opened file.now }
{
    match read_head(file) {
        Err(number) => Err(Verdict { number, place: 0 }),
        Ok(head) => with_head(head, body(file, head)),
    }
}
