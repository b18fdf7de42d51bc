// The way into a file that is merged: its head, or its own refusal.
ghost use Rattle.std.specs.Prelude.{◌≡◌, cond, ◌||◌, eqb, Ok, Err};
ghost use Rattle.format.specs.Answers.{refused};
ghost use Rattle.merging.specs.Writers.{own_entered};

use checking::enter;
use format::words::word;
use format::{Head, Verdict};

// A refusal of 1 to 10 by a file's first word: another version is 2, at 2's turn, after 1.
fn own_refusal(first: Verdict, version: u16) -> Verdict
    ensures { result ≡ cond (eqb first.number 1 || eqb version 1) first (refused 2 0) }
{
    if (first.number == 1) | (version == 1) {
        return first;
    }
    Verdict {
        number: 2,
        place: 0,
    }
}

// A head by its version.
fn own_head(head: Head) -> Result<Head, Verdict>
    ensures { result ≡ cond (eqb head.version 1) (Ok head) (Err (refused 2 0)) }
{
    if head.version == 1 {
        return Ok(head);
    }
    Err(Verdict {
        number: 2,
        place: 0,
    })
}

pub fn own(file: &[u8]) -> Result<Head, Verdict>
    ensures { result ≡ own_entered file.now }
{
    match enter(file) {
        Err(first) => Err(own_refusal(first, word(file, 0))),
        Ok(head) => own_head(head),
    }
}
