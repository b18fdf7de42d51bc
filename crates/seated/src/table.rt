// What refuses a run with seats before the first choice: 17 for the table, then 26 for the start.
ghost use Rattle.std.specs.Prelude.{◌≡◌, ◌&&◌, eqb, length};
ghost use Rattle.format.specs.Header.{Laid};
ghost use Rattle.format.specs.Contents.{contents_at};
ghost use Rattle.seating.specs.SeatedRunning.{small_seats};
ghost use Rattle.seated.specs.SeatedEntry.{seats_bar};

use super::start::overfilled_at;
use format::{Head, Verdict};

// One word a role, each at most 32.
fn fits(seats: &[u16], roles: u16) -> bool
    ensures { result ≡ (eqb (length seats.now) roles && small_seats seats.now) }
{
    seats.len() == usize::from(roles) && seats.iter().all(|seat| *seat <= 32)
}

pub fn seats_bar(file: &[u8], head: Head, seats: &[u16]) -> Verdict
    requires { Laid file.now head }
    ensures { result ≡ seats_bar (contents_at file.now head) seats.now }
{
    if !fits(seats, head.count.roles) {
        return Verdict {
            number: 17,
            place: 0,
        };
    }
    let k = overfilled_at(file, head, seats);
    if k == 0 {
        return Verdict::FINE;
    }
    Verdict {
        number: 26,
        place: k,
    }
}
