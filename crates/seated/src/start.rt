// The start of a run with seats: the lowest session that overfills a role, and each thread's session.
ghost use Rattle.std.specs.Prelude.{◌≡◌, ◌&&◌, ◌++◌, ◌≤◌, ◌<◌, ltb, length, drop};
ghost use Rattle.format.specs.Header.{Laid};
ghost use Rattle.format.specs.Contents.{contents_at};
ghost use Rattle.rounds.specs.Rounds.{numbers};
ghost use Rattle.seats.specs.Seats.{limited_of, sits, count_to, seated_start, overfills, overfilled_at};

use super::choice::seats_of;
use format::Head;
use format::sections::session;
use format::words::narrow;
use masks::{UserRole, has_role};

// How many of the sessions 1 to k start with the role.
fn start_count(file: &[u8], head: Head, role: UserRole, k: u16) -> u16
    requires { Laid file.now head }
    ensures { result ≡ count_to (λ j. sits (seated_start (contents_at file.now head)) j role.0) k }
{
    let mut n: u16 = 0;
    for j in 1..=k {
        let it = session(file, head, j);
        n += has_role(it.mask, role) as u16;
    }
    n
}

// Whether a role with a limit has more than its seats among the sessions 1 to k.
fn is_over(file: &[u8], head: Head, limit: u16, role: UserRole, k: u16) -> bool
    requires { Laid file.now head }
    ensures { result ≡ (ltb 0 limit && ltb limit (count_to (λ j. sits (seated_start (contents_at file.now head)) j role.0) k)) }
{
    if limit == 0 {
        return false;
    }
    limit < start_count(file, head, role, k)
}

// Whether the sessions 1 to k overfill a role.
fn overfill(file: &[u8], head: Head, seats: &[u16], k: u16) -> bool
    requires { Laid file.now head × (length seats.now ≤ 16) }
    ensures { result ≡ overfills (limited_of (contents_at file.now head) seats.now) (seated_start (contents_at file.now head)) (length seats.now) k }
{
    let mut over = false;
    for r in 1..=narrow(seats.len()) {
        over = is_over(file, head, seats_of(seats, UserRole(r)), UserRole(r), k) | over;
    }
    over
}

// The lowest session that overfills a role, 0 where none does.
pub fn overfilled_at(file: &[u8], head: Head, seats: &[u16]) -> u16
    requires { Laid file.now head × (length seats.now ≤ 16) }
    ensures { result ≡ overfilled_at (limited_of (contents_at file.now head) seats.now) (seated_start (contents_at file.now head)) (length seats.now) }
{
    for k in 1..=head.count.sessions {
        if overfill(file, head, seats, k) {
            return k;
        }
    }
    0
}

// At the start the threads are the sessions' own, 1 to n; the words past them stay.
pub fn number_owners(owners: &mut [u16], n: u16)
    requires { (n ≤ length owners.old) × (n < 65535) }
    ensures { owners.new ≡ numbers 1 n ++ drop n owners.old }
{
    for k in 0..n {
        owners[usize::from(k)] = k + 1;
    }
}
