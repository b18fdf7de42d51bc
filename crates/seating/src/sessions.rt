// The sessions that have a role, as a mask: bit k - 1 stands for session k.
ghost use Rattle.std.specs.Prelude.{◌≡◌, cond, ◌≤◌, length};
ghost use Rattle.masks.specs.Mask.{has, held};
ghost use Rattle.steps.specs.Records.{threads_in, record_at};
ghost use Rattle.seating.specs.SeatTables.{with_session, put_session, gathered};

use masks::{UserRole, has_role};
use steps::records::RECORD;

// The mask with a session put in: 0 and those above 32 change nothing.
fn with_session(mask: u32, k: u16) -> u32
    ensures { result ≡ with_session mask k }
{
    if k == 0 {
        return mask;
    }
    if 32 < k {
        return mask;
    }
    mask | (1u32 << (k - 1))
}

// A thread's session, where the thread has the role.
fn put_session(mask: u32, active: u16, role: UserRole, k: u16) -> u32
    ensures { result ≡ put_session mask active role.0 k }
{
    if has_role(active, role) {
        return with_session(mask, k);
    }
    mask
}

// Of so many threads the sessions that have the role.
pub fn sessions_in(threads: &[u16], owners: &[u16], count: usize, role: UserRole) -> u32
    requires { (record_at count ≤ length threads.now) × (count ≤ length owners.now) }
    ensures { result ≡ gathered (threads_in threads.now 0 count) owners.now role.0 0 }
{
    let mut m: u32 = 0;
    for i in 0..count {
        m = put_session(m, threads[RECORD * i + 2], role, owners[i]);
    }
    m
}

// How many sessions a mask has.
pub fn session_count(mask: u32) -> u16
    ensures { result ≡ held 32 mask }
{
    u32::count_ones(mask) as u16
}

// Whether a session is in the mask.
pub fn has_session(mask: u32, k: u16) -> bool
    ensures { result ≡ has mask k }
{
    if k == 0 {
        return false;
    }
    if 32 < k {
        return false;
    }
    (mask >> (k - 1)) % 2 == 1
}
