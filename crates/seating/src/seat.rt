// Whether an on of a role with a limit, by a session's thread, needs a seat and gets one.
ghost use Rattle.std.specs.Prelude.{◌≡◌, ◌≤◌, length};
ghost use Rattle.steps.specs.Records.{threads_in, record_at};
ghost use Rattle.seating.specs.SeatTables.{line_in, LineRows, seat_answer};

use crate::lines::is_next;
use crate::sessions::{has_session, session_count, sessions_in};
use masks::UserRole;

// 0 where the session has the role, 1 where it gets a seat, 2 where it has to wait.
pub fn seat_answer(
    threads: &[u16],
    owners: &[u16],
    lines: &[u16],
    count: usize,
    role: UserRole,
    limit: u16,
    k: u16,
) -> u16
    requires { (record_at count ≤ length threads.now) × (count ≤ length owners.now) × LineRows lines.now × (1 ≤ role.0) × (role.0 ≤ 16) }
    ensures { result ≡ seat_answer (threads_in threads.now 0 count) owners.now (line_in lines.now role.0) role.0 limit k }
{
    let sessions = sessions_in(threads, owners, count, role);
    if has_session(sessions, k) {
        return 0;
    }
    if limit <= session_count(sessions) {
        return 2;
    }
    if is_next(lines, usize::from(role.0 - 1), k) {
        return 1;
    }
    2
}
