// What is read of a state with seats: for each role the seats taken, how many wait, and the line.
ghost use Rattle.std.specs.Prelude.{◌≡◌, cond, ◌+◌, ◌*◌, ◌-◌, ◌/◌, ◌%◌, ◌≤◌, ◌<◌, ltb, length, get_or};
ghost use Rattle.format.specs.Contents.{tabled};
ghost use Rattle.masks.specs.Mask.{held};
ghost use Rattle.steps.specs.Records.{threads_in};
ghost use Rattle.steps.specs.Beside.{thread_count};
ghost use Rattle.steps.specs.Kept.{Sized};
ghost use Rattle.seating.specs.SeatTables.{gathered, LineRows};
ghost use Rattle.seated.specs.SeatedTables.{lines_in};
ghost use Rattle.seated.specs.ReadWords.{line_word};

use format::words::narrow;
use masks::UserRole;
use seating::sessions::{session_count, sessions_in};
use steps::beside::thread_count;

// The seats taken in each of the roles 1 to 16.
pub fn taken_words(threads: &[u16], beside: &[u16], owners: &[u16]) -> [u16; 16]
    requires { Sized threads.now beside.now × (length owners.now ≡ 64) }
    ensures { result ≡ tabled (λ role. held 32 (gathered (threads_in threads.now 0 (thread_count beside.now)) owners.now role 0)) 1 16 }
{
    let count = usize::from(thread_count(beside));
    let mut all = [0u16; 16];
    for k in 0..16 {
        all[k] = session_count(sessions_in(threads, owners, count, UserRole(narrow(k + 1))));
    }
    all
}

// How many wait for each.
pub fn waiting_words(lines: &[u16]) -> [u16; 16]
    requires { LineRows lines.now }
    ensures { result ≡ tabled (λ role. get_or lines.now (33 * (role - 1)) 0) 1 16 }
{
    let mut all = [0u16; 16];
    for k in 0..16 {
        all[k] = lines[33 * k];
    }
    all
}

// A word of a line: 0 past those waiting.
fn line_word(lines: &[u16], row: usize, at: usize) -> u16
    requires { LineRows lines.now × (row < 16) × (at < 32) }
    ensures { result ≡ line_word lines.now row at }
{
    if at < usize::from(lines[33 * row]) {
        return lines[33 * row + 1 + at];
    }
    0
}

// The lines, 32 words each.
pub fn line_words(lines: &[u16]) -> [u16; 512]
    requires { LineRows lines.now }
    ensures { result ≡ tabled (λ x. line_word lines.now (x / 32) (x % 32)) 0 512 }
{
    let mut all = [0u16; 512];
    for k in 0..512 {
        all[k] = line_word(lines, k / 32, k % 32);
    }
    all
}
