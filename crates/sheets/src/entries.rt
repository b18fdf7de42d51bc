// What a file adds to the sheet.
ghost use Rattle.std.specs.Prelude.{◌≡◌, length, Ok};
ghost use Rattle.format.specs.Contents.{contents_at};
ghost use Rattle.checking.specs.Check.{entered};
ghost use Rattle.sheets.specs.Entries.{refused_at, entry_from, entry_of};
ghost use Rattle.sheets.specs.Sheets.{Within};

use super::Entry;
use super::most::most_in;
use checking::examine;
use format::Head;
use placing::decide::decide;

// A refused file has its number alone.
fn refused(number: u16) -> Entry
    ensures { result ≡ refused_at number }
{
    Entry {
        number,
        sessions: 0,
        on_steps: 0,
        most: 0,
    }
}

// For a file that 1 to 10 leave clean, with each node's roles at its number: 14 to 16, else its figures. What the other two tables hold is of no
// account.
fn entry_body(
    file: &[u8],
    head: Head,
    roles: &[u16],
    turns: &mut [u16],
    starts: &mut [u16],
) -> Entry
    requires { (entered file.now ≡ Ok head) × (length roles.now ≡ 1025) × (length turns.old ≡ 1025) × (length starts.old ≡ 1025) }
    ensures { result ≡ entry_from (contents_at file.now head) roles.now }
{
    match decide(file, head, roles, turns, starts) {
        Err(first) => refused(first.number),
        Ok(sums) => Entry {
            number: 0,
            sessions: head.count.sessions,
            on_steps: sums.on_steps,
            most: most_in(file, head, turns),
        },
    }
}

// What placing it by itself in an output long enough comes to. The tables are lent, so that they are cleared once for all files of a sheet; what they
// hold is of no account.
pub fn entry_of(file: &[u8], roles: &mut [u16], turns: &mut [u16], starts: &mut [u16]) -> Entry
    requires { (length roles.old ≡ 1025) × (length turns.old ≡ 1025) × (length starts.old ≡ 1025) }
    ensures { (result ≡ entry_of file.now) × Within result }
{
    match examine(file, roles).names {
        Err(first) => refused(first.number),
        Ok(head) => entry_body(file, head, roles, turns, starts),
    }
}
