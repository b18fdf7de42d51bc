// Opening hours: the table's refusals 22 and 23, and the roles that are shut at a minute.
#![tactic(auto)]

ghost use Rattle.std.specs.Prelude.{◌≡◌, cond, ◌+◌, ◌*◌, ◌/◌, ◌≤◌, ◌<◌, length};
ghost use Rattle.hours.specs.Hours.{row_at, table_answer, row_fits, rows_answer, contains, put, shut};

use format::Verdict;
use format::words::narrow;
use masks::{UserRole, roles_minus, with_role};

// A role, and the minutes of the week in which it is open: from the first to the last before the end.
#[derive(Clone, Copy)]
pub struct Row {
    pub role: u16,
    pub first: u16,
    pub end: u16,
}

fn row_at(hours: &[u16], i: usize) -> Row
    requires { (i < 1000000) × (3 * i + 2 < length hours.now) }
    ensures { result ≡ row_at hours.now i }
{
    Row {
        role: hours[3 * i],
        first: hours[3 * i + 1],
        end: hours[3 * i + 2],
    }
}

// 22: not of whole rows, over 64 rows, or a minute above 10,079.
pub fn table_answer(hours: &[u16], minute: u16) -> Verdict
    ensures { result ≡ table_answer hours.now minute }
{
    let n = hours.len();
    if (n % 3 == 0) & (n / 3 <= 64) & (minute <= 10079) {
        return Verdict::FINE;
    }
    Verdict {
        number: 22,
        place: 0,
    }
}

fn row_fits(row: Row, roles: u16) -> bool
    ensures { result ≡ row_fits roles row }
{
    (0 < row.role) & (row.role <= roles) & (row.first < row.end) & (row.end <= 10080)
}

// 23: the first row that does not fit, from 1.
pub fn rows_answer(hours: &[u16], roles: u16) -> Verdict
    requires { length hours.now / 3 ≤ 64 }
    ensures { result ≡ rows_answer roles hours.now }
{
    for n in 1..=hours.len() / 3 {
        if !row_fits(row_at(hours, n - 1), roles) {
            return Verdict {
                number: 23,
                place: narrow(n),
            };
        }
    }
    Verdict::FINE
}

fn contains(row: Row, minute: u16) -> bool
    ensures { result ≡ contains minute row }
{
    (row.first <= minute) & (minute < row.end)
}

// The mask with the role put in, if it is to be and a mask can have it.
fn put_if(yes: bool, mask: u16, role: u16) -> u16
    ensures { result ≡ cond yes (put mask role) mask }
{
    if yes & (role <= 16) {
        return with_role(mask, UserRole(role));
    }
    mask
}

// The roles that have rows and are not open at the minute.
pub fn shut(hours: &[u16], minute: u16) -> u16
    requires { length hours.now / 3 ≤ 64 }
    ensures { result ≡ shut hours.now minute }
{
    let mut named: u16 = 0;
    let mut inside: u16 = 0;
    for i in 0..hours.len() / 3 {
        let it = row_at(hours, i);
        named = put_if(true, named, it.role);
        inside = put_if(contains(it, minute), inside, it.role);
    }
    roles_minus(named, inside)
}
