// The counts of two files together, and the head and the shifts that they give.
ghost use Rattle.std.specs.Prelude.{◌≡◌, ◌≤◌};
ghost use Rattle.format.specs.Header.{Counted};
ghost use Rattle.merging.specs.Writers.{counts_of_both, sums_within, first_head, shift_after};

use super::Shift;
use format::{Head, Seven, Six};

pub fn add_counts(one: Six, two: Six) -> Six
    requires { Counted one × Counted two }
    ensures { result ≡ counts_of_both one two }
{
    Six {
        users: one.users + two.users,
        channels: one.channels + two.channels,
        sessions: one.sessions + two.sessions,
        nodes: one.nodes + two.nodes,
        ..one
    }
}

// No sum is beyond a count's limit.
pub fn sums_fit(n: Six) -> bool
    ensures { result ≡ sums_within n }
{
    (n.users <= 32) & (n.channels <= 64) & (n.sessions <= 32) & (n.nodes <= 1024)
}

// The head of a file of version 1 with these counts.
pub fn head_for(n: Six) -> Head
    requires { Counted n }
    ensures { result ≡ first_head n }
{
    let roles = 13 + n.users;
    let kinds = roles + 4 * n.roles;
    let channels = kinds + n.kinds;
    let sessions = channels + 2 * n.channels;
    Head {
        version: 1,
        count: n,
        at: Seven {
            users: 13,
            roles,
            juniors: kinds,
            kinds,
            channels,
            sessions,
            nodes: sessions + 3 * n.sessions,
        },
    }
}

// The second file's numbers come after those of the first.
pub fn shift_after(n: Six) -> Shift
    ensures { result ≡ shift_after n }
{
    Shift {
        users: n.users,
        channels: n.channels,
        nodes: n.nodes,
    }
}
