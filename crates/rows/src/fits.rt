// Whether a row stands at a place, with all its words.
ghost use Rattle.std.specs.Prelude.{◌≡◌, ◌≤◌, ◌<◌};
ghost use Rattle.rows.specs.Fits.{lines_fit, row_fits};

use super::words::word_at;

fn lines_fit(states: &[u16], at: usize, roles: usize) -> bool
    requires { (at < 8589934592) × (roles ≤ 16) }
    ensures { result ≡ lines_fit states.now at roles }
{
    let mut on = at;
    for _r in 0..roles {
        let n = usize::from(word_at(states, on));
        let end = on + 1 + n;
        if !((end <= states.len()) & (n <= 32)) {
            return false;
        }
        on = end;
    }
    true
}

pub fn row_fits(states: &[u16], at: usize, roles: usize) -> bool
    requires { (at < 4294967296) × (roles ≤ 16) }
    ensures { result ≡ row_fits roles states.now at }
{
    let n = usize::from(word_at(states, at));
    let m = usize::from(word_at(states, at + 1));
    let on = at + 2 + 2 * m + 12 * n + n;
    if !((n <= 64) & (m <= 64) & (on <= states.len())) {
        return false;
    }
    lines_fit(states, on, roles)
}
