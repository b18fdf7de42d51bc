// Words of one table against those of another.
ghost use Rattle.std.specs.Prelude.{◌≡◌, ◌+◌, ◌≤◌, ◌<◌, length, get_or, take, drop};
ghost use Rattle.std.proofs.Math.Seq.{paste};
ghost use Rattle.rows.specs.Rows.{stands_at};

// Whether so many words of a table, from a place on, stand in the states from another on.
pub fn same_words(states: &[u16], at: usize, table: &[u16], from: usize, n: usize) -> bool
    requires { (from + n ≤ length table.now) × (at < 8589934592) }
    ensures { result ≡ stands_at states.now at (take n (drop from table.now)) }
{
    states[at.min(states.len())..].starts_with(&table[from..from + n])
}

// So many words of the states, from a place on, put into a table from another on.
pub fn copy_words(states: &[u16], at: usize, table: &mut [u16], to: usize, n: usize)
    requires { (at + n ≤ length states.now) × (to + n ≤ length table.old) }
    ensures { table.new ≡ paste table.old to (drop at states.now) n }
{
    for k in 0..n {
        table[to + k] = states[at + k];
    }
}

// A word of a table, 0 past its end.
pub fn word_at(table: &[u16], at: usize) -> u16
    ensures { result ≡ get_or table.now at 0 }
{
    table.get(at).copied().unwrap_or(0)
}
