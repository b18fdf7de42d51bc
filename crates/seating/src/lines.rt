// The lines, in one table: for each role a row of 33 words, how many wait and then their sessions.
ghost use Rattle.std.specs.Prelude.{◌≡◌, ◌+◌, ◌*◌, ◌<◌, get_or};
ghost use Rattle.seats.specs.Seats.{is_next, in_line};
ghost use Rattle.seating.specs.SeatTables.{line_row, LineRows, joined_row, left_row};

// Whether nobody waits, or the session is the head.
pub fn is_next(lines: &[u16], row: usize, k: u16) -> bool
    requires { LineRows lines.now × (row < 16) }
    ensures { result ≡ is_next (line_row lines.now row) k }
{
    let at = 33 * row;
    if lines[at] == 0 {
        return true;
    }
    lines[at + 1] == k
}

// Whether the session waits.
pub fn in_line(lines: &[u16], row: usize, k: u16) -> bool
    requires { LineRows lines.now × (row < 16) }
    ensures { result ≡ in_line k (line_row lines.now row) }
{
    let at = 33 * row + 1;
    let n = usize::from(lines[33 * row]);
    lines[at..at + n].contains(&k)
}

// The session joins the end of a line that has room.
pub fn join(lines: &mut [u16], row: usize, k: u16)
    requires { LineRows lines.old × (row < 16) × (get_or lines.old (33 * row) 0 < 32) }
    ensures { lines.new ≡ joined_row lines.old row k }
{
    let at = 33 * row;
    let n = lines[at];
    lines[at + 1 + usize::from(n)] = k;
    lines[at] = n + 1;
}

// The head of a line leaves it: those behind it move up.
pub fn leave(lines: &mut [u16], row: usize)
    requires { LineRows lines.old × (row < 16) × (0 < get_or lines.old (33 * row) 0) }
    ensures { lines.new ≡ left_row lines.old row }
{
    let at = 33 * row;
    let n = lines[at];
    lines.copy_within(at + 2..at + 1 + usize::from(n), at + 1);
    lines[at] = n - 1;
}
