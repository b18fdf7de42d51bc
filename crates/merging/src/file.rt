// A merged file, section by section: the first file's records as they are, then the second's, moved. Every other byte stays.
ghost use Rattle.std.specs.Prelude.{◌≡◌, ◌++◌, ◌*◌, ◌≤◌, length};
ghost use Rattle.std.proofs.lemmas.List.Edits.{sets};
ghost use Rattle.format.specs.Words.{bytes_of};
ghost use Rattle.format.specs.Contents.{contents_at};
ghost use Rattle.format.specs.Writing.{session_words, node_rows, table_words, encoded};
ghost use Rattle.merging.specs.Merged.{merged_contents};
ghost use Rattle.merging.specs.Writers.{counts_of_both, first_head, Joining};

use super::counts::shift_after;
use super::writers::{move_words, put_channels, put_nodes, put_sessions};
use format::Head;
use format::writing::put_head;

fn put_users(first: &[u8], one: Head, second: &[u8], two: Head, out: &mut [u8])
    requires { Joining first.now second.now one two × (6874 ≤ length out.old) }
    ensures { out.new ≡ sets out.old 26 (bytes_of ((contents_at first.now one).users ++ (contents_at second.now two).users)) }
{
    let users = usize::from(one.count.users);
    move_words(first, usize::from(one.at.users), users, 13, out);
    move_words(
        second,
        usize::from(two.at.users),
        usize::from(two.count.users),
        13 + users,
        out,
    );
}

// Users, roles, kinds and channels; the first file's roles, kinds and channels stand back to back in both.
fn put_tables(first: &[u8], one: Head, second: &[u8], two: Head, whole: Head, out: &mut [u8])
    requires { Joining first.now second.now one two × (whole ≡ first_head (counts_of_both one.count two.count)) × (6874 ≤ length out.old) }
    ensures { out.new ≡ sets out.old 26 (bytes_of (table_words 1 (merged_contents (contents_at first.now one) (contents_at second.now two)))) }
{
    put_users(first, one, second, two, out);
    let tables = 4 * usize::from(one.count.roles) + usize::from(one.count.kinds);
    let words = tables + 2 * usize::from(one.count.channels);
    move_words(
        first,
        usize::from(one.at.roles),
        words,
        usize::from(whole.at.roles),
        out,
    );
    put_channels(
        second,
        two,
        shift_after(one.count),
        whole,
        one.count.channels,
        out,
    );
}

// Sessions and nodes.
fn put_trees(first: &[u8], one: Head, second: &[u8], two: Head, whole: Head, out: &mut [u8])
    requires { Joining first.now second.now one two × (whole ≡ first_head (counts_of_both one.count two.count)) × (6874 ≤ length out.old) }
    ensures { out.new ≡ sets out.old (2 * whole.at.sessions)
        (bytes_of (session_words (merged_contents (contents_at first.now one) (contents_at second.now two)).sessions
        ++ node_rows (merged_contents (contents_at first.now one) (contents_at second.now two)).nodes)) }
{
    let by = shift_after(one.count);
    let sessions = 3 * usize::from(one.count.sessions);
    move_words(
        first,
        usize::from(one.at.sessions),
        sessions,
        usize::from(whole.at.sessions),
        out,
    );
    put_sessions(second, two, by, whole, one.count.sessions, out);
    let nodes = 3 * usize::from(one.count.nodes);
    move_words(
        first,
        usize::from(one.at.nodes),
        nodes,
        usize::from(whole.at.nodes),
        out,
    );
    put_nodes(second, two, by, whole, one.count.nodes, out);
}

pub fn put_file(first: &[u8], one: Head, second: &[u8], two: Head, whole: Head, out: &mut [u8])
    requires { Joining first.now second.now one two × (whole ≡ first_head (counts_of_both one.count two.count)) × (6874 ≤ length out.old) }
    ensures { out.new ≡ sets out.old 0 (encoded 1 (merged_contents (contents_at first.now one) (contents_at second.now two))) }
{
    put_head(out, whole);
    put_tables(first, one, second, two, whole, out);
    put_trees(first, one, second, two, whole, out);
}
