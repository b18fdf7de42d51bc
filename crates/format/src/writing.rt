// Writing a file, section by section: the head, the tables as another file has them, a session, a node. Every other byte stays.
ghost use Rattle.std.specs.Prelude.{◌≡◌, [], ◌∷◌, ◌+◌, ◌*◌, ◌-◌, ◌≤◌, ◌<◌, length};
ghost use Rattle.std.proofs.lemmas.List.Edits.{sets};
ghost use Rattle.format.specs.Words.{bytes_of};
ghost use Rattle.format.specs.Header.{Laid, length_for, offset_words, head_words};
ghost use Rattle.format.specs.Sections.{place_of, words_from};
ghost use Rattle.format.specs.Contents.{contents_at};
ghost use Rattle.format.specs.Writing.{table_words, session_words, node_put};
ghost use Rattle.format.specs.declared.Section.TheVariants.{Sessions};

use super::header::has_juniors;
use super::sections::{node_spot, place_of};
use super::words::put_word;
use super::{Head, Node, Section, Session, Seven};

// Three words: a session's, or half of what the head has for the sections.
fn put_three(out: &mut [u8], at: usize, first: u16, second: u16, third: u16)
    requires { 2 * at + 6 ≤ length out.old }
    ensures { out.new ≡ sets out.old (2 * at) (bytes_of (first ∷ second ∷ third ∷ [])) }
{
    put_word(out, at, first);
    put_word(out, at + 1, second);
    put_word(out, at + 2, third);
}

fn put_offsets(out: &mut [u8], version: u16, at: Seven)
    requires { 28 ≤ length out.old }
    ensures { out.new ≡ sets out.old 14 (bytes_of (offset_words version at)) }
{
    if has_juniors(version) {
        put_three(out, 7, at.users, at.roles, at.juniors);
        put_three(out, 10, at.kinds, at.channels, at.sessions);
        put_word(out, 13, at.nodes);
        return;
    }
    put_three(out, 7, at.users, at.roles, at.kinds);
    put_three(out, 10, at.channels, at.sessions, at.nodes);
}

pub fn put_head(out: &mut [u8], head: Head)
    requires { 28 ≤ length out.old }
    ensures { out.new ≡ sets out.old 0 (bytes_of (head_words head)) }
{
    let n = head.count;
    let at = head.at;
    put_word(out, 0, head.version);
    put_three(out, 1, n.users, n.roles, n.kinds);
    put_three(out, 4, n.channels, n.sessions, n.nodes);
    put_offsets(out, head.version, at);
}

// The words between two places, as they are. Where there are none, the file is not looked at.
fn put_words(file: &[u8], from: usize, to: usize, out: &mut [u8])
    requires { (from ≤ to) × (from < to → 2 * to ≤ length file.now) × (2 * to ≤ length out.old) }
    ensures { out.new ≡ sets out.old (2 * from) (bytes_of (words_from file.now from (to - from))) }
{
    let at = 2 * from;
    for i in 0..2 * (to - from) {
        out[at + i] = file[at + i];
    }
}

// The users, roles, juniors, kinds and channels of a file.
pub fn put_tables(file: &[u8], head: Head, out: &mut [u8])
    requires { Laid file.now head × (2 * head.at.sessions ≤ length out.old) }
    ensures { out.new ≡ sets out.old (2 * head.at.users) (bytes_of (table_words head.version (contents_at file.now head))) }
{
    put_words(
        file,
        usize::from(head.at.users),
        usize::from(head.at.sessions),
        out,
    );
}

// The sessions of a file.
pub fn put_sessions(file: &[u8], head: Head, out: &mut [u8])
    requires { Laid file.now head × (2 * head.at.nodes ≤ length out.old) }
    ensures { out.new ≡ sets out.old (2 * head.at.sessions) (bytes_of (session_words (contents_at file.now head).sessions)) }
{
    put_words(
        file,
        usize::from(head.at.sessions),
        usize::from(head.at.nodes),
        out,
    );
}

pub fn put_session(out: &mut [u8], head: Head, n: u16, it: Session)
    requires { (0 < n) × (2 * place_of head Sessions n + 6 ≤ length out.old) }
    ensures { out.new ≡ sets out.old (2 * place_of head Sessions n) (bytes_of (session_words (it ∷ []))) }
{
    put_three(
        out,
        place_of(head, Section::Sessions, n),
        it.user,
        it.mask,
        it.root,
    );
}

// A node of a file with this head, by row or by column.
pub fn put_node(out: &mut [u8], head: Head, n: u16, it: Node)
    requires { (0 < n) × (n ≤ head.count.nodes) × (length_for head.at.nodes head.count.nodes ≤ length out.old) }
    ensures { out.new ≡ node_put head n it out.old }
{
    put_word(out, node_spot(head, n, 0), it.tag);
    put_word(out, node_spot(head, n, 1), it.f1);
    put_word(out, node_spot(head, n, 2), it.f2);
}
