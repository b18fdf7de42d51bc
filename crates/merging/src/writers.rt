// The sections of a merged file, each record after so many others. Every other byte stays.
ghost use Rattle.std.specs.Prelude.{◌≡◌, [], ◌∷◌, map, ◌+◌, ◌*◌, ◌≤◌, ◌<◌, length};
ghost use Rattle.std.proofs.lemmas.List.Edits.{sets};
ghost use Rattle.format.specs.Words.{bytes_of};
ghost use Rattle.format.specs.Header.{Laid};
ghost use Rattle.format.specs.Sections.{place_of, words_from};
ghost use Rattle.format.specs.Contents.{contents_at};
ghost use Rattle.format.specs.Writing.{channel_words, session_words, node_rows};
ghost use Rattle.format.specs.declared.Section.TheVariants.{Channels, Sessions};
ghost use Rattle.merging.specs.Merged.{moved_channel, moved_session, moved_node};
ghost use Rattle.merging.specs.Writers.{shifts_by, FewBefore, Limited};

use super::Shift;
use super::moves::{moved_channel, moved_node, moved_session};
use format::sections::{channel, node, place_of, session};
use format::words::put_word;
use format::writing::{put_node, put_session};
use format::{Channel, Head, Section};

// So many words of a file as they are, at another place. Where there are none, the file is not looked at.
pub fn move_words(file: &[u8], from: usize, count: usize, at: usize, out: &mut [u8])
    requires { (0 < count → 2 * (from + count) ≤ length file.now) × (2 * (at + count) ≤ length out.old) }
    ensures { out.new ≡ sets out.old (2 * at) (bytes_of (words_from file.now from count)) }
{
    for i in 0..2 * count {
        out[2 * at + i] = file[2 * from + i];
    }
}

fn put_channel(out: &mut [u8], head: Head, n: u16, it: Channel)
    requires { (0 < n) × (2 * place_of head Channels n + 4 ≤ length out.old) }
    ensures { out.new ≡ sets out.old (2 * place_of head Channels n) (bytes_of (channel_words (it ∷ []))) }
{
    let at = place_of(head, Section::Channels, n);
    put_word(out, at, it.owner);
    put_word(out, at + 1, it.kind.0);
}

// The three loops have one shape and stay three: one function would have to be told how a record is read, moved and written,
// and would be longer.

pub fn put_channels(file: &[u8], head: Head, by: Shift, whole: Head, others: u16, out: &mut [u8])
    requires { Laid file.now head × Limited (contents_at file.now head) × FewBefore by
        × (others ≤ 64) × (2 * (whole.at.channels + 2 * (others + head.count.channels)) ≤ length out.old) }
    ensures { out.new ≡ sets out.old (2 * (whole.at.channels + 2 * others))
        (bytes_of (channel_words (map (moved_channel (shifts_by by)) (contents_at file.now head).channels))) }
{
    for i in 0..head.count.channels {
        let n = i + 1;
        let it = channel(file, head, n);
        put_channel(out, whole, others + n, moved_channel(by, it));
    }
}

pub fn put_sessions(file: &[u8], head: Head, by: Shift, whole: Head, others: u16, out: &mut [u8])
    requires { Laid file.now head × Limited (contents_at file.now head) × FewBefore by
        × (others ≤ 32) × (2 * (whole.at.sessions + 3 * (others + head.count.sessions)) ≤ length out.old) }
    ensures { out.new ≡ sets out.old (2 * (whole.at.sessions + 3 * others))
        (bytes_of (session_words (map (moved_session (shifts_by by)) (contents_at file.now head).sessions))) }
{
    for i in 0..head.count.sessions {
        let n = i + 1;
        let it = session(file, head, n);
        put_session(out, whole, others + n, moved_session(by, it));
    }
}

pub fn put_nodes(file: &[u8], head: Head, by: Shift, whole: Head, others: u16, out: &mut [u8])
    requires { Laid file.now head × Limited (contents_at file.now head) × FewBefore by
        × (others ≤ 1024) × (whole.version ≡ 1) × (whole.count.nodes ≡ others + head.count.nodes) × (2 * (whole.at.nodes + 3 * (others + head.count.nodes)) ≤ length out.old) }
    ensures { out.new ≡ sets out.old (2 * (whole.at.nodes + 3 * others))
        (bytes_of (node_rows (map (moved_node (shifts_by by)) (contents_at file.now head).nodes))) }
{
    for i in 0..head.count.nodes {
        let n = i + 1;
        let it = node(file, head, n);
        put_node(out, whole, others + n, moved_node(by, it));
    }
}
