// The placed file: where each node's group starts, and its words.
#![tactic(auto)]

ghost use Rattle.std.specs.Prelude.{◌≡◌, [], ◌∷◌, ◌++◌, ◌+◌, ◌*◌, ◌-◌, ◌≤◌, ◌<◌, length, get_or};
ghost use Rattle.std.proofs.lemmas.List.Edits.{sets};
ghost use Rattle.format.specs.Words.{bytes_of};
ghost use Rattle.format.specs.Header.{Laid, length_for};
ghost use Rattle.format.specs.Contents.{contents_at};
ghost use Rattle.format.specs.Writing.{session_words, nodes_put, encoded};
ghost use Rattle.states.specs.States.{unpacked};
ghost use Rattle.groups.specs.Groups.{before, size_of, sizes_of, ons_of, starts_from, moved, groups_from, sessions_from, with_nodes, placed_contents, turns_in};
ghost use Rattle.groups.specs.Switches.{switches};

use format::sections::{node, session};
use format::writing::{put_head, put_node, put_session, put_tables};
use format::{Head, Node, Session, Six};
use masks::UserRole;

// How many nodes the groups have, and how many of them switch a role on.
#[derive(Clone, Copy)]
pub struct Sums {
    pub nodes: u16,
    pub on_steps: u16,
}

// Where each node's group starts, at its number; how many nodes and on steps the groups have.
pub fn starts(turns: &[u16], nodes: u16, starts: &mut [u16]) -> Sums
    requires { (nodes ≤ 1024) × (length turns.now ≡ 1025) × (length starts.old ≡ 1025) }
    ensures { (result ≡ record { nodes = sizes_of (turns_in turns.now nodes); on_steps = ons_of (turns_in turns.now nodes) })
        × (starts.new ≡ sets starts.old 1 (starts_from 1 (turns_in turns.now nodes))) }
{
    let mut at: u16 = 1;
    let mut ons: u16 = 0;
    for i in 1..=usize::from(nodes) {
        let turn = turns[i];
        let from = turn % 256;
        let to = turn / 256;
        let on = ((from != to) & (to != 0)) as u16;
        starts[i] = at;
        at += 1 + (((from != to) & (from != 0)) as u16) + on;
        ons += on;
    }
    Sums {
        nodes: at - 1,
        on_steps: ons,
    }
}

// The new number of a node: where its group starts; 0 for a number that no node has.
fn renamed(starts: &[u16], n: u16) -> u16
    ensures { result ≡ get_or starts.now n 0 }
{
    starts.get(usize::from(n)).copied().unwrap_or(0)
}

// The node that switches a role, where the states differ and it is one; the number after it.
fn put_switch(
    out: &mut [u8],
    head: Head,
    at: u16,
    tag: u16,
    from: u16,
    to: u16,
    role: UserRole,
) -> u16
    requires { (0 < at) × (at + length (switches tag from to role.0) ≤ 1 + head.count.nodes) × (head.count.nodes ≤ 1024) × (length_for head.at.nodes head.count.nodes ≤ length out.old) }
    ensures { (result ≡ at + length (switches tag from to role.0))
        × (out.new ≡ nodes_put head at (switches tag from to role.0) out.old) }
{
    if from == to {
        return at;
    }
    if role.0 == 0 {
        return at;
    }
    put_node(
        out,
        head,
        at,
        Node {
            tag,
            f1: role.0,
            f2: 0,
        },
    );
    at + 1
}

// The group of a node, from a number on; the number after it.
fn put_group(out: &mut [u8], head: Head, at: u16, turn: u16, it: Node, starts: &[u16]) -> u16
    requires { (0 < at) × (at + size_of (unpacked turn) ≤ 1 + head.count.nodes) × (head.count.nodes ≤ 1024) × (length_for head.at.nodes head.count.nodes ≤ length out.old) }
    ensures { (result ≡ at + size_of (unpacked turn))
        × (out.new ≡ nodes_put head at (before (unpacked turn) ++ moved starts.now it ∷ []) out.old) }
{
    let from = turn % 256;
    let to = turn / 256;
    let off = put_switch(out, head, at, 8, from, to, UserRole(from));
    let on = put_switch(out, head, off, 7, from, to, UserRole(to));
    let f1 = if it.tag == 1 {
        renamed(starts, it.f1)
    } else {
        it.f1
    };
    put_node(out, head, on, Node { f1, ..it });
    on + 1
}

// The groups of all the nodes, in a file with another head: by column a node's words stand as far from each other as that file has nodes.
fn put_groups(file: &[u8], head: Head, whole: Head, turns: &[u16], starts: &[u16], out: &mut [u8])
    requires { Laid file.now head × (length turns.now ≡ 1025) × (whole.count.nodes ≡ sizes_of (turns_in turns.now head.count.nodes)) × (whole.count.nodes ≤ 1024)
        × (length_for whole.at.nodes whole.count.nodes ≤ length out.old) }
    ensures { out.new ≡ nodes_put whole 1 (groups_from starts.now (contents_at file.now head).nodes (turns_in turns.now head.count.nodes)) out.old }
{
    let mut at: u16 = 1;
    for n in 1..=head.count.nodes {
        at = put_group(
            out,
            whole,
            at,
            turns[usize::from(n)],
            node(file, head, n),
            starts,
        );
    }
}

// The sessions, each with its root's new number.
fn put_sessions(file: &[u8], head: Head, starts: &[u16], out: &mut [u8])
    requires { Laid file.now head × (2 * head.at.nodes ≤ length out.old) }
    ensures { out.new ≡ sets out.old (2 * head.at.sessions) (bytes_of (session_words (sessions_from starts.now (contents_at file.now head).sessions))) }
{
    for n in 1..=head.count.sessions {
        let it = session(file, head, n);
        put_session(
            out,
            head,
            n,
            Session {
                root: renamed(starts, it.root),
                ..it
            },
        );
    }
}

// A head with another number of nodes: no section stands after them.
fn with_nodes(head: Head, nodes: u16) -> Head
    ensures { result ≡ with_nodes head nodes }
{
    Head {
        count: Six {
            nodes,
            ..head.count
        },
        ..head
    }
}

// The placed file. Every other byte stays.
pub fn put_file(file: &[u8], head: Head, turns: &[u16], starts: &[u16], nodes: u16, out: &mut [u8])
    requires { Laid file.now head × (length turns.now ≡ 1025) × (length starts.now ≡ 1025)
        × (nodes ≡ sizes_of (turns_in turns.now head.count.nodes)) × (nodes ≤ 1024) × (length_for head.at.nodes nodes ≤ length out.old) × (28 ≤ length out.old) }
    ensures { out.new ≡ sets out.old 0 (encoded head.version (placed_contents (contents_at file.now head) (turns_in turns.now head.count.nodes) starts.now)) }
{
    let whole = with_nodes(head, nodes);
    put_head(out, whole);
    put_tables(file, head, out);
    put_sessions(file, head, starts, out);
    put_groups(file, head, whole, turns, starts, out);
}
