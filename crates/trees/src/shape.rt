// Refusal 8: nodes in preorder, a tree for each session.
ghost use Rattle.std.specs.Prelude.{◌≡◌, Bool, true, false, ℕ, ◌+◌, ◌*◌, ◌<◌, length};
ghost use Rattle.format.specs.Header.{Laid};
ghost use Rattle.format.specs.Contents.{contents_at};
ghost use Rattle.trees.specs.Ends.{table_of};
ghost use Rattle.trees.specs.Shape.{bound_of, root_fits, binds, used, unused_fit, second_fits, node_fits, bound_below, depth_after, shape_answer};

use super::Due;
use super::ends::ends;
use super::sound::sound_shape;
use format::sections::{node, session};
use format::words::narrow;
use format::{Head, Node, Verdict};

// The variables bound on the path to a tree that is due.
fn bound_of(d: Due) -> u16
    ensures { result ≡ bound_of d }
{
    match d {
        Due::Root(_) => 0,
        Due::Child(b) => b,
    }
}

// A session's root is the node due.
fn root_fits(i: u16, d: Due) -> bool
    ensures { result ≡ root_fits i d }
{
    match d {
        Due::Root(root) => root == i,
        Due::Child(_) => true,
    }
}

// Tags 3 and 5 bind a variable.
pub fn binds_one(tag: u16) -> bool
    ensures { result ≡ binds tag }
{
    (tag == 3) | (tag == 5)
}

// How many of its two fields a tag uses.
pub fn used_by(tag: u16) -> u16
    ensures { result ≡ used tag }
{
    if (tag == 0) | (tag == 2) {
        return 0;
    }
    if (tag == 4) | (tag == 6) {
        return 2;
    }
    1
}

fn unused_fit(n: Node) -> bool
    ensures { result ≡ unused_fit n }
{
    let k = used_by(n.tag);
    ((0 < k) | (n.f1 == 0)) & ((1 < k) | (n.f2 == 0))
}

// A fork's f1 is the end of its first child's tree, if that tree can be followed.
fn second_fits(n: Node, e: u16) -> bool
    ensures { result ≡ second_fits n e }
{
    !(n.tag == 1) | ((e == 0) | (n.f1 == e))
}

fn node_fits(i: u16, n: Node, d: Due, e: u16) -> bool
    ensures { result ≡ node_fits i n d e }
{
    root_fits(i, d)
        & (n.tag <= 8)
        & unused_fit(n)
        & second_fits(n, e)
        & (!binds_one(n.tag) | (bound_of(d) < 8))
}

// The variables bound below a node.
pub fn bound_below(tag: u16, b: u16) -> u16
    requires { binds tag ≡ true → b < 8 }
    ensures { result ≡ bound_below tag b }
{
    if binds_one(tag) {
        return b + 1;
    }
    b
}

// How many trees are due after a node: an end has no child, a fork two.
fn depth_after(tag: u16, depth: usize) -> usize
    requires { (0 < depth) × (depth < 4000) }
    ensures { result ≡ depth_after tag depth }
{
    if tag == 0 {
        return depth - 1;
    }
    if tag == 1 {
        return depth + 1;
    }
    depth
}

// The first node at which the trees go wrong. Of the stack as many are in use as there are trees due, the next one last.
fn walk(file: &[u8], head: Head, ends: &[u16]) -> Verdict
    requires { Laid file.now head × (ends.now ≡ table_of (contents_at file.now head).nodes) }
    ensures { result ≡ shape_answer (contents_at file.now head) }
{
    let mut stack = [Due::Child(0); 1057];
    let sessions = usize::from(head.count.sessions);
    for i in 0..sessions {
        let it = session(file, head, narrow(sessions - i));
        stack[i] = Due::Root(it.root);
    }
    let mut depth = sessions;
    let nodes = head.count.nodes;
    for i in 0..nodes {
        let n = i + 1;
        if depth == 0 {
            return Verdict {
                number: 8,
                place: n,
            };
        }
        let due = stack[depth - 1];
        let it = node(file, head, n);
        if !node_fits(n, it, due, ends[usize::from(n) + 1]) {
            return Verdict {
                number: 8,
                place: n,
            };
        }
        let child = Due::Child(bound_below(it.tag, bound_of(due)));
        stack[depth - 1] = child;
        stack[depth] = child;
        depth = depth_after(it.tag, depth);
    }
    if depth == 0 {
        return Verdict::FINE;
    }
    Verdict {
        number: 8,
        place: nodes + 1,
    }
}

// 8, with a table of the trees' ends lent to work in.
fn shape_by(file: &[u8], head: Head, table: &mut [u16]) -> Verdict
    requires { Laid file.now head × (length table.old ≡ head.count.nodes + 2) }
    ensures { result ≡ shape_answer (contents_at file.now head) }
{
    ends(file, head, table);
    walk(file, head, table)
}

// 8, at the lowest place. The quicker look comes first, since most files have nothing wrong.
pub fn shape(file: &[u8], head: Head) -> Verdict
    requires { Laid file.now head }
    ensures { result ≡ shape_answer (contents_at file.now head) }
{
    if sound_shape(file, head) {
        return Verdict::FINE;
    }
    let mut table = [0u16; 1026];
    let n = usize::from(head.count.nodes);
    shape_by(file, head, &mut table[..n + 2])
}
