// A quicker look for 8: one pass in order, which tells whether anything is refused, and not where.
ghost use Rattle.std.specs.Prelude.{◌≡◌, cond, not, ◌&&◌, ◌+◌, ◌/◌, ◌%◌, ◌<◌, eqb, leb, length};
ghost use Rattle.format.specs.Header.{Laid};
ghost use Rattle.format.specs.Contents.{contents_at};
ghost use Rattle.trees.specs.Shape.{binds, unused_fit, shape_answer};

use super::shape::{binds_one, bound_below, used_by};
use format::sections::{node, session};
use format::words::{narrow, paired};
use format::{Head, Node};

// The number that names a tree that waits, and the variables bound above it, as one number on the stack.
fn named(w: u32) -> u16
    ensures { result ≡ w % 65536 }
{
    (w % 65536) as u16
}

fn bound_above(w: u32) -> u16
    ensures { result ≡ w / 65536 }
{
    (w / 65536) as u16
}

// What has to be 0 for a node to fit: nothing where it fits anyway.
fn left_over(fits: bool, rest: u16) -> usize
    ensures { (result ≡ cond fits 0 rest) × (result < 65536) }
{
    if fits {
        return 0;
    }
    usize::from(rest)
}

// Whether a node with one child fits, where so many variables are bound above it. An eighth of these is 0 exactly where there is room for one more. All that has
// to be 0 is one sum, which is compiled without a branch by the tag: that would be guessed wrong too often.
fn goes_on(n: Node, bound: u16) -> bool
    ensures { result ≡ ((leb n.tag 8 && unused_fit n) && not (binds n.tag && leb 8 bound)) }
{
    let k = used_by(n.tag);
    let first = left_over(0 < k, n.f1);
    let second = left_over(1 < k, n.f2);
    let full = left_over(!binds_one(n.tag), bound / 8);
    (n.tag <= 8) & (first + second + full == 0)
}

// The nodes in order. The stack has the trees that wait, each with the number that names it, and below them all the number after the last node;
// it has room for the sessions and for as many forks as there are nodes. An end is followed by the tree on top.
fn sound_by(file: &[u8], head: Head, stack: &mut [u32]) -> bool
    requires { Laid file.now head × (head.count.sessions + head.count.nodes < length stack.old) }
    ensures { result ≡ eqb (shape_answer (contents_at file.now head)).number 0 }
{
    let nodes = head.count.nodes;
    let sessions = usize::from(head.count.sessions);
    stack[0] = paired(nodes + 1, 0);
    for i in 0..sessions {
        let it = session(file, head, narrow(sessions - i));
        stack[i + 1] = paired(it.root, 0);
    }
    let mut depth = sessions;
    if named(stack[depth]) != 1 {
        return false;
    }
    let mut bound: u16 = 0;
    for i in 0..nodes {
        let n = i + 1;
        let it = node(file, head, n);
        let tag = it.tag;
        match tag {
            0 => {
                if !((it.f1 == 0) & (it.f2 == 0)) {
                    return false;
                }
                if depth == 0 {
                    return false;
                }
                depth -= 1;
                let next = stack[depth];
                if named(next) != n + 1 {
                    return false;
                }
                bound = bound_above(next);
            }
            1 => {
                if it.f2 != 0 {
                    return false;
                }
                stack[depth] = paired(it.f1, bound);
                depth += 1;
            }
            _ => {
                if !goes_on(it, bound) {
                    return false;
                }
                bound = bound_below(tag, bound);
            }
        }
    }
    depth == 0
}

// Whether 8 refuses nothing. Most files are short, and need a shorter stack.
pub fn sound_shape(file: &[u8], head: Head) -> bool
    requires { Laid file.now head }
    ensures { result ≡ eqb (shape_answer (contents_at file.now head)).number 0 }
{
    if head.count.nodes <= 64 {
        let mut stack = [0u32; 97];
        return sound_by(file, head, &mut stack);
    }
    if head.count.nodes <= 256 {
        let mut stack = [0u32; 289];
        return sound_by(file, head, &mut stack);
    }
    let mut stack = [0u32; 1057];
    sound_by(file, head, &mut stack)
}
