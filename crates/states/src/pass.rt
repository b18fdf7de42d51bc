// Both ways over the nodes, each with a stack. Below a stack's values is one more, 0.
ghost use Rattle.std.specs.Prelude.{◌≡◌, cond, [], map, ◌++◌, ◌≤◌, ◌<◌, eqb, length, get_or, drop};
ghost use Rattle.std.proofs.lemmas.List.Edits.{sets};
ghost use Rattle.format.specs.Header.{Laid};
ghost use Rattle.format.specs.Contents.{contents_at};
ghost use Rattle.states.specs.States.{labelled, packed};
ghost use Rattle.states.specs.Kept.{powers, kept_all, no_saving, state_after, followed};

use super::costs::keep;
use format::Head;
use format::sections::node_tag;
use format::words::narrow;

// One of three, by what a tag has below it: nothing, two trees, one.
fn by_tag(tag: u16, none: usize, two: usize, one: usize) -> usize
    ensures { result ≡ cond (eqb tag 0) none (cond (eqb tag 1) two one) }
{
    match tag {
        0 => none,
        1 => two,
        _ => one,
    }
}

// From the right: the stack has the rows of the trees that follow, but for the first.
pub fn decide(
    file: &[u8],
    head: Head,
    roles: &[u16],
    bits: &[u16; 16],
    stack: &mut [[u16; 16]],
    words: &mut [u32],
)
    requires { Laid file.now head × (length roles.now ≡ 1025) × (bits.now ≡ powers) × (head.count.nodes < length stack.old) × (head.count.nodes ≤ length words.old) × (get_or stack.old 0 no_saving ≡ no_saving) }
    ensures { words.new ≡ kept_all (labelled (contents_at file.now head).nodes (drop 1 roles.now)) ++ drop head.count.nodes words.old }
{
    let mut depth: usize = 0;
    let mut row = [0u16; 16];
    for i in (0..usize::from(head.count.nodes)).rev() {
        let tag = node_tag(file, head, narrow(i + 1));
        let two = stack[depth];
        let it = keep(tag, roles[i + 1], &row, &two, bits);
        stack[depth + 1] = row;
        depth = by_tag(tag, depth + 1, depth.saturating_sub(1), depth);
        row = it.row;
        words[i] = it.word;
    }
}

// The state after the parent's.
fn state_after(word: u32, p: u16) -> u16
    requires { p ≤ 31 }
    ensures { (result ≡ state_after word p) × (result ≤ 31) }
{
    if (word >> p) % 2 == 1 {
        return p;
    }
    (word / 131072 % 32) as u16
}

// From the left: the stack has the states above the trees that wait, but for the next.
pub fn follow(file: &[u8], head: Head, words: &[u32], stack: &mut [u16], turns: &mut [u16])
    requires { Laid file.now head × (head.count.nodes ≤ length words.now) × (head.count.nodes < length stack.old) × (length turns.old ≡ 1025) × (get_or stack.old 0 0 ≡ 0) }
    ensures { turns.new ≡ sets turns.old 1 (map packed (followed (contents_at file.now head).nodes words.now [])) }
{
    let mut depth: usize = 0;
    let mut from: u16 = 0;
    for i in 0..usize::from(head.count.nodes) {
        let to = state_after(words[i], from);
        let tag = node_tag(file, head, narrow(i + 1));
        turns[i + 1] = from + 256 * to;
        // After an end, the state above the next node is one that waits.
        let waits = stack[depth];
        from = if tag == 0 { waits } else { to };
        stack[depth + 1] = to;
        depth = by_tag(tag, depth.saturating_sub(1), depth + 1, depth);
    }
}
