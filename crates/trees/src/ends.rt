// Where each node's tree ends, by tags alone.
ghost use Rattle.std.specs.Prelude.{◌≡◌, ℕ, ◌+◌, ◌<◌, length};
ghost use Rattle.format.specs.Header.{Laid};
ghost use Rattle.format.specs.Contents.{contents_at};
ghost use Rattle.trees.specs.Ends.{end_of, table_of};

use format::Head;
use format::sections::node_tag;
use format::words::narrow;

// The end of a node's tree, from the next number, its child's end, and the end of the tree after its child.
fn end_of(tag: u16, next: u16, one: u16, two: u16) -> u16
    ensures { result ≡ end_of tag next one two }
{
    if tag == 0 {
        return next;
    }
    if tag == 1 {
        return two;
    }
    if tag <= 8 {
        return one;
    }
    0
}

// The end of each node's tree, at the node's number; 0 where it cannot be followed, and at 0 and past the last node.
pub fn ends(file: &[u8], head: Head, ends: &mut [u16])
    requires { Laid file.now head × (length ends.old ≡ head.count.nodes + 2) }
    ensures { ends.new ≡ table_of (contents_at file.now head).nodes }
{
    let n = usize::from(head.count.nodes);
    ends[0] = 0;
    ends[n + 1] = 0;
    for i in (1..=n).rev() {
        let tag = node_tag(file, head, narrow(i));
        let one = ends[i + 1];
        let two = ends[usize::from(one)];
        ends[i] = end_of(tag, narrow(i + 1), one, two);
    }
}
