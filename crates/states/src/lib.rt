// The state of each node: the costs of the trees from the right, the states from the left.
#![tactic(auto)]

mod costs;
mod pass;

ghost use Rattle.std.specs.Prelude.{◌≡◌, map, ◌≤◌, ◌<◌, length, drop};
ghost use Rattle.std.proofs.lemmas.List.Edits.{sets};
ghost use Rattle.format.specs.Header.{Laid};
ghost use Rattle.format.specs.Contents.{contents_at};
ghost use Rattle.states.specs.States.{labelled, turns_of, packed};
ghost use Rattle.states.specs.Kept.{Served};

use costs::lane_bits;
use format::Head;
use pass::{decide, follow};

// What becomes of a node: the state of its parent, 0 above a root, and its own. 0 is no role.
#[derive(Clone, Copy)]
pub struct Turn {
    pub from: u16,
    pub to: u16,
}

// The turns, with tables of a length: clearing those for all nodes costs as much as placing a small file.
fn with_room<const ROOM: usize>(file: &[u8], head: Head, roles: &[u16], turns: &mut [u16])
    requires { Laid file.now head × (head.count.nodes < ROOM) × (ROOM ≤ 1025) × (length roles.now ≡ 1025) × (length turns.old ≡ 1025)
        × Served (labelled (contents_at file.now head).nodes (drop 1 roles.now)) }
    ensures { turns.new ≡ sets turns.old 1 (map packed (turns_of (labelled (contents_at file.now head).nodes (drop 1 roles.now)))) }
{
    let mut rows = [[0u16; 16]; ROOM];
    let mut kept = [0u32; ROOM];
    let mut waiting = [0u16; ROOM];
    let bits = lane_bits();
    decide(file, head, roles, &bits, &mut rows, &mut kept);
    follow(file, head, &kept, &mut waiting, turns);
}

// The turn of each node, at its number.
pub fn turns(file: &[u8], head: Head, roles: &[u16], turns: &mut [u16])
    requires { Laid file.now head × (length roles.now ≡ 1025) × (length turns.old ≡ 1025)
        × Served (labelled (contents_at file.now head).nodes (drop 1 roles.now)) }
    ensures { turns.new ≡ sets turns.old 1 (map packed (turns_of (labelled (contents_at file.now head).nodes (drop 1 roles.now)))) }
{
    if head.count.nodes <= 64 {
        with_room::<65>(file, head, roles, turns);
    } else {
        with_room::<1025>(file, head, roles, turns);
    }
}
