// The pass over the nodes, which finds 9 to 13 and each node's candidates.
ghost use Rattle.std.specs.Prelude.{◌≡◌, [], map, ◌+◌, ◌≤◌, ◌<◌, length};
ghost use Rattle.std.proofs.lemmas.List.Edits.{sets};
ghost use Rattle.format.specs.Header.{Laid};
ghost use Rattle.format.specs.Contents.{contents_at};
ghost use Rattle.rules.specs.Schema.{schema_of};
ghost use Rattle.rules.specs.Checking.{openings, judgement};
ghost use Rattle.rules.specs.Candidates.{candidates_in};
ghost use Rattle.rules.specs.Kept.{Granting, NameTable, packing, unpacking, context_of, waiting, Waits, Given, Owned, answer_at};
ghost use Rattle.rules.specs.declared.Way.TheVariants.{Sends, Receives};

use super::grants::fill_grants;
use super::names::name_all;
use super::steps::step_at;
use super::{Judged, Point};
use format::answers::or_else;
use format::sections::{node, session, user_roles};
use format::words::narrow;
use format::{Head, Verdict};

// A context as one number, and read back.
fn packed(it: Point) -> u64
    ensures { (result ≡ packing it) × (unpacking result ≡ it) }
{
    (it.user as u64)
        + (65536 * (it.assigned as u64)
            + (4294967296 * (it.mask as u64) + 281474976710656 * (it.bound as u64)))
}

fn unpacked(w: u64) -> Point
    ensures { result ≡ unpacking w }
{
    Point {
        user: (w % 65536) as u16,
        assigned: (w / 65536 % 65536) as u16,
        mask: (w / 4294967296 % 65536) as u16,
        bound: (w / 281474976710656) as u16,
    }
}

// The sessions' contexts on the stack, session 1 on top, and how many they are.
fn open_sessions(file: &[u8], head: Head, stack: &mut [u64]) -> usize
    requires { Laid file.now head × Owned (contents_at file.now head) × (head.count.sessions ≤ length stack.old) }
    ensures { (result ≡ head.count.sessions) × Waits (Given (schema_of (contents_at file.now head))) 0 (waiting stack.new result)
        × (map (context_of []) (waiting stack.new result) ≡ openings (contents_at file.now head)) }
{
    let sessions = usize::from(head.count.sessions);
    for depth in 0..sessions {
        let it = session(file, head, narrow(sessions - depth));
        let assigned = user_roles(file, head, it.user);
        stack[depth] = packed(Point {
            user: it.user,
            assigned,
            mask: it.mask,
            bound: 0,
        });
    }
    sessions
}

// A node's refusal as an answer.
fn answer_at(number: u16, i: u16) -> Verdict
    ensures { result ≡ answer_at number i }
{
    if number == 0 {
        return Verdict::FINE;
    }
    Verdict { number, place: i }
}

// The nodes in order, each in its context; those of the nodes that wait are on the stack. The variables on the path to a node stand in the table of
// names from 512 on: a branch writes only past those of its fork. There is room for as many as there are nodes, and on the stack for the sessions and
// as many forks, so that nothing is asked of the trees.
fn walk(
    file: &[u8],
    head: Head,
    sends: &[u16],
    receives: &[u16],
    names: &mut [u32],
    stack: &mut [u64],
    roles: &mut [u16],
) -> Judged
    requires { Laid file.now head × Owned (contents_at file.now head) × Granting (schema_of (contents_at file.now head)) Sends sends.now × Granting (schema_of (contents_at file.now head)) Receives receives.now
        × (512 + head.count.nodes < length names.old) × NameTable (schema_of (contents_at file.now head)) head.count.users head.count.channels names.old
        × (head.count.sessions + head.count.nodes ≤ length stack.old) × (length roles.old ≡ 1025) }
    ensures { (result ≡ judgement (contents_at file.now head)) × (roles.new ≡ sets roles.old 1 (candidates_in (contents_at file.now head))) }
{
    let fine = Verdict::FINE;
    let mut depth = open_sessions(file, head, stack);
    if depth == 0 {
        return Judged {
            names: fine,
            roles: fine,
        };
    }
    depth -= 1;
    let mut here = unpacked(stack[depth]);
    let mut first = fine;
    for n in 0..head.count.nodes {
        let i = n + 1;
        let it = node(file, head, i);
        let tag = it.tag;
        match tag {
            0 => {
                roles[usize::from(i)] = here.assigned;
                if depth == 0 {
                    return Judged {
                        names: fine,
                        roles: first,
                    };
                }
                depth -= 1;
                here = unpacked(stack[depth]);
            }
            1 => {
                roles[usize::from(i)] = here.assigned;
                stack[depth] = packed(here);
                depth += 1;
            }
            _ => {
                let step = step_at(file, head, sends, receives, names, here, it);
                if step.wrong != 0 {
                    return Judged {
                        names: answer_at(step.wrong, i),
                        roles: fine,
                    };
                }
                first = or_else(first, answer_at(step.barred, i));
                roles[usize::from(i)] = step.roles;
                names[512 + usize::from(here.bound)] = step.binding;
                here = step.child;
            }
        }
    }
    Judged {
        names: fine,
        roles: first,
    }
}

// The same, with tables of grants and of names and a stack to work in, of sizes that fit the file.
fn judge_in<const NAMES: usize, const STACK: usize>(
    file: &[u8],
    head: Head,
    roles: &mut [u16],
) -> Judged
    requires { Laid file.now head × Owned (contents_at file.now head) × (512 + head.count.nodes < NAMES) × (NAMES ≤ 1537)
        × (head.count.sessions + head.count.nodes ≤ STACK) × (STACK ≤ 1057) × (length roles.old ≡ 1025) }
    ensures { (result ≡ judgement (contents_at file.now head)) × (roles.new ≡ sets roles.old 1 (candidates_in (contents_at file.now head))) }
{
    let mut sends = [0u16; 33];
    let mut receives = [0u16; 33];
    let mut names = [0u32; NAMES];
    let mut stack = [0u64; STACK];
    fill_grants(file, head, &mut sends, &mut receives);
    name_all(file, head, &mut names);
    walk(file, head, &sends, &receives, &mut names, &mut stack, roles)
}

// 9 and 10, and where these refuse nothing 11 to 13, each at its lowest node. As far as 9 and 10 refuse nothing, each node's candidates are stored:
// the roles of the session's user that it may be given by placing. Most files are short, and need shorter tables.
pub fn judge(file: &[u8], head: Head, roles: &mut [u16]) -> Judged
    requires { Laid file.now head × Owned (contents_at file.now head) × (length roles.old ≡ 1025) }
    ensures { (result ≡ judgement (contents_at file.now head)) × (roles.new ≡ sets roles.old 1 (candidates_in (contents_at file.now head))) }
{
    if head.count.nodes <= 64 {
        return judge_in::<577, 97>(file, head, roles);
    }
    judge_in::<1537, 1057>(file, head, roles)
}
