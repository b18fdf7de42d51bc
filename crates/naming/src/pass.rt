// The pass over the nodes that finds 9 and 10 alone: no grants, no roles, no candidates. Its tables are lent, sized by the file.
ghost use Rattle.std.specs.Prelude.{◌≡◌, [], map, ◌+◌, ◌/◌, ◌%◌, ◌≤◌, ◌<◌, length, replicate};
ghost use Rattle.std.proofs.lemmas.List.Edits.{sets};
ghost use Rattle.format.specs.Header.{Laid};
ghost use Rattle.format.specs.Contents.{contents_at};
ghost use Rattle.format.specs.Stacks.{stacked};
ghost use Rattle.rules.specs.Schema.{schema_of};
ghost use Rattle.rules.specs.Checking.{openings, names_answer};
ghost use Rattle.naming.specs.Scopes.{scope_of, scopes_in};
ghost use Rattle.rules.specs.Kept.{kind_in, entry, look, context_of, Waits, unmasked, Ownable, Owned};
ghost use Rattle.naming.specs.Kept.{queued, naming_of};

use super::NameStep;
use super::scopes::{keep, scope_after};
use format::sections::{carries, in_count, node, session};
use format::words::{narrow, paired};
use format::{Head, Node, Verdict};
use masks::ChannelKind;
use rules::names::{graded, kind_of, look_up, name_all, owner_of};

fn staying(wrong: u16, bound: u16) -> NameStep
    ensures { result ≡ record { wrong = wrong; binding = 0; bound = bound; awaits = 0 } }
{
    NameStep {
        wrong,
        binding: 0,
        bound,
        awaits: 0,
    }
}

fn binding(wrong: u16, kind: ChannelKind, owner: u16, bound: u16, awaits: u16) -> NameStep
    requires { bound < 65535 }
    ensures { result ≡ record { wrong = wrong; binding = entry kind.0 owner; bound = bound + 1; awaits = awaits } }
{
    NameStep {
        wrong,
        binding: paired(kind.0, owner),
        bound: bound + 1,
        awaits,
    }
}

// A node that is no end and no fork, in a session of a user, where so many variables are bound.
fn naming_at(file: &[u8], head: Head, names: &[u32], user: u16, bound: u16, it: Node) -> NameStep
    requires { Laid file.now head × (user < 65534) × (bound < 65535) × (512 + bound ≤ length names.now) }
    ensures { (result ≡ naming_of (schema_of (contents_at file.now head)) names.now user bound it)
        × (it.tag ≡ 5 → (schema_of (contents_at file.now head)).carries (kind_in (look names.now bound it.f1)) < 65536) }
{
    let tag = it.tag;
    match tag {
        2 => staying(0, bound),
        3 => binding(
            graded(in_count(head.count.kinds, it.f1), true),
            ChannelKind(it.f1),
            user + 2,
            bound,
            0,
        ),
        4 => {
            let one = look_up(names, bound, it.f1);
            let other = look_up(names, bound, it.f2);
            let named = (owner_of(one) != 0) & (owner_of(other) != 0);
            staying(graded(named, kind_of(one).0 == kind_of(other).0), bound)
        }
        5 => {
            let on = look_up(names, bound, it.f1);
            let owner = owner_of(on);
            let kind = kind_of(on);
            binding(
                graded(owner != 0, owner == user + 2),
                carries(file, head, kind),
                1,
                bound,
                kind.0,
            )
        }
        6 => {
            let on = look_up(names, bound, it.f1);
            let value = look_up(names, bound, it.f2);
            let kind = kind_of(on);
            let named = (owner_of(on) != 0) & (owner_of(value) != 0);
            let carried = (0 < kind.0) & (kind_of(value).0 == carries(file, head, kind).0);
            staying(graded(named, carried), bound)
        }
        _ => staying(graded(in_count(head.count.roles, it.f1), true), bound),
    }
}

// Of a tree that waits, the user and how many variables are bound above it.
fn user_in(w: u32) -> u16
    ensures { result ≡ w % 65536 }
{
    (w % 65536) as u16
}

fn bound_with(w: u32) -> u16
    ensures { result ≡ w / 65536 }
{
    (w / 65536) as u16
}

// The sessions' users on the stack, session 1's on top, with nothing bound, and beside it each as one number; how many they are.
fn open_users(file: &[u8], head: Head, stack: &mut [u32], waits: &mut [u64]) -> usize
    requires { Laid file.now head × Owned (contents_at file.now head) × (head.count.sessions ≤ length stack.old) × (head.count.sessions ≤ length waits.old) }
    ensures { (result ≡ head.count.sessions) × Waits Ownable 0 (queued (schema_of (contents_at file.now head)) stack.new result)
        × (map (context_of []) (queued (schema_of (contents_at file.now head)) stack.new result) ≡ map unmasked (openings (contents_at file.now head)))
        × (stacked 0 waits.new result ≡ map scope_of (map unmasked (openings (contents_at file.now head)))) }
{
    let sessions = usize::from(head.count.sessions);
    for depth in 0..sessions {
        let it = session(file, head, narrow(sessions - depth));
        stack[depth] = paired(it.user, 0);
        waits[depth] = (it.user % 64) as u64;
    }
    sessions
}

// The nodes in order. The stack has the users of the trees that wait, with the variables bound above them, and the one beside it what these are as
// one number; both have room for the sessions and for as many forks as there are nodes, and the table of names for as many variables.
fn walk_names(
    file: &[u8],
    head: Head,
    names: &mut [u32],
    stack: &mut [u32],
    waits: &mut [u64],
    scopes: &mut [u64],
) -> Verdict
    requires { Laid file.now head × Owned (contents_at file.now head) × (512 + head.count.nodes < length names.old) × (names.old ≡ replicate (length names.old) 0)
        × (head.count.sessions + head.count.nodes ≤ length stack.old) × (head.count.sessions + head.count.nodes ≤ length waits.old) }
    ensures { (result ≡ names_answer (contents_at file.now head)) × (scopes.new ≡ sets scopes.old 1 (scopes_in (contents_at file.now head))) }
{
    let fine = Verdict::FINE;
    name_all(file, head, names);
    let mut depth = open_users(file, head, stack, waits);
    if depth == 0 {
        return fine;
    }
    depth -= 1;
    let top = stack[depth];
    let mut user = user_in(top);
    let mut bound = bound_with(top);
    let mut here = waits[depth];
    for n in 0..head.count.nodes {
        let i = n + 1;
        let it = node(file, head, i);
        let tag = it.tag;
        match tag {
            0 => {
                keep(scopes, usize::from(i), here, ChannelKind(0));
                if depth == 0 {
                    return fine;
                }
                depth -= 1;
                let next = stack[depth];
                user = user_in(next);
                bound = bound_with(next);
                here = waits[depth];
            }
            1 => {
                keep(scopes, usize::from(i), here, ChannelKind(0));
                stack[depth] = paired(user, bound);
                waits[depth] = here;
                depth += 1;
            }
            _ => {
                let step = naming_at(file, head, names, user, bound, it);
                if step.wrong != 0 {
                    return Verdict {
                        number: step.wrong,
                        place: i,
                    };
                }
                keep(scopes, usize::from(i), here, ChannelKind(step.awaits));
                names[512 + usize::from(bound)] = step.binding;
                here = scope_after(here, bound, step, usize::from(i) < scopes.len());
                bound = step.bound;
            }
        }
    }
    fine
}

// The same, with a table of names and stacks to work in, of sizes that fit the file.
fn judge_in<const NAMES: usize, const STACK: usize>(
    file: &[u8],
    head: Head,
    scopes: &mut [u64],
) -> Verdict
    requires { Laid file.now head × Owned (contents_at file.now head) × (512 + head.count.nodes < NAMES) × (NAMES ≤ 1537)
        × (head.count.sessions + head.count.nodes ≤ STACK) × (STACK ≤ 1057) }
    ensures { (result ≡ names_answer (contents_at file.now head)) × (scopes.new ≡ sets scopes.old 1 (scopes_in (contents_at file.now head))) }
{
    let mut names = [0u32; NAMES];
    let mut stack = [0u32; STACK];
    let mut waits = [0u64; STACK];
    walk_names(file, head, &mut names, &mut stack, &mut waits, scopes)
}

// 9 and 10, at the lowest node; what each node before it is reached with is stored from index 1 on, as far as there is room. Most files are short,
// and need shorter tables.
pub fn judge_names(file: &[u8], head: Head, scopes: &mut [u64]) -> Verdict
    requires { Laid file.now head × Owned (contents_at file.now head) }
    ensures { (result ≡ names_answer (contents_at file.now head)) × (scopes.new ≡ sets scopes.old 1 (scopes_in (contents_at file.now head))) }
{
    if head.count.nodes <= 64 {
        return judge_in::<577, 97>(file, head, scopes);
    }
    if head.count.nodes <= 256 {
        return judge_in::<769, 289>(file, head, scopes);
    }
    judge_in::<1537, 1057>(file, head, scopes)
}
