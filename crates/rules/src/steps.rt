// The rules at one node, in its context: its refusal for names, its refusal for roles, its candidates, and what it leaves to its child.
ghost use Rattle.std.specs.Prelude.{◌≡◌, ◌+◌, ◌≤◌, ◌<◌, length};
ghost use Rattle.format.specs.Header.{Laid};
ghost use Rattle.format.specs.Contents.{contents_at};
ghost use Rattle.rules.specs.Schema.{schema_of};
ghost use Rattle.rules.specs.Kept.{Granting, kind_in, look, graded, staying, binding, turning, new_step, receive_step, send_step, on_at, off_at, step_of};
ghost use Rattle.rules.specs.declared.Way.TheVariants.{Sends, Receives};

use super::grants::{may, permitting};
use super::names::{graded, kind_of, look_up, owner_of};
use super::{Point, RuleStep};
use format::sections::{carries, in_count};
use format::words::paired;
use format::{Head, Node};
use masks::{ChannelKind, UserRole, has_role, with_role, without_role};

// The child has the same context.
fn staying(here: Point, wrong: u16, barred: u16, roles: u16) -> RuleStep
    ensures { result ≡ staying here wrong barred roles }
{
    RuleStep {
        wrong,
        barred,
        roles,
        binding: 0,
        child: here,
    }
}

// The child has one variable more.
fn binding(here: Point, wrong: u16, barred: u16, roles: u16, variable: u32) -> RuleStep
    requires { here.bound < 65535 }
    ensures { result ≡ binding here wrong barred roles variable }
{
    RuleStep {
        wrong,
        barred,
        roles,
        binding: variable,
        child: Point {
            bound: here.bound + 1,
            ..here
        },
    }
}

// The child has another active set.
fn turning(here: Point, barred: u16, mask: u16) -> RuleStep
    ensures { result ≡ turning here barred mask }
{
    RuleStep {
        wrong: 0,
        barred,
        roles: here.assigned,
        binding: 0,
        child: Point { mask, ..here },
    }
}

fn new_at(head: Head, here: Point, kind: ChannelKind) -> RuleStep
    requires { (here.user < 65534) × (here.bound < 65535) }
    ensures { result ≡ new_step head.count.kinds here kind.0 }
{
    binding(
        here,
        graded(in_count(head.count.kinds, kind.0), true),
        0,
        here.assigned,
        paired(kind.0, here.user + 2),
    )
}

fn receive_at(file: &[u8], head: Head, receives: &[u16], here: Point, on: u32) -> RuleStep
    requires { Laid file.now head × (here.user < 65534) × (here.bound < 65535) × Granting (schema_of (contents_at file.now head)) Receives receives.now }
    ensures { (result ≡ receive_step (schema_of (contents_at file.now head)) here on) × ((schema_of (contents_at file.now head)).carries (kind_in on) < 65536) }
{
    let kind = kind_of(on);
    let owner = owner_of(on);
    let barred = if may(receives, here.mask, kind) {
        0
    } else {
        13
    };
    binding(
        here,
        graded(owner != 0, owner == here.user + 2),
        barred,
        permitting(receives, here.assigned, kind),
        paired(carries(file, head, kind).0, 1),
    )
}

fn send_at(file: &[u8], head: Head, sends: &[u16], here: Point, on: u32, value: u32) -> RuleStep
    requires { Laid file.now head × Granting (schema_of (contents_at file.now head)) Sends sends.now }
    ensures { result ≡ send_step (schema_of (contents_at file.now head)) here on value }
{
    let kind = kind_of(on);
    let barred = if may(sends, here.mask, kind) { 0 } else { 13 };
    staying(
        here,
        graded(
            (owner_of(on) != 0) & (owner_of(value) != 0),
            (0 < kind.0) & (kind_of(value).0 == carries(file, head, kind).0),
        ),
        barred,
        permitting(sends, here.assigned, kind),
    )
}

fn on_at(head: Head, here: Point, role: UserRole) -> RuleStep
    requires { head.count.roles ≤ 16 }
    ensures { result ≡ on_at head.count.roles here role.0 }
{
    if !in_count(head.count.roles, role.0) {
        return staying(here, 9, 0, 0);
    }
    let barred = if has_role(here.assigned, role) { 0 } else { 11 };
    turning(here, barred, with_role(here.mask, role))
}

fn off_at(head: Head, here: Point, role: UserRole) -> RuleStep
    ensures { result ≡ off_at head.count.roles here role.0 }
{
    if !in_count(head.count.roles, role.0) {
        return staying(here, 9, 0, 0);
    }
    let barred = if has_role(here.mask, role) { 0 } else { 12 };
    turning(here, barred, without_role(here.mask, role))
}

// A node that is no end and no fork.
pub fn step_at(
    file: &[u8],
    head: Head,
    sends: &[u16],
    receives: &[u16],
    names: &[u32],
    here: Point,
    it: Node,
) -> RuleStep
    requires { Laid file.now head × (here.user < 65534) × (here.bound < 65535) × (512 + here.bound ≤ length names.now) × Granting (schema_of (contents_at file.now head)) Sends sends.now × Granting (schema_of (contents_at file.now head)) Receives receives.now }
    ensures { (result ≡ step_of (schema_of (contents_at file.now head)) names.now here it)
        × (it.tag ≡ 5 → (schema_of (contents_at file.now head)).carries (kind_in (look names.now here.bound it.f1)) < 65536) }
{
    let tag = it.tag;
    match tag {
        2 => staying(here, 0, 0, here.assigned),
        3 => new_at(head, here, ChannelKind(it.f1)),
        4 => {
            let one = look_up(names, here.bound, it.f1);
            let other = look_up(names, here.bound, it.f2);
            let wrong = graded(
                (owner_of(one) != 0) & (owner_of(other) != 0),
                kind_of(one).0 == kind_of(other).0,
            );
            staying(here, wrong, 0, here.assigned)
        }
        5 => receive_at(
            file,
            head,
            receives,
            here,
            look_up(names, here.bound, it.f1),
        ),
        6 => {
            let on = look_up(names, here.bound, it.f1);
            send_at(
                file,
                head,
                sends,
                here,
                on,
                look_up(names, here.bound, it.f2),
            )
        }
        7 => on_at(head, here, UserRole(it.f1)),
        8 => off_at(head, here, UserRole(it.f1)),
        _ => staying(
            here,
            graded(in_count(head.count.roles, it.f1), true),
            0,
            here.assigned,
        ),
    }
}
