// Grants: which roles permit a step on a kind.
ghost use Rattle.std.specs.Prelude.{◌≡◌, true, not, ◌↔◌, ◌-◌, ◌≤◌, eqb, length, get_or, replicate};
ghost use Rattle.std.specs.Int.Bits.{bit_and};
ghost use Rattle.format.specs.Header.{Laid};
ghost use Rattle.format.specs.Contents.{Contents, contents_at};
ghost use Rattle.rules.specs.Schema.{Schema, granted, schema_of, permits, permitting_to, Permitted, ThosePermitting};
ghost use Rattle.rules.specs.Kept.{grants_from, joins, joined, add_role, RoleIn, Beyond, Granting};
ghost use Rattle.rules.specs.declared.Way.TheVariants.{Sends, Receives};

use super::Way;
use format::words::narrow;
use format::{Head, Role, sections};
use masks::{ChannelKind, UserRole, has_kind, with_role};

fn granted_by(way: Way, it: Role) -> u32
    ensures { result ≡ granted way it }
{
    match way {
        Way::Sends => it.sends,
        Way::Receives => it.receives,
    }
}

// Whether a user's role, whose record and juniors are at hand, permits sending, or receiving, on a channel's kind, by the lower roles that do: each
// entry of the tables is decided by it.
fn role_permits(
    it: Role,
    juniors: u16,
    lower: u16,
    way: Way,
    role: UserRole,
    kind: ChannelKind,
) -> bool
    ensures { (result ≡ joins (granted way it) juniors lower kind.0)
        × ((C : Contents) → RoleIn C role.0 it juniors → lower ≡ permitting_to (schema_of C) way kind (role.0 - 1) → result ≡ permits (schema_of C) way role kind) }
{
    has_kind(granted_by(way, it), kind) | ((lower & juniors) != 0)
}

// One such entry, with the role where it permits.
fn joined(lower: u16, it: Role, juniors: u16, way: Way, role: UserRole, kind: ChannelKind) -> u16
    requires { role.0 ≤ 16 }
    ensures { result ≡ joined (granted way it) juniors role.0 kind.0 lower }
{
    if role_permits(it, juniors, lower, way, role, kind) {
        return with_role(lower, role);
    }
    lower
}

// One role more in the masks for the kinds 0 to 32, where the role's record permits it or a junior of it is in the mask. Both ways in one walk, upward
// and of a fixed length: the compiler then does eight kinds at once, and asks no mask for juniors in version 1.
fn add_role(sends: &mut [u16], receives: &mut [u16], role: UserRole, it: Role, juniors: u16)
    requires { (role.0 ≤ 16) × (length sends.old ≡ 33) × (length receives.old ≡ 33) }
    ensures { (sends.new ≡ add_role (granted Sends it) juniors role.0 0 sends.old)
        × (receives.new ≡ add_role (granted Receives it) juniors role.0 0 receives.old) }
{
    for k in 0..33 {
        let kind = ChannelKind(narrow(k));
        sends[k] = joined(sends[k], it, juniors, Way::Sends, role, kind);
        receives[k] = joined(receives[k], it, juniors, Way::Receives, role, kind);
    }
}

// The masks of the roles that permit sending, and receiving, on the kinds 0 to 32. Juniors have lower numbers, so that one pass, lower roles first,
// sees every chain of them.
pub fn fill_grants(file: &[u8], head: Head, sends: &mut [u16], receives: &mut [u16])
    requires { Laid file.now head × (length sends.old ≡ 33) × (length receives.old ≡ 33) × (sends.old ≡ replicate (length sends.old) 0) × (receives.old ≡ replicate (length receives.old) 0) }
    ensures { (sends.new ≡ grants_from (schema_of (contents_at file.now head)) Sends 0 (length sends.old))
        × (receives.new ≡ grants_from (schema_of (contents_at file.now head)) Receives 0 (length receives.old))
        × Beyond (schema_of (contents_at file.now head)) Sends (schema_of (contents_at file.now head)).roles × Beyond (schema_of (contents_at file.now head)) Receives (schema_of (contents_at file.now head)).roles }
{
    for i in 0..head.count.roles {
        let n = i + 1;
        let it = sections::role(file, head, n);
        let juniors = sections::juniors(file, head, n);
        add_role(sends, receives, UserRole(n), it, juniors);
    }
}

// The one lookup of a grant, in the check, in placing and in runs: of a user's roles those that permit a step on a channel's kind, from the table that
// has them by kind. No role has a kind past it.
pub fn permitting(table: &[u16], roles: u16, kind: ChannelKind) -> u16
    ensures { (result ≡ bit_and roles (get_or table.now kind.0 0))
        × ((D : Schema) (way : Way) → Granting D way table.now → ThosePermitting D way roles kind result) }
{
    let k = usize::from(kind.0);
    if k < table.len() {
        return roles & table[k];
    }
    0
}

// Whether one of them does.
pub fn may(table: &[u16], roles: u16, kind: ChannelKind) -> bool
    ensures { (result ≡ not (eqb (bit_and roles (get_or table.now kind.0 0)) 0))
        × ((D : Schema) (way : Way) → Granting D way table.now → (result ≡ true) ↔ Permitted D roles way kind.0) }
{
    permitting(table, roles, kind) != 0
}
