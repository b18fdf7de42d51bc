// What is asked of a node, as one number: the session's user, how many variables are bound, their kinds, and of a receive the kind of its channel.
ghost use Rattle.std.specs.Prelude.{◌≡◌, true, cond, ◌+◌, ◌%◌, ◌^◌, ◌≤◌, eqb, set};
ghost use Rattle.rules.specs.Kept.{kind_in};
ghost use Rattle.naming.specs.Scopes.{bound_in, kind_at, bind_scope, awaited_in, marked, awaited_by};

use super::NameStep;
use masks::ChannelKind;
use rules::names::kind_of;

// How many variables are bound.
pub fn bound_in(w: u64) -> u64
    ensures { result ≡ bound_in w }
{
    w / 64 % 16
}

// The kind of the variable of an index.
pub fn kind_at(w: u64, i: u64) -> ChannelKind
    requires { i ≤ 8 }
    ensures { result.0 ≡ kind_at w i }
{
    ChannelKind(((w >> (10 + 6 * i)) % 64) as u16)
}

// One variable more; none is added to eight.
fn bind(w: u64, kind: ChannelKind) -> u64
    ensures { result ≡ bind_scope w kind.0 }
{
    let bound = bound_in(w);
    if bound < 8 {
        return w % 288230376151711744 + 64 + (((kind.0 % 64) as u64) << (10 + 6 * bound));
    }
    w
}

// What a step leaves to the node's child, where so many variables are bound at the node; of no account where it is not wanted.
pub fn scope_after(w: u64, bound: u16, step: NameStep, wanted: bool) -> u64
    ensures { wanted ≡ true → result ≡ cond (eqb step.bound bound) w (bind_scope w (kind_in step.binding)) }
{
    if !wanted {
        return w;
    }
    if step.bound == bound {
        return w;
    }
    bind(w, kind_of(step.binding))
}

// With the kind that a thread there waits for above the rest.
fn marked(w: u64, kind: ChannelKind) -> u64
    ensures { result ≡ marked w kind.0 }
{
    w % 288230376151711744 + ((kind.0 % 64) as u64) * 288230376151711744
}

// A node in its context, which is w, and the kind that a thread there waits for: stored at its number, if there is room.
pub fn keep(scopes: &mut [u64], at: usize, w: u64, kind: ChannelKind)
    ensures { scopes.new ≡ set scopes.old at (marked w kind.0) }
{
    if at < scopes.len() {
        scopes[at] = marked(w, kind);
    }
}

// Without that kind.
pub fn scope_in(w: u64) -> u64
    ensures { result ≡ w % 2 ^ 58 }
{
    w % 288230376151711744
}

// The kind that a thread at a node waits for: that of the receive's channel, 0 where the node is no receive or out of the table.
pub fn awaited_by(table: &[u64], node: u16) -> ChannelKind
    ensures { result.0 ≡ awaited_by table.now node }
{
    let i = usize::from(node);
    if i < table.len() {
        return ChannelKind(((table[i] >> 58) % 64) as u16);
    }
    ChannelKind(0)
}
