// What is lent, judged: made channels, for each counted thread its node, its user, its mask and its variables, and the totals.
ghost use Rattle.std.specs.Prelude.{◌≡◌, ◌&&◌, List, ℕ, ◌≤◌, eqb, length};
ghost use Rattle.format.specs.Header.{Laid};
ghost use Rattle.format.specs.Contents.{contents_at};
ghost use Rattle.rules.specs.Schema.{schema_of};
ghost use Rattle.rules.specs.Rules.{Context};
ghost use Rattle.naming.specs.Scopes.{scope_of};
ghost use Rattle.steps.specs.declared.Made.{Made};
ghost use Rattle.steps.specs.Choice.{kind_held};
ghost use Rattle.lending.specs.Lent.{is_value, vars_fit, thread_fits, made_fits, every};
ghost use Rattle.lending.specs.Scopes.{Scoped, Narrow};
ghost use Rattle.lending.specs.Walk.{no_tally, one_in, tally_on, tally_fits};
ghost use Rattle.steps.specs.Beside.{made_count, made_of, beside_words};

use super::Tally;
use format::Head;
use format::sections::{in_count, user_roles};
use masks::{ChannelKind, roles_within};
use naming::scopes::{awaited_by, bound_in, kind_at, scope_in};
use steps::Thread;
use steps::act::kind_held;
use steps::beside::{made_at, made_count, totals_of};

// The made channels' owners and kinds are in count.
pub fn made_fit(head: Head, beside: &[u16]) -> bool
    requires { (length beside.now ≡ beside_words) × (made_count beside.now ≤ 64) }
    ensures { (bytes : List ℕ) → result ≡ every (made_fits (schema_of (contents_at bytes head))) (made_of beside.now) }
{
    for k in 0..usize::from(made_count(beside)) {
        let it = made_at(beside, k);
        if !in_count(head.count.users, it.owner) {
            return false;
        }
        if !in_count(head.count.kinds, it.kind.0) {
            return false;
        }
    }
    true
}

// A user, a channel or a made channel.
fn is_value(head: Head, made: u16, v: u16) -> bool
    requires { (head.count.channels ≤ 64) × (made ≤ 64) }
    ensures { (bytes : List ℕ) (them : List Made) → length them ≡ made → result ≡ is_value (schema_of (contents_at bytes head)) them v }
{
    if in_count(head.count.users, v) {
        return true;
    }
    if v <= 256 {
        return false;
    }
    if v <= 256 + head.count.channels {
        return true;
    }
    (384 < v) & (v <= 384 + made)
}

// A value of a kind.
fn value_fits(file: &[u8], head: Head, beside: &[u16], kind: ChannelKind, v: u16) -> bool
    requires { Laid file.now head × (length beside.now ≡ beside_words) × (made_count beside.now ≤ 64) }
    ensures { result ≡ (is_value (schema_of (contents_at file.now head)) (made_of beside.now) v
        && eqb (kind_held (schema_of (contents_at file.now head)) (made_of beside.now) v) kind.0) }
{
    if !is_value(head, made_count(beside), v) {
        return false;
    }
    kind_held(file, head, beside, v).0 == kind.0
}

// The variables of a thread at a node.
fn vars_fit(file: &[u8], head: Head, beside: &[u16], w: u64, vars: [u16; 8]) -> bool
    requires { Laid file.now head × (length beside.now ≡ beside_words) × (made_count beside.now ≤ 64) }
    ensures { (c : Context) → w ≡ scope_of c → Narrow c
        → result ≡ vars_fit (schema_of (contents_at file.now head)) (made_of beside.now) c.vars vars }
{
    let bound = bound_in(w);
    for k in 0..8 {
        let v = vars[k];
        if (k as u64) < bound {
            if !value_fits(file, head, beside, kind_at(w, k as u64), v) {
                return false;
            }
        } else if v != 0 {
            return false;
        }
    }
    true
}

// A counted thread.
pub fn thread_fits(file: &[u8], head: Head, table: &[u64], beside: &[u16], t: Thread) -> bool
    requires { Laid file.now head × (length table.now ≡ 1025) × Scoped (contents_at file.now head) table.now × (length beside.now ≡ beside_words) × (made_count beside.now ≤ 64) }
    ensures { result ≡ thread_fits (contents_at file.now head) (made_of beside.now) t }
{
    if !in_count(head.count.nodes, t.node) {
        return false;
    }
    let w = scope_in(table[usize::from(t.node)]);
    if (t.user as u64) != w % 64 {
        return false;
    }
    if !roles_within(t.mask, user_roles(file, head, t.user)) {
        return false;
    }
    let vars = t.vars;
    vars_fit(file, head, beside, w, vars)
}

// One more that waits for a kind; for none where it is no kind. All totals are gone through alike, so that they stay in registers from record to record.
fn one_in(totals: [u16; 32], kind: ChannelKind) -> [u16; 32]
    requires { length totals ≡ 32 }
    ensures { result ≡ one_in totals kind.0 }
{
    let mut all = totals;
    for k in 0..32 {
        let at = usize::from(k);
        let one = (kind.0 == k + 1) as u16;
        all[at] = all[at].wrapping_add(one);
    }
    all
}

// No record judged yet.
pub fn no_tally() -> Tally
    ensures { result ≡ no_tally }
{
    Tally {
        fits: true,
        totals: [0; 32],
    }
}

// One counted thread more.
pub fn tally(
    file: &[u8],
    head: Head,
    table: &[u64],
    beside: &[u16],
    before: Tally,
    t: Thread,
) -> Tally
    requires { Laid file.now head × (length table.now ≡ 1025) × Scoped (contents_at file.now head) table.now × (length beside.now ≡ beside_words) × (made_count beside.now ≤ 64) }
    ensures { result ≡ tally_on (contents_at file.now head) table.now (made_of beside.now) before t }
{
    let totals = before.totals;
    let fits = thread_fits(file, head, table, beside, t);
    Tally {
        fits: before.fits & fits,
        totals: one_in(totals, awaited_by(table, t.node)),
    }
}

// All records are as their nodes ask, and the totals beside them are theirs.
pub fn tally_fits(beside: &[u16], it: Tally) -> bool
    requires { (length beside.now ≡ beside_words) × (length it.totals ≡ 32) }
    ensures { result ≡ tally_fits beside.now it }
{
    let theirs = it.totals;
    let lent = totals_of(beside);
    let mut alike = it.fits;
    for k in 0..32 {
        alike = alike & (lent[k] == theirs[k]);
    }
    alike
}
