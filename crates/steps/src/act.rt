// One choice, by value on what it touches.
ghost use Rattle.std.specs.Prelude.{◌≡◌, cond, ◌+◌, ◌≤◌, ◌<◌, ltb, length};
ghost use Rattle.masks.specs.Mask.{has, with};
ghost use Rattle.format.specs.Header.{Laid};
ghost use Rattle.format.specs.Contents.{contents_at};
ghost use Rattle.rules.specs.Schema.{schema_of};
ghost use Rattle.rules.specs.Kept.{Granting};
ghost use Rattle.rules.specs.declared.Way.TheVariants.{Sends, Receives};
ghost use Rattle.steps.specs.declared.Outcome.TheVariants.{Refused, Moves, Adds, Makes};
ghost use Rattle.steps.specs.Threads.{no_thread, masked, bound};
ghost use Rattle.steps.specs.Choice.{clinic_of, kind_held, meeting, sending, lone, acting};
ghost use Rattle.steps.specs.Acted.{partner_of, acted_of};
ghost use Rattle.steps.specs.Beside.{thread_count, made_count, made_of, beside_words};

use super::beside::{made_at, made_count, thread_count};
use super::threads::no_thread;
use super::{Acted, Answer, Made, Thread};
use format::sections::{channel, in_count, single_node, user_roles};
use format::{Head, Node};
use masks::{ChannelKind, UserRole, has_role};
use rules::grants::may;

// The kind of a value, 0 for a plain one.
pub fn kind_held(file: &[u8], head: Head, beside: &[u16], v: u16) -> ChannelKind
    requires { Laid file.now head × (length beside.now ≡ beside_words) × (made_count beside.now ≤ 64) }
    ensures { result.0 ≡ kind_held (schema_of (contents_at file.now head)) (made_of beside.now) v }
{
    if v < 257 {
        return ChannelKind(0);
    }
    if v < 385 {
        let it = channel(file, head, v - 256);
        return it.kind;
    }
    let i = usize::from(v - 385);
    if i < usize::from(made_count(beside)) {
        let it = made_at(beside, i);
        return it.kind;
    }
    ChannelKind(0)
}

// An answer that leaves one thread at most.
fn sole(answer: Answer, first: Thread) -> Acted
    ensures { result ≡ record { answer = answer; first = first; second = no_thread } }
{
    Acted {
        answer,
        first,
        second: no_thread(),
    }
}

fn refused(number: u16) -> Acted
    ensures { result ≡ acted_of (Refused number) }
{
    sole(Answer::Refused(number), no_thread())
}

// A thread that moves on alone, or the refusal.
fn moves_if(fits: bool, moved: Thread, number: u16) -> Acted
    ensures { result ≡ acted_of (cond fits (Moves moved) (Refused number)) }
{
    if fits {
        return sole(Answer::Moves, moved);
    }
    refused(number)
}

// A new last thread; 20 where it is the 65th.
fn adds(threads: u16, first: Thread, second: Thread) -> Acted
    ensures { result ≡ acted_of (cond (ltb threads 64) (Adds (record { first = first; second = second })) (Refused 20)) }
{
    if threads < 64 {
        return Acted {
            answer: Answer::Adds,
            first,
            second,
        };
    }
    refused(20)
}

// A made channel; 20 where it is the 65th.
fn makes(made: u16, own: Thread, kind: ChannelKind) -> Acted
    requires { own.node < 65535 }
    ensures { result ≡ acted_of (cond (ltb made 64) (Makes (record { thread = bound own (385 + made); made = record { owner = own.user; kind = kind } })) (Refused 20)) }
{
    if made < 64 {
        let it = Made {
            owner: own.user,
            kind,
        };
        return sole(Answer::Makes(it), own.bound(385 + made));
    }
    refused(20)
}

// On of a role assigned to the user; 11 of another.
fn switches_on(file: &[u8], head: Head, own: Thread, role: UserRole) -> Acted
    requires { Laid file.now head × (own.node < 65535) }
    ensures { result ≡ acted_of (cond (has ((schema_of (contents_at file.now head)).assigned own.user) role.0) (Moves (masked own (with own.mask role.0))) (Refused 11)) }
{
    if has_role(user_roles(file, head, own.user), role) {
        return sole(Answer::Moves, own.on(role));
    }
    refused(11)
}

// A lone step, by its tag.
fn step(file: &[u8], head: Head, threads: u16, made: u16, own: Thread, it: Node) -> Acted
    requires { Laid file.now head × (own.node < 65535) }
    ensures { result ≡ acted_of (lone (clinic_of (contents_at file.now head)) threads made own it) }
{
    let tag = it.tag;
    match tag {
        0 => sole(Answer::Ends, no_thread()),
        1 => adds(threads, own.onward(), own.moved_to(it.f1)),
        2 => adds(threads, own, own.onward()),
        3 => makes(made, own, ChannelKind(it.f1)),
        4 => moves_if(own.value(it.f1) == own.value(it.f2), own.onward(), 19),
        7 => switches_on(file, head, own, UserRole(it.f1)),
        8 => {
            let role = UserRole(it.f1);
            moves_if(has_role(own.mask, role), own.off(role), 12)
        }
        _ => refused(18),
    }
}

// A send with a receive. The kind is looked up anew only where their channels differ.
fn meets(
    file: &[u8],
    head: Head,
    sends: &[u16],
    receives: &[u16],
    beside: &[u16],
    own: Thread,
    it: Node,
    other: Thread,
    theirs: Node,
) -> Acted
    requires { Laid file.now head × (own.node < 65535) × (other.node < 65535) × Granting (schema_of (contents_at file.now head)) Sends sends.now × Granting (schema_of (contents_at file.now head)) Receives receives.now × (length beside.now ≡ beside_words) × (made_count beside.now ≤ 64) }
    ensures { result ≡ acted_of (meeting (clinic_of (contents_at file.now head)) (made_of beside.now) own it other theirs) }
{
    let over = own.value(it.f1);
    let kind = kind_held(file, head, beside, over);
    if !may(sends, own.mask, kind) {
        return refused(13);
    }
    let at = other.value(theirs.f1);
    if over != at {
        if may(receives, other.mask, kind_held(file, head, beside, at)) {
            return refused(19);
        }
        return refused(13);
    }
    if !may(receives, other.mask, kind) {
        return refused(13);
    }
    Acted {
        answer: Answer::Meets,
        first: own.onward(),
        second: other.bound(own.value(it.f2)),
    }
}

// A send needs a partner that is a thread at a receive.
fn send(
    file: &[u8],
    head: Head,
    sends: &[u16],
    receives: &[u16],
    beside: &[u16],
    own: Thread,
    it: Node,
    partner: u16,
    other: Thread,
) -> Acted
    requires { Laid file.now head × (own.node < 65535) × Granting (schema_of (contents_at file.now head)) Sends sends.now × Granting (schema_of (contents_at file.now head)) Receives receives.now × (length beside.now ≡ beside_words) × (made_count beside.now ≤ 64) }
    ensures { result ≡ acted_of (sending (clinic_of (contents_at file.now head)) (made_of beside.now) own it (partner_of (thread_count beside.now) partner other)) }
{
    if partner == 0 {
        return refused(18);
    }
    if thread_count(beside) < partner {
        return refused(18);
    }
    if !in_count(head.count.nodes, other.node) {
        return refused(18);
    }
    let theirs = single_node(file, head, other.node);
    if theirs.tag != 5 {
        return refused(18);
    }
    meets(file, head, sends, receives, beside, own, it, other, theirs)
}

// What a choice of a thread comes to. The partner is named by its number, 0 if alone, and `other` is that thread where there is one. The tables have
// the roles that permit sending, and receiving, on each kind; beside the threads stand their number, the number of made channels, and owner and kind
// of each.
pub fn act(
    file: &[u8],
    head: Head,
    sends: &[u16],
    receives: &[u16],
    beside: &[u16],
    own: Thread,
    partner: u16,
    other: Thread,
) -> Acted
    requires { Laid file.now head × Granting (schema_of (contents_at file.now head)) Sends sends.now × Granting (schema_of (contents_at file.now head)) Receives receives.now × (length beside.now ≡ beside_words) × (made_count beside.now ≤ 64) }
    ensures { result ≡ acted_of (acting (clinic_of (contents_at file.now head)) (thread_count beside.now) (made_of beside.now) own (partner_of (thread_count beside.now) partner other)) }
{
    if !in_count(head.count.nodes, own.node) {
        return refused(18);
    }
    let it = single_node(file, head, own.node);
    if it.tag == 6 {
        return send(file, head, sends, receives, beside, own, it, partner, other);
    }
    if it.tag == 5 {
        return refused(18);
    }
    if partner != 0 {
        return refused(18);
    }
    step(
        file,
        head,
        thread_count(beside),
        made_count(beside),
        own,
        it,
    )
}
