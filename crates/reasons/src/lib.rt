// Reasons in words: the sentence of a refusal, and what a sentence says.
#![tactic(auto)]

pub mod digits;

ghost use Rattle.std.specs.Prelude.{◌≡◌, true, false, cond, ◌+◌, ◌-◌, ◌<◌, ◌≤◌, length, drop};
ghost use Rattle.phrases.specs.Phrases.{put_into};
ghost use Rattle.reasons.specs.Reasons.{by_none, by_node, by_choice, may_count, at_node, is_reason, reason_of, sentence, is_sentence, no_reason, understood, reason_length, reason_over, has_meaning, meaning_length, meaning_over};

use digits::{digits_end, numeral_at, put_digits};
use phrases::{phrase_at, phrase_length, put_phrase};

// A refusal's number, what its place counts (0 none, 1 word, 2 session, 3 node, 4 choice, 5 row, 6 notice), the place, and the tag of the node there, 9 where none belongs.
#[repr(C)]
#[derive(Clone, Copy)]
pub struct Reason {
    pub number: u16,
    pub counts: u16,
    pub place: u16,
    pub tag: u16,
}

// How many rows of the table stand before that of none, and one less than before that of number 1; the last number.
const COUNTS: usize = 10;

const MEANINGS: usize = 16;

const LAST: u16 = 28;

fn by_none(n: u16) -> bool
    ensures { result ≡ by_none n }
{
    (1 <= n) & (n <= 5) | (16 <= n) & (n <= 18) | (n == 14) | (n == 22) | (n == 25) | (n == 28)
}

fn by_node(n: u16) -> bool
    ensures { result ≡ by_node n }
{
    (8 <= n) & (n <= 15) | (n == 24)
}

fn by_choice(n: u16) -> bool
    ensures { result ≡ by_choice n }
{
    (11 <= n) & (n <= 13) | (18 <= n) & (n <= 20) | (n == 26)
}

// Whether a number may have what is counted.
fn may_count(n: u16, c: u16) -> bool
    ensures { result ≡ may_count n c }
{
    (c == 0) & by_none(n)
        | (c == 1) & ((n == 6) | (n == 21))
        | (c == 2) & ((n == 7) | (n == 26))
        | (c == 3) & by_node(n)
        | (c == 4) & by_choice(n)
        | (c == 5) & (n == 23)
        | (c == 6) & (n == 27)
}

// Whether a tag belongs there.
fn at_node(n: u16, c: u16) -> bool
    ensures { result ≡ at_node n c }
{
    (9 <= n) & (n <= 15) & (c == 3)
}

// Whether four numbers are a reason.
fn is_reason(r: Reason) -> bool
    ensures { result ≡ is_reason r }
{
    let Reason {
        number: n,
        counts: c,
        place: p,
        tag: t,
    } = r;
    let node = at_node(n, c);
    may_count(n, c)
        & ((c == 0) & (p == 0) | (0 < c) & (0 < p))
        & (node & (t <= 8) | !node & (t == 9))
}

// The sentence of a reason at the start of an output; its length.
fn put_sentence(r: Reason, out: &mut [u8]) -> usize
    requires { (is_reason r ≡ true) × (120 ≤ length out.old) }
    ensures { (result ≡ length (sentence r)) × (out.new ≡ put_into out.old 0 (sentence r)) }
{
    let a = put_phrase(MEANINGS + usize::from(r.number), out, 0);
    let b = put_phrase(COUNTS + usize::from(r.counts), out, a);
    let d = put_digits(r.place, out, b);
    put_phrase(usize::from(r.tag), out, d)
}

// The sentence of a reason: its length; 0, and nothing is written, for four numbers that are none and for an output under 120 bytes.
pub fn write_reason(number: u16, counts: u16, place: u16, tag: u16, out: &mut [u8]) -> u16
    ensures { (result ≡ reason_length (reason_of number counts place tag) (length out.old))
        × (out.new ≡ reason_over (reason_of number counts place tag) out.old) }
{
    if out.len() < 120 {
        return 0;
    }
    let r = Reason {
        number,
        counts,
        place,
        tag,
    };
    if !is_reason(r) {
        return 0;
    }
    put_sentence(r, out) as u16
}

fn has_meaning(n: u16) -> bool
    ensures { result ≡ has_meaning n }
{
    (1 <= n) & (n <= LAST)
}

// The meaning of a number alone: its length; 0, and nothing is written, for a number that has none and for an output under 120 bytes.
pub fn write_meaning(number: u16, out: &mut [u8]) -> u16
    ensures { (result ≡ meaning_length number (length out.old)) × (out.new ≡ meaning_over number out.old) }
{
    if out.len() < 120 {
        return 0;
    }
    if !has_meaning(number) {
        return 0;
    }
    put_phrase(MEANINGS + usize::from(number), out, 0) as u16
}

// Whether bytes are the sentence of a reason.
fn is_sentence(r: Reason, s: &[u8]) -> bool
    ensures { result ≡ is_sentence r s.now }
{
    if !is_reason(r) {
        return false;
    }
    let mut out = [0u8; 120];
    let k = put_sentence(r, &mut out);
    &out[..k] == s
}

fn no_reason() -> Reason
    ensures { result ≡ no_reason }
{
    Reason {
        number: 0,
        counts: 0,
        place: 0,
        tag: 0,
    }
}

// The reason that was guessed, if the bytes are its sentence.
fn confirmed(r: Reason, s: &[u8]) -> Reason
    ensures { result ≡ cond (is_sentence r s.now) r no_reason }
{
    if is_sentence(r, s) { r } else { no_reason() }
}

fn read_by(s: &[u8]) -> Reason
    ensures { result ≡ understood s.now }
{
    let m = phrase_at(s, 0);
    let a = phrase_length(m);
    let c = phrase_at(s, a);
    let b = a + phrase_length(c);
    let p = numeral_at(s, b);
    let t = phrase_at(s, digits_end(s, b));
    if p > 65535 {
        return no_reason();
    }
    let guess = Reason {
        number: m.saturating_sub(MEANINGS) as u16,
        counts: c.saturating_sub(COUNTS) as u16,
        place: p as u16,
        tag: t as u16,
    };
    confirmed(guess, s)
}

// What a sentence says; all 0 for other bytes.
pub fn read_reason(sentence: &[u8]) -> Reason
    ensures { result ≡ understood sentence.now }
{
    read_by(sentence)
}
