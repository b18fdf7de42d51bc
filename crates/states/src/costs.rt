// One node: its row of savings, and what is kept of it. A lane for each role, and loops without branches, so that all
// lanes go at once (both values of a lane's `if` are read before it); only an end, a node that needs no role, and the
// others go ways of their own.
ghost use Rattle.std.specs.Prelude.{◌≡◌, cond, ℕ, ◌≤◌, max, eqb, get_or};
ghost use Rattle.states.specs.States.{up};
ghost use Rattle.states.specs.Kept.{Small, added, worth_at, rank, highest, powers, above, left_over, saving_by, saving_of, word_by, word_of, extra, floor};

// A row, and what is kept for the way from the left.
#[derive(Clone, Copy)]
pub struct Kept {
    pub row: [u16; 16],
    pub word: u32,
}

// Each lane's bit. The lanes have it lent: a constant would be worked into each of them in another way.
pub fn lane_bits() -> [u16; 16]
    ensures { result ≡ powers }
{
    [
        1, 2, 4, 8, 16, 32, 64, 128, 256, 512, 1024, 2048, 4096, 8192, 16384, 32768,
    ]
}

// One of two. In `lanes_above` an `if` of its own is compiled into sixteen branches, and placing takes 1.3 times as long.
fn either(test: bool, one: u16, other: u16) -> u16
    ensures { result ≡ cond test one other }
{
    if test {
        return one;
    }
    other
}

// The larger. With the library's `max` the lanes of `peak` do not go at once.
fn larger(a: u16, b: u16) -> u16
    ensures { result ≡ max a b }
{
    if a < b {
        return b;
    }
    a
}

// What two trees save together.
fn sums(one: &[u16; 16], two: &[u16; 16]) -> [u16; 16]
    requires { Small one.now × Small two.now }
    ensures { result ≡ added one.now two.now }
{
    let mut out = [0u16; 16];
    for q in 0..16 {
        out[q] = one[q] + two[q];
    }
    out
}

// What the children of a node that is no end save together.
fn kids_of(tag: u16, one: &[u16; 16], two: &[u16; 16]) -> [u16; 16]
    requires { Small one.now × Small two.now }
    ensures { result ≡ cond (eqb tag 1) (added one.now two.now) one.now }
{
    if tag == 1 {
        return sums(one, two);
    }
    *one
}

// What each state is worth.
fn worths(roles: u16, saving: &[u16; 16], more: u16, bits: &[u16; 16]) -> [u16; 16]
    requires { ((q : ℕ) → get_or saving.now q 0 ≤ 2050) × (more ≤ 1026) × (bits.now ≡ powers) }
    ensures { result ≡ up 0 16 (worth_at roles saving.now more) }
{
    let mut us = [0u16; 16];
    for q in 0..16 {
        let worth = saving[q] + more;
        us[q] = if roles & bits[q] != 0 { worth } else { 0 };
    }
    us
}

// Worth and state in one number.
fn ranks(us: &[u16; 16]) -> [u16; 16]
    requires { (q : ℕ) → get_or us.now q 0 ≤ 3076 }
    ensures { result ≡ up 0 16 (rank us.now) }
{
    let mut out = [0u16; 16];
    for q in 0..16 {
        out[q] = 18 * us[q] + (16 - q as u16);
    }
    out
}

// The highest lane, or what is higher than all.
fn peak(base: u16, lanes: &[u16; 16]) -> u16
    ensures { result ≡ highest base 16 (λ q. get_or lanes.now q 0) }
{
    let mut high = base;
    for q in 0..16 {
        high = larger(high, lanes[q]);
    }
    high
}

// The lanes that have more, as bits.
fn lanes_above(least: u16, lanes: &[u16; 16], bits: &[u16; 16]) -> u16
    requires { bits.now ≡ powers }
    ensures { result ≡ above least lanes.now }
{
    let mut set: u16 = 0;
    for q in 0..16 {
        set += either(least < lanes[q], bits[q], 0);
    }
    set
}

// What each lane has more, or nothing.
fn left_over(least: u16, us: &[u16; 16]) -> [u16; 16]
    ensures { result ≡ left_over least us.now }
{
    let mut out = [0u16; 16];
    for q in 0..16 {
        out[q] = us[q].saturating_sub(least);
    }
    out
}

// Where it may be best to enter a role: the highest rank decides all.
fn by_rank(base: u16, us: &[u16; 16], bits: &[u16; 16]) -> Kept
    requires { (18467 ≤ base) × ((q : ℕ) → get_or us.now q 0 ≤ 3076) × (bits.now ≡ powers) }
    ensures { (result.row ≡ saving_by (highest base 16 (rank us.now)) us.now) × (result.word ≡ word_by (highest base 16 (rank us.now)) us.now) }
{
    let ranked = ranks(us);
    let high = peak(base, &ranked);
    let least = high - 18450;
    Kept {
        row: left_over(least / 18, us),
        word: 2 * u32::from(lanes_above(least, &ranked, bits)) + 131072 * u32::from(17 - high % 18),
    }
}

// What it is worth to have a role already: an on step, and one more where the node is not idle.
fn extra(tag: u16) -> u16
    ensures { result ≡ extra tag }
{
    if 4 < tag { 1026 } else { 1025 }
}

// The rank of state 0.
fn floor(tag: u16) -> u16
    ensures { result ≡ floor tag }
{
    if (tag == 5) | (tag == 6) {
        18467
    } else {
        36935
    }
}

// From the rows of the two trees that follow the node. An end saves nothing. Another node that needs no role and has one child is best left without one, so
// that a role is kept only for what it saves.
pub fn keep(tag: u16, roles: u16, one: &[u16; 16], two: &[u16; 16], bits: &[u16; 16]) -> Kept
    requires { Small one.now × Small two.now × (bits.now ≡ powers) }
    ensures { (result.row ≡ saving_of tag roles one.now two.now) × (result.word ≡ word_of tag roles one.now two.now) }
{
    if tag == 0 {
        return Kept {
            row: [0u16; 16],
            word: 0,
        };
    }
    let saving = kids_of(tag, one, two);
    let us = worths(roles, &saving, extra(tag), bits);
    if (tag == 1) | (4 < tag) {
        return by_rank(floor(tag), &us, bits);
    }
    Kept {
        row: left_over(1026, &us),
        word: 2 * u32::from(lanes_above(1026, &us, bits)),
    }
}
