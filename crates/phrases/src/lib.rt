// The phrases of which the sentences are made.
#![tactic(auto)]

ghost use Rattle.std.specs.Prelude.{◌≡◌, ◌+◌, ◌<◌, ◌≤◌, length, get_or, drop};
ghost use Rattle.std.proofs.Math.Seq.{slice};
ghost use Rattle.phrases.specs.Table.{row_count};
ghost use Rattle.phrases.specs.Phrases.{phrases, phrase, prefix, all_text, all_starts, leading, put_into};

static TEXT: [u8; 1973] = *b"\
    , an end.\
    , a fork.\
    , a repeat.\
    , a new channel.\
    , a compare.\
    , a receive.\
    , a send.\
    , an on.\
    , an off.\
    .\
    ; no place\
    \x20at word \
    \x20at session \
    \x20at node \
    \x20at choice \
    \x20at row \
    \x20at notice \
    Refused 1: the file has 1 to 25 bytes (to 27 in versions 2 and 3), or an odd number\
    Refused 2: the version is not one that can be read here\
    Refused 3: a count is out of range\
    Refused 4: an offset is not the one that the counts give\
    Refused 5: the length is not the one that the counts give\
    Refused 6: the record names a role, kind or user that is not there\
    Refused 7: the session's user is not there, or a starting role is not that user's\
    Refused 8: the tree's root, tag, field, second child, end or ninth variable is wrong\
    Refused 9: an operand names nothing, or a role or kind is out of count\
    Refused 10: the step is against the rules of kinds and owners\
    Refused 11: the role put on is not assigned to the session's user\
    Refused 12: the role put off is not active\
    Refused 13: no active role permits the step\
    Refused 14: a routine to be placed has an on, an off or a starting role\
    Refused 15: no role that the user may put on permits the step\
    Refused 16: the placed file would have over 1,024 nodes\
    Refused 17: the output is too short, or the list of choices or of seats does not fit\
    Refused 18: the list lent, the thread or its partner is not one for this step\
    Refused 19: the values compared are not equal, or the two channels differ\
    Refused 20: it would be the 65th thread or made channel\
    Refused 21: a junior role's number is not lower than its senior's\
    Refused 22: the minute is above 10,079, or the hours are not whole rows, at most 64\
    Refused 23: the row names no such role, or no stretch of the week\
    Refused 24: the role put on is closed at that minute\
    Refused 25: the two files' tables of roles or kinds differ\
    Refused 26: the role has no free seat, or other sessions are before this one in line\
    Refused 27: the notice has under 4 bytes, a wrong length word or a refused file\
    Refused 28: neither notice has begun on that day";

static STARTS: [u16; 46] = [
    0, 9, 18, 29, 45, 57, 69, 78, 86, 95, 96, 106, 115, 127, 136, 147, 155, 166, 249, 304, 338,
    394, 451, 517, 598, 682, 752, 813, 878, 920, 963, 1034, 1095, 1150, 1234, 1311, 1384, 1439,
    1504, 1587, 1652, 1704, 1762, 1846, 1925, 1973,
];

// How many phrases there are.
const COUNT: usize = 45;

// Whether a part of a text stands at a place of a list.
pub fn stands(text: &[u8], from: usize, to: usize, s: &[u8], at: usize) -> bool
    requires { (from ≤ to) × (to ≤ length text.now) }
    ensures { result ≡ prefix (slice from to text.now) (drop at s.now) }
{
    // Most phrases that are tried differ in the first byte, which costs less to see than a call.
    if from < to {
        if at >= s.len() {
            return false;
        }
        if text[from] != s[at] {
            return false;
        }
    }
    s[at.min(s.len())..].starts_with(&text[from..to])
}

// Where a phrase starts in the text.
fn start_of(i: usize) -> usize
    requires { i ≤ row_count }
    ensures { result ≡ get_or all_starts i 0 }
{
    usize::from(STARTS[i])
}

// A phrase of the table.
fn phrase_of(i: usize) -> &'static [u8]
    requires { i < row_count }
    ensures { result.now ≡ phrase i }
{
    &TEXT[start_of(i)..start_of(i + 1)]
}

// A phrase's length, 0 past the table.
pub fn phrase_length(i: usize) -> usize
    ensures { result ≡ length (phrase i) }
{
    if i < COUNT {
        return start_of(i + 1) - start_of(i);
    }
    0
}

// The phrase that stands at a place of a list; as many as there are for none.
pub fn phrase_at(s: &[u8], at: usize) -> usize
    ensures { result ≡ leading phrases (drop at s.now) }
{
    for i in 0..COUNT {
        let part = phrase_of(i);
        if stands(part, 0, part.len(), s, at) {
            return i;
        }
    }
    COUNT
}

// A phrase written; where it ends.
pub fn put_phrase(i: usize, out: &mut [u8], at: usize) -> usize
    requires { (i < row_count) × (at + length (phrase i) ≤ length out.old) }
    ensures { (result ≡ at + length (phrase i)) × (out.new ≡ put_into out.old at (phrase i)) }
{
    let part = phrase_of(i);
    let end = at + part.len();
    out[at..end].copy_from_slice(part);
    end
}
