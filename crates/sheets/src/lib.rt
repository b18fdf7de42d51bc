// The group's quarterly sheet.
#![tactic(auto)]

mod entries;
mod most;

ghost use Rattle.std.specs.Prelude.{◌≡◌, ℕ, ◌≤◌, ◌<◌, cond, length, get_or, take, drop, None, Some, option_copied};
ghost use Rattle.sheets.specs.Files.{is_whole, said};
ghost use Rattle.sheets.specs.Sheets.{counted, added, closed, blank, sheet_of, Within, Small};
ghost use Rattle.sheets.specs.Entries.{entry_of};

use entries::entry_of;
use format::words::word;

// What a caller gets; files refused at number n are counted in place n - 1.
#[repr(C)]
#[derive(Clone, Copy)]
pub struct Sheet {
    pub files: u32,
    pub refused: [u32; 28],
    pub sessions: u32,
    pub on_steps: u32,
    pub most: u32,
    pub quotient: u32,
    pub remainder: u32,
}

// What a file adds to it: the number of its refusal, or 0 with its sessions, its on steps, and the most of these in one session.
#[derive(Clone, Copy)]
pub struct Entry {
    pub number: u16,
    pub sessions: u16,
    pub on_steps: u16,
    pub most: u16,
}

// The first file of an input, after one word with its length in bytes; none if it isn't whole.
fn first_file(input: &[u8]) -> Option<&[u8]>
    ensures { option_copied result ≡ cond (is_whole input.now) (Some (take (said input.now) (drop 2 input.now))) None }
{
    input.get(2..2 + usize::from(word(input, 0)))
}

// One more refusal of a number; 0 is none.
fn count(refused: [u32; 28], number: u16) -> [u32; 28]
    requires { (number ≤ 28) × ((i : ℕ) → get_or refused i 0 ≤ 1000) }
    ensures { result ≡ counted refused number }
{
    if number == 0 {
        return refused;
    }
    let i = usize::from(number) - 1;
    let mut counts = refused;
    counts[i] += 1;
    counts
}

// One file more.
fn add(s: Sheet, e: Entry) -> Sheet
    requires { Small s × (s.files < 1000) × Within e }
    ensures { result ≡ added s e }
{
    Sheet {
        files: s.files + 1,
        refused: count(s.refused, e.number),
        sessions: s.sessions + u32::from(e.sessions),
        on_steps: s.on_steps + u32::from(e.on_steps),
        most: s.most.max(u32::from(e.most)),
        ..s
    }
}

// On steps per 1,000 sessions.
fn close(s: Sheet) -> Sheet
    requires { Small s }
    ensures { result ≡ closed s }
{
    let n = s.sessions;
    if n == 0 {
        return Sheet {
            quotient: 0,
            remainder: 0,
            ..s
        };
    }
    let ons = 1000 * s.on_steps;
    Sheet {
        quotient: ons / n,
        remainder: ons % n,
        ..s
    }
}

fn begin() -> Sheet
    ensures { result ≡ blank }
{
    Sheet {
        files: 0,
        refused: [0; 28],
        sessions: 0,
        on_steps: 0,
        most: 0,
        quotient: 0,
        remainder: 0,
    }
}

// The sheet of up to 1,000 files in a row, each after one word with its length in bytes; it ends at the first record that isn't whole.
pub fn sheet_of(input: &[u8]) -> Sheet
    ensures { result ≡ sheet_of entry_of input.now }
{
    let mut roles = [0u16; 1025];
    let mut turns = [0u16; 1025];
    let mut starts = [0u16; 1025];
    let mut s = begin();
    let mut rest = input;
    for _ in 0..1000u32 {
        let Some(file) = first_file(rest) else {
            break;
        };
        let e = entry_of(file, &mut roles, &mut turns, &mut starts);
        s = add(s, e);
        rest = &rest[2 + file.len()..];
    }
    close(s)
}
