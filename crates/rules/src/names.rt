// Operands: the table of what they name, each entry a number: its kind in the low word, and who may receive on it in the high word.
ghost use Rattle.std.specs.Prelude.{◌≡◌, ◌+◌, ◌≤◌, length, drop, replicate};
ghost use Rattle.format.specs.Header.{Laid};
ghost use Rattle.format.specs.Contents.{contents_at};
ghost use Rattle.rules.specs.Schema.{schema_of};
ghost use Rattle.rules.specs.Kept.{kind_in, owner_in, look, NameTable, Owned, graded};

use format::Head;
use format::sections::channel;
use format::words::paired;
use masks::ChannelKind;

pub fn kind_of(e: u32) -> ChannelKind
    ensures { result.0 ≡ kind_in e }
{
    ChannelKind((e % 65536) as u16)
}

pub fn owner_of(e: u32) -> u16
    ensures { result ≡ owner_in e }
{
    (e / 65536) as u16
}

// What an operand names, where so many variables are bound.
pub fn look_up(names: &[u32], bound: u16, x: u16) -> u32
    requires { 512 + bound ≤ length names.now }
    ensures { result ≡ look names.now bound x }
{
    let k = usize::from(x);
    if k < 512 + usize::from(bound) {
        return names[k];
    }
    0
}

// The users and the channels as operands; the entries past them, for variables, stay.
pub fn name_all(file: &[u8], head: Head, names: &mut [u32])
    requires { Laid file.now head × Owned (contents_at file.now head) × (512 ≤ length names.old) × (names.old ≡ replicate (length names.old) 0) }
    ensures { (length names.new ≡ length names.old)
        × NameTable (schema_of (contents_at file.now head)) head.count.users head.count.channels names.new
        × (drop 512 names.new ≡ drop 512 names.old) }
{
    names[1..=usize::from(head.count.users)].fill(paired(0, 1));
    for i in 0..head.count.channels {
        let c = i + 1;
        let it = channel(file, head, c);
        names[256 + usize::from(c)] = paired(it.kind.0, it.owner + 2);
    }
}

// 9 before 10.
pub fn graded(names: bool, kinds: bool) -> u16
    ensures { result ≡ graded names kinds }
{
    if !names {
        return 9;
    }
    if !kinds {
        return 10;
    }
    0
}
