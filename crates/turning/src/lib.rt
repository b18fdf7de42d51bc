// A file turned to columns, and back to rows.
#![tactic(auto)]

ghost use Rattle.std.specs.Prelude.{◌≡◌, true, cond, ◌||◌, ◌≤◌, eqb, length, Ok};
ghost use Rattle.std.proofs.lemmas.List.Edits.{sets};
ghost use Rattle.format.specs.Header.{Laid, has_juniors, length_for, head_of};
ghost use Rattle.format.specs.Contents.{contents_at};
ghost use Rattle.format.specs.Writing.{encoded, nodes_put};
ghost use Rattle.turning.specs.Turning.{turning, turned_over};

use format::answers::not_written;
use format::header::{LARGEST, read_head};
use format::sections::node;
use format::words::{narrow, word};
use format::writing::{put_head, put_node, put_sessions, put_tables};
use format::{Head, Written};

// A file's nodes, in a file with another head.
fn put_nodes(file: &[u8], head: Head, whole: Head, out: &mut [u8])
    requires { Laid file.now head × (whole.count.nodes ≡ head.count.nodes) × (length_for whole.at.nodes whole.count.nodes ≤ length out.old) }
    ensures { out.new ≡ nodes_put whole 1 (contents_at file.now head).nodes out.old }
{
    for i in 0..head.count.nodes {
        let n = i + 1;
        put_node(out, whole, n, node(file, head, n));
    }
}

// The file of a version that holds the same; both versions have juniors. Every other byte stays.
fn put_turned(file: &[u8], head: Head, to: u16, out: &mut [u8])
    requires { Laid file.now head × (has_juniors head.version ≡ true) × (has_juniors to ≡ true) × (6908 ≤ length out.old) }
    ensures { out.new ≡ sets out.old 0 (encoded to (contents_at file.now head)) }
{
    let whole = Head {
        version: to,
        ..head
    };
    put_head(out, whole);
    put_tables(file, head, out);
    put_sessions(file, head, out);
    put_nodes(file, head, whole, out);
}

// A refusal of 1 to 5 by a file's first word: another version is 2, at 2's turn, after 1.
fn own_refusal(number: u16, version: u16, from: u16) -> u16
    ensures { result ≡ cond (eqb number 1 || eqb version from) number 2 }
{
    if (number == 1) | (version == from) {
        return number;
    }
    2
}

// A file that 1 to 5 leave clean.
fn turn_headed(file: &[u8], head: Head, from: u16, to: u16, out: &mut [u8]) -> Written
    requires { (head_of file.now ≡ Ok head) × (has_juniors from ≡ true) × (has_juniors to ≡ true) × (6908 ≤ length out.old) }
    ensures { (result ≡ turning from file.now (length out.old)) × (out.new ≡ turned_over from to file.now out.old) }
{
    if head.version != from {
        return not_written(2, 0);
    }
    put_turned(file, head, to, out);
    Written {
        number: 0,
        place: 0,
        length: narrow(file.len()),
    }
}

fn turn(file: &[u8], from: u16, to: u16, out: &mut [u8]) -> Written
    requires { (has_juniors from ≡ true) × (has_juniors to ≡ true) }
    ensures { (result ≡ turning from file.now (length out.old)) × (out.new ≡ turned_over from to file.now out.old) }
{
    if out.len() < LARGEST {
        return not_written(17, 0);
    }
    match read_head(file) {
        Err(number) => { not_written(own_refusal(number, word(file, 0), from), 0) }
        Ok(head) => turn_headed(file, head, from, to, out),
    }
}

// Turns a version 2 file to columns: 17, then 1 to 5, where another version is 2; else the version 3 file, as long as its input. Every other byte stays.
pub fn to_columns(file: &[u8], out: &mut [u8]) -> Written
    ensures { (result ≡ turning 2 file.now (length out.old)) × (out.new ≡ turned_over 2 3 file.now out.old) }
{
    turn(file, 2, 3, out)
}

// Turns a version 3 file to rows, in the same way.
pub fn to_rows(file: &[u8], out: &mut [u8]) -> Written
    ensures { (result ≡ turning 3 file.now (length out.old)) × (out.new ≡ turned_over 3 2 file.now out.old) }
{
    turn(file, 3, 2, out)
}
