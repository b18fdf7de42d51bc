// Placing: the refusals 14 to 17, and the placed file.
#![tactic(auto)]

mod bare;
pub mod decide;
mod served;

ghost use Rattle.std.specs.Prelude.{◌≡◌, ◌≤◌, length, Ok};
ghost use Rattle.format.specs.Header.{room_for};
ghost use Rattle.format.specs.Contents.{contents_at};
ghost use Rattle.checking.specs.Check.{entered};
ghost use Rattle.placing.specs.Placing.{answer_from, over_from, no_place, answered, measuring, placing, placed_over};

use checking::examine;
use decide::decide;
use format::Head;
use format::header::{length_for, room_for};
use format::words::narrow;
use groups::{Sums, put_file};

// What a caller gets: a refusal's number and place, or 0 and 0 with the length of the placed file in bytes and its on steps.
#[repr(C)]
#[derive(Clone, Copy)]
pub struct Placed {
    pub number: u16,
    pub place: u16,
    pub length: u16,
    pub on_steps: u16,
}

pub fn no_place(number: u16, place: u16) -> Placed
    ensures { result ≡ no_place number place }
{
    Placed {
        number,
        place,
        length: 0,
        on_steps: 0,
    }
}

// What is answered where nothing is refused.
fn answer_of(head: Head, sums: Sums) -> Placed
    requires { (head.at.nodes ≤ 2000) × (sums.nodes ≤ 1024) }
    ensures { result ≡ answered head.at.nodes sums }
{
    Placed {
        number: 0,
        place: 0,
        length: narrow(length_for(head.at.nodes, sums.nodes)),
        on_steps: sums.on_steps,
    }
}

// For a file that 1 to 10 leave clean, with each node's roles at its number, into an output with room for the largest file of its version: 14 to 16, else the placed
// file. What the output has past it, or where anything is refused, stays.
pub fn place_body(file: &[u8], head: Head, roles: &[u16], out: &mut [u8]) -> Placed
    requires { (entered file.now ≡ Ok head) × (length roles.now ≡ 1025) × (room_for file.now ≤ length out.old) }
    ensures { (result ≡ answer_from head.version (contents_at file.now head) roles.now) × (out.new ≡ over_from head.version (contents_at file.now head) roles.now out.old) }
{
    let mut turns = [0u16; 1025];
    let mut starts = [0u16; 1025];
    match decide(file, head, roles, &mut turns, &mut starts) {
        Err(first) => no_place(first.number, first.place),
        Ok(sums) => {
            put_file(file, head, &turns, &starts, sums.nodes, out);
            answer_of(head, sums)
        }
    }
}

// The answer of `place_body`, without an output.
pub fn measure_body(file: &[u8], head: Head, roles: &[u16]) -> Placed
    requires { (entered file.now ≡ Ok head) × (length roles.now ≡ 1025) }
    ensures { result ≡ answer_from head.version (contents_at file.now head) roles.now }
{
    let mut turns = [0u16; 1025];
    let mut starts = [0u16; 1025];
    match decide(file, head, roles, &mut turns, &mut starts) {
        Err(first) => no_place(first.number, first.place),
        Ok(sums) => answer_of(head, sums),
    }
}

// The answer that placing gives in an output long enough: 1 to 10, then 14 to 16, else length and on steps.
pub fn measure(file: &[u8]) -> Placed
    ensures { result ≡ measuring file.now }
{
    let mut roles = [0u16; 1025];
    match examine(file, &mut roles).names {
        Err(first) => no_place(first.number, first.place),
        Ok(head) => measure_body(file, head, &roles),
    }
}

// Places the roles of a file: 17, then 1 to 10, then 14 to 16, else the placed file. What the output has past it, or where anything is refused,
// stays.
pub fn place(file: &[u8], out: &mut [u8]) -> Placed
    ensures { (result ≡ placing file.now (length out.old)) × (out.new ≡ placed_over file.now out.old) }
{
    if out.len() < room_for(file) {
        return no_place(17, 0);
    }
    let mut roles = [0u16; 1025];
    match examine(file, &mut roles).names {
        Err(first) => no_place(first.number, first.place),
        Ok(head) => place_body(file, head, &roles, out),
    }
}
