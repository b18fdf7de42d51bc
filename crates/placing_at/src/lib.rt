// Placing for a minute of the week: the open roles of each node's candidates, and then as without hours.
#![tactic(auto)]

ghost use Rattle.std.specs.Prelude.{◌≡◌, map, length};
ghost use Rattle.masks.specs.Mask.{minus};
ghost use Rattle.placing_at.specs.PlaceAt.{measuring_at, placing_at, placed_over_at};

use checking::examine_opened;
use checking_at::open_at;
use format::header::room_for;
use hours::{shut, table_answer};
use masks::roles_minus;
use placing::{Placed, measure_body, no_place, place_body};

// Each entry without the roles that are shut.
fn close(roles: &mut [u16], shut: u16)
    ensures { roles.new ≡ map (λ m. minus m shut) roles.old }
{
    for mask in roles.iter_mut() {
        *mask = roles_minus(*mask, shut);
    }
}

// The answer that `place_at` gives in an output long enough: 22, then 1 to 8, 23, 9 and 10, then 14 to 16, else length and on steps.
pub fn measure_at(file: &[u8], hours: &[u16], minute: u16) -> Placed
    ensures { result ≡ measuring_at file.now hours.now minute }
{
    let first = table_answer(hours, minute);
    if first.number != 0 {
        return no_place(first.number, first.place);
    }
    let mut roles = [0u16; 1025];
    match examine_opened(file, open_at(file, hours), &mut roles).names {
        Err(first) => no_place(first.number, first.place),
        Ok(head) => {
            close(&mut roles, shut(hours, minute));
            measure_body(file, head, &roles)
        }
    }
}

// Places the roles of a file that are open at the minute: 17, then 22, 1 to 8, 23, 9 and 10, then 14 to 16, else the placed file, whose users have their
// whole masks. What the output has past it, or where anything is refused, stays.
pub fn place_at(file: &[u8], hours: &[u16], minute: u16, out: &mut [u8]) -> Placed
    ensures { (result ≡ placing_at file.now hours.now minute (length out.old)) × (out.new ≡ placed_over_at file.now hours.now minute out.old) }
{
    if out.len() < room_for(file) {
        return no_place(17, 0);
    }
    let first = table_answer(hours, minute);
    if first.number != 0 {
        return no_place(first.number, first.place);
    }
    let mut roles = [0u16; 1025];
    match examine_opened(file, open_at(file, hours), &mut roles).names {
        Err(first) => no_place(first.number, first.place),
        Ok(head) => {
            close(&mut roles, shut(hours, minute));
            place_body(file, head, &roles, out)
        }
    }
}
