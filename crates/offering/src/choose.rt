// Each choice of a lent state is carried out in the tables, offered where it is done, and the state put back.
ghost use Rattle.std.specs.Prelude.{◌≡◌, ◌+◌, ◌≤◌, ◌<◌, length};
ghost use Rattle.format.specs.Header.{Laid};
ghost use Rattle.format.specs.Contents.{contents_at};
ghost use Rattle.rules.specs.Schema.{schema_of};
ghost use Rattle.rules.specs.Kept.{Granting};
ghost use Rattle.rules.specs.declared.Way.TheVariants.{Sends, Receives};
ghost use Rattle.steps.specs.Kept.{Sized};
ghost use Rattle.seats.specs.Seats.{limited_of, seated_choice};
ghost use Rattle.seating.specs.SeatTables.{LineRows};
ghost use Rattle.seated.specs.SeatedTables.{seated_in};
ghost use Rattle.rows.specs.Rows.{seated_at, RowFits};
ghost use Rattle.offering.specs.Offers.{offer_by, partners_offered, offers_of, output_of, offer_put, offers_put, begun};
ghost use Rattle.offering.specs.Offers.{Holds, Grown};

use super::Noted;
use super::write::{put_row, row_length};
use format::Head;
use format::words::narrow;
use rows::load::load_row;
use rows::words::copy_words;
use seated::list::go_seated;
use steps::beside::thread_count;

// The state that the tables hold is offered, where it has room.
fn put_offer(
    out: &mut [u16],
    noted: Noted,
    i: u16,
    p: u16,
    answer: u16,
    roles: usize,
    threads: &[u16],
    beside: &[u16],
    owners: &[u16],
    lines: &[u16],
) -> Noted
    requires { (noted.count < 65535) × (noted.length ≤ length out.old) × (roles ≤ 16)
        × Sized threads.now beside.now × (length owners.now ≡ 64) × LineRows lines.now }
    ensures { (output_of result out.new ≡ offer_put roles (output_of noted out.old) (record {
      thread = i;
      partner = p;
      answer = answer;
      seating = seated_in threads.now beside.now owners.now lines.now;
    })) × Grown 1 noted result out.new }
{
    let n = row_length(beside, lines, roles);
    let at = noted.length;
    let end = at + 4 + n;
    if out.len() < end {
        return Noted {
            full: true,
            ..noted
        };
    }
    let words = [i, p, answer, narrow(n)];
    copy_words(&words, 0, out, at, 4);
    put_row(out, at + 4, roles, threads, beside, owners, lines);
    Noted {
        full: false,
        count: noted.count + 1,
        length: end,
    }
}

// One choice of the lent state, which the tables hold before and after.
fn offer_choice(
    file: &[u8],
    head: Head,
    sends: &[u16],
    receives: &[u16],
    table: &[u64],
    seats: &[u16],
    state: &[u16],
    threads: &mut [u16],
    beside: &mut [u16],
    owners: &mut [u16],
    lines: &mut [u16],
    i: u16,
    p: u16,
    out: &mut [u16],
    noted: Noted,
) -> Noted
    requires { Laid file.now head × Granting (schema_of (contents_at file.now head)) Sends sends.now
        × Granting (schema_of (contents_at file.now head)) Receives receives.now × (length seats.now ≤ 16)
        × RowFits (length seats.now) state.now 0 × Holds (limited_of (contents_at file.now head) seats.now)
        (seated_at (length seats.now) state.now 0) threads.old beside.old owners.old lines.old
        × (noted.count < 65535) × (noted.length ≤ length out.old) }
    ensures { (output_of result out.new ≡ offers_put (length seats.now)
        (output_of noted out.old) (offer_by i p (seated_choice
        (limited_of (contents_at file.now head) seats.now)
        (seated_at (length seats.now) state.now 0) i p)))
        × Holds (limited_of (contents_at file.now head) seats.now)
        (seated_at (length seats.now) state.now 0) threads.new beside.new
        owners.new lines.new
        × Grown 1 noted result out.new }
{
    if noted.full {
        return noted;
    }
    let choice = [i, p];
    let went = go_seated(
        file, head, sends, receives, table, seats, &choice, threads, beside, owners, lines,
    );
    if went.count == 0 {
        return noted;
    }
    let on = put_offer(
        out,
        noted,
        i,
        p,
        went.last,
        seats.len(),
        threads,
        beside,
        owners,
        lines,
    );
    load_row(state, 0, seats.len(), threads, beside, owners, lines);
    on
}

// The choices of a thread: alone, and with each thread as partner.
fn offer_partners(
    file: &[u8],
    head: Head,
    sends: &[u16],
    receives: &[u16],
    table: &[u64],
    seats: &[u16],
    state: &[u16],
    threads: &mut [u16],
    beside: &mut [u16],
    owners: &mut [u16],
    lines: &mut [u16],
    i: u16,
    count: u16,
    out: &mut [u16],
    noted: Noted,
) -> Noted
    requires { Laid file.now head × Granting (schema_of (contents_at file.now head)) Sends sends.now
        × Granting (schema_of (contents_at file.now head)) Receives receives.now × (length seats.now ≤ 16)
        × RowFits (length seats.now) state.now 0 × Holds (limited_of (contents_at file.now head) seats.now)
        (seated_at (length seats.now) state.now 0) threads.old beside.old owners.old lines.old
        × (noted.count ≤ 4160) × (noted.length ≤ length out.old) × (count ≤ 64) }
    ensures { (output_of result out.new ≡ offers_put (length seats.now)
        (output_of noted out.old) (partners_offered
        (limited_of (contents_at file.now head) seats.now)
        (seated_at (length seats.now) state.now 0) i 0 (count + 1)))
        × Holds (limited_of (contents_at file.now head) seats.now)
        (seated_at (length seats.now) state.now 0) threads.new beside.new
        owners.new lines.new
        × Grown 65 noted result out.new }
{
    let mut on = noted;
    for p in 0..=count {
        on = offer_choice(
            file, head, sends, receives, table, seats, state, threads, beside, owners, lines, i, p,
            out, on,
        );
    }
    on
}

// The choices of all threads.
pub fn offer_threads(
    file: &[u8],
    head: Head,
    sends: &[u16],
    receives: &[u16],
    seats: &[u16],
    state: &[u16],
    threads: &mut [u16],
    beside: &mut [u16],
    owners: &mut [u16],
    lines: &mut [u16],
    out: &mut [u16],
) -> Noted
    requires { Laid file.now head × Granting (schema_of (contents_at file.now head)) Sends sends.now
        × Granting (schema_of (contents_at file.now head)) Receives receives.now × (length seats.now ≤ 16)
        × RowFits (length seats.now) state.now 0 × Holds (limited_of (contents_at file.now head) seats.now)
        (seated_at (length seats.now) state.now 0) threads.old beside.old owners.old lines.old }
    ensures { (output_of result out.new ≡ offers_put (length seats.now)
        (begun out.old) (offers_of
        (limited_of (contents_at file.now head) seats.now)
        (seated_at (length seats.now) state.now 0))) × (result.length < 4294967296) }
{
    let table = [0u64; 0];
    let count = thread_count(beside);
    let mut on = Noted {
        full: false,
        count: 0,
        length: 0,
    };
    for i in 1..=count {
        on = offer_partners(
            file, head, sends, receives, &table, seats, state, threads, beside, owners, lines, i,
            count, out, on,
        );
    }
    on
}
