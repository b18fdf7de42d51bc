// A run with seats from the file's start.
ghost use Rattle.std.specs.Prelude.{◌≡◌, ◌≤◌, length, replicate};
ghost use Rattle.format.specs.Header.{Laid};
ghost use Rattle.format.specs.Contents.{contents_at};
ghost use Rattle.rules.specs.Schema.{schema_of};
ghost use Rattle.rules.specs.Kept.{Granting};
ghost use Rattle.rules.specs.declared.Way.TheVariants.{Sends, Receives};
ghost use Rattle.naming.specs.Scopes.{awaited_by};
ghost use Rattle.steps.specs.Records.{thread_table_words};
ghost use Rattle.steps.specs.Beside.{beside_words, start_beside};
ghost use Rattle.choices.specs.Choices.{start};
ghost use Rattle.seats.specs.Seats.{limited_of, seated_start, overfilled_at};
ghost use Rattle.seated.specs.SeatedTables.{seated_in, Seated};
ghost use Rattle.seated.specs.SeatedLists.{SeatedThrough, SeatedOpen};

use super::SeatedWent;
use super::list::go_seated;
use super::start::number_owners;
use choices::list::open_run;
use format::Head;

// The start in the tables: the run's own, and each thread's session.
fn open_seated(
    file: &[u8],
    head: Head,
    sends: &mut [u16],
    receives: &mut [u16],
    table: &[u64],
    threads: &mut [u16],
    beside: &mut [u16],
    owners: &mut [u16],
)
    requires { Laid file.now head × (length sends.old ≡ 33) × (length receives.old ≡ 33) × (sends.old ≡ replicate (length sends.old) 0) × (receives.old ≡ replicate (length receives.old) 0)
        × (length threads.old ≡ thread_table_words) × (length beside.old ≡ beside_words) × (length owners.old ≡ 64) }
    ensures { SeatedOpen (awaited_by table.now) (contents_at file.now head) beside.old threads.new beside.new owners.new
        × Granting (schema_of (contents_at file.now head)) Sends sends.new × Granting (schema_of (contents_at file.now head)) Receives receives.new }
{
    open_run(file, head, sends, receives, table, threads, beside);
    number_owners(owners, head.count.sessions);
}

// The run of a file through a list of choices, with a table of seats that no starting mask overfills.
pub fn run_seated_by(
    file: &[u8],
    head: Head,
    sends: &mut [u16],
    receives: &mut [u16],
    table: &[u64],
    seats: &[u16],
    choices: &[u16],
    threads: &mut [u16],
    beside: &mut [u16],
    owners: &mut [u16],
    lines: &mut [u16],
) -> SeatedWent
    requires { Laid file.now head × (length sends.old ≡ 33) × (length receives.old ≡ 33) × (sends.old ≡ replicate (length sends.old) 0) × (receives.old ≡ replicate (length receives.old) 0)
        × (length threads.old ≡ thread_table_words) × (length beside.old ≡ beside_words) × (length owners.old ≡ 64) × (lines.old ≡ replicate 528 0) × (length seats.now ≤ 16) × (length choices.now ≤ 131070)
        × (overfilled_at (limited_of (contents_at file.now head) seats.now) (seated_start (contents_at file.now head)) (length seats.now) ≡ 0) }
    ensures { SeatedThrough (awaited_by table.now) (limited_of (contents_at file.now head) seats.now) (seated_start (contents_at file.now head))
        (start_beside (awaited_by table.now) beside.old (start (contents_at file.now head)).threads) choices.now result
        threads.new beside.new owners.new lines.new
        × Granting (schema_of (contents_at file.now head)) Sends sends.new × Granting (schema_of (contents_at file.now head)) Receives receives.new }
{
    open_seated(file, head, sends, receives, table, threads, beside, owners);
    go_seated(
        file, head, sends, receives, table, seats, choices, threads, beside, owners, lines,
    )
}
