// The words beside a list of threads: how many threads, how many made channels, owner and kind of 64 made channels, and for each of the kinds 1 to 32 how many
// threads wait for it, which is to stand at a receive on a channel of that kind.
ghost use Rattle.std.specs.Prelude.{◌≡◌, ◌+◌, ◌*◌, ◌-◌, ◌%◌, ◌<◌, cond, length, get_or, set};
ghost use Rattle.format.specs.Contents.{in_count};
ghost use Rattle.naming.specs.Scopes.{awaited_by};
ghost use Rattle.steps.specs.Acted.{outcome_of};
ghost use Rattle.steps.specs.Beside.{beside_words, thread_count, made_count, made_at, with_threads, one_made, cleared, start_words, totals_in, total_in, total_words, total_at, one_more, one_less, totals_by};

use super::{Acted, Answer, Made};
use format::sections::in_count;
use masks::ChannelKind;
use naming::scopes::awaited_by;

pub const BESIDE: usize = 162;

// How many kinds have a total, and where the first stands: that of kind k stands at 129 + k.
pub const TOTALS: usize = 32;

const FIRST: usize = 130;

// How many threads; no words tell of none.
pub fn thread_count(beside: &[u16]) -> u16
    ensures { result ≡ thread_count beside.now }
{
    if 0 < beside.len() {
        return beside[0];
    }
    0
}

// How many made channels.
pub fn made_count(beside: &[u16]) -> u16
    ensures { result ≡ made_count beside.now }
{
    if 1 < beside.len() {
        return beside[1];
    }
    0
}

// The made channel of an index, from 0 on.
pub fn made_at(beside: &[u16], i: usize) -> Made
    requires { (length beside.now ≡ beside_words) × (i < 64) }
    ensures { result ≡ made_at beside.now (2 * i + 2) }
{
    let at = 2 * i + 2;
    Made {
        owner: beside[at],
        kind: ChannelKind(beside[at + 1]),
    }
}

// Another number of threads.
pub fn set_threads(beside: &mut [u16], n: u16)
    requires { length beside.old ≡ beside_words }
    ensures { beside.new ≡ with_threads beside.old n }
{
    beside[0] = n;
}

// One made channel more.
pub fn add_made(beside: &mut [u16], made: Made)
    requires { (length beside.old ≡ beside_words) × (made_count beside.old < 64) }
    ensures { beside.new ≡ one_made beside.old made }
{
    let n = made_count(beside);
    let at = 2 * usize::from(n);
    beside[at + 2] = made.owner;
    beside[at + 3] = made.kind.0;
    beside[1] = n + 1;
}

// No thread waits.
fn clear_totals(beside: &mut [u16])
    requires { length beside.old ≡ beside_words }
    ensures { beside.new ≡ cleared beside.old }
{
    beside[FIRST..FIRST + TOTALS].fill(0);
}

// So many threads, no channel made, and no thread that waits.
pub fn start_words(beside: &mut [u16], threads: u16)
    requires { length beside.old ≡ beside_words }
    ensures { beside.new ≡ start_words beside.old threads }
{
    beside[0] = threads;
    beside[1] = 0;
    clear_totals(beside);
}

// How many threads wait for a kind; 0 for another kind than 1 to 32, and beside another number of words.
pub fn total(beside: &[u16], kind: u16) -> u16
    ensures { result ≡ total_in beside.now kind }
{
    if !in_count(32, kind) {
        return 0;
    }
    if beside.len() == BESIDE {
        return beside[129 + usize::from(kind)];
    }
    0
}

// All totals, the first kind's first.
pub fn totals_of(beside: &[u16]) -> [u16; TOTALS]
    requires { length beside.now ≡ beside_words }
    ensures { result ≡ totals_in beside.now }
{
    let mut all = [0u16; TOTALS];
    all.copy_from_slice(&beside[FIRST..FIRST + TOTALS]);
    all
}

// A number added to a kind's total, as words are added; what is no kind of 1 to 32 has none. No branch: whether a thread reaches a receive can't be foreseen.
fn add_to(beside: &mut [u16], kind: ChannelKind, by: u16)
    requires { length beside.old ≡ beside_words }
    ensures { beside.new ≡ cond (in_count total_words kind.0) (set beside.old (total_at kind.0) ((get_or beside.old (total_at kind.0) 0 + by) % 65536)) beside.old }
{
    let counts = in_count(32, kind.0) as u16;
    let at = 129 + usize::from(kind.0 * counts);
    beside[at] = beside[at].wrapping_add(by * counts);
}

// One more thread waits for a kind.
fn one_more(beside: &mut [u16], kind: ChannelKind)
    requires { length beside.old ≡ beside_words }
    ensures { beside.new ≡ one_more beside.old kind.0 }
{
    add_to(beside, kind, 1);
}

// One less.
fn one_less(beside: &mut [u16], kind: ChannelKind)
    requires { length beside.old ≡ beside_words }
    ensures { beside.new ≡ one_less beside.old kind.0 }
{
    add_to(beside, kind, 65535);
}

// A thread reaches a node: by the table of what each node is reached with, it waits there for a kind or for none. A table without room has no kinds, and
// nobody is counted by it.
pub fn reach(beside: &mut [u16], table: &[u64], node: u16)
    requires { length beside.old ≡ beside_words }
    ensures { beside.new ≡ one_more beside.old (awaited_by table.now node) }
{
    if table.len() == 0 {
        return;
    }
    one_more(beside, awaited_by(table, node));
}

// A thread has gone on to a node from the one before it.
fn leave(beside: &mut [u16], table: &[u64], next: u16)
    requires { length beside.old ≡ beside_words }
    ensures { beside.new ≡ one_less beside.old (awaited_by table.now (next - 1)) }
{
    if table.len() == 0 {
        return;
    }
    one_less(beside, awaited_by(table, next.saturating_sub(1)));
}

// The totals after a choice. A lone step leaves no receive, a meeting leaves the receiver's.
pub fn recount(beside: &mut [u16], table: &[u64], it: Acted)
    requires { length beside.old ≡ beside_words }
    ensures { beside.new ≡ totals_by (awaited_by table.now) beside.old (outcome_of it) }
{
    let answer = it.answer;
    let first = it.first;
    let second = it.second;
    match answer {
        Answer::Refused(_) => {}
        Answer::Moves => {
            reach(beside, table, first.node);
        }
        Answer::Adds => {
            reach(beside, table, first.node);
            reach(beside, table, second.node);
        }
        Answer::Makes(_) => {
            reach(beside, table, first.node);
        }
        Answer::Ends => {}
        Answer::Meets => {
            leave(beside, table, second.node);
            reach(beside, table, first.node);
            reach(beside, table, second.node);
        }
    }
}
