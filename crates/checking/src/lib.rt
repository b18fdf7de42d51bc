// The check of a clinic file: the refusals 1 to 8 (21 among them), then 9 and 10 together by node, then 11 to 13 by node.
#![tactic(auto)]

ghost use Rattle.std.specs.Prelude.{◌≡◌, length};
ghost use Rattle.checking.specs.Check.{reading_names, checking, entered, scoped, examined, surveyed, Admitted, examined_from, surveyed_from};

use format::{Head, Verdict};
use naming::pass::judge_names;
use reading::{open, with_head};
use rules::judge::judge;

// The file's head or the first of 1 to 10, and where these refuse nothing the first of 11 to 13.
#[derive(Clone, Copy)]
pub struct Examined {
    pub names: Result<Head, Verdict>,
    pub roles: Verdict,
}

// The file's head, or the first of the refusals 1 to 10; and what each node is reached with, where 1 to 8 refuse nothing, in the table from index 1
// on, as far as there is room and 9 and 10 refuse nothing.
pub fn enter_scoped(file: &[u8], scopes: &mut [u64]) -> Result<Head, Verdict>
    ensures { (result ≡ entered file.now) × (scopes.new ≡ scoped file.now scopes.old) }
{
    let head = open(file)?;
    with_head(head, judge_names(file, head, scopes))
}

// The same, with a table that has no room.
pub fn enter(file: &[u8]) -> Result<Head, Verdict>
    ensures { result ≡ entered file.now }
{
    let mut scopes = [0u64; 1];
    enter_scoped(file, &mut scopes)
}

// The first of the refusals 1 to 10.
pub fn read_names(file: &[u8]) -> Verdict
    ensures { result ≡ reading_names file.now }
{
    match enter(file) {
        Err(first) => first,
        Ok(_) => Verdict::FINE,
    }
}

// Of a file whose way in was judged: 9 to 13, and each node's candidates in the table from index 1 on, as far as 9 and 10 refuse nothing. Where there is
// no head, what refuses it.
pub fn examine_opened(file: &[u8], answer: Result<Head, Verdict>, roles: &mut [u16]) -> Examined
    requires { Admitted file.now answer × (length roles.old ≡ 1025) }
    ensures { (result ≡ examined_from file.now answer) × (roles.new ≡ surveyed_from file.now answer roles.old) }
{
    match answer {
        Err(first) => Examined {
            names: Err(first),
            roles: Verdict::FINE,
        },
        Ok(head) => {
            let judged = judge(file, head, roles);
            let names = judged.names;
            let roles = judged.roles;
            Examined {
                names: with_head(head, names),
                roles,
            }
        }
    }
}

// What `check` and placing need: 1 to 13, and each node's candidates, where 1 to 8 refuse nothing, in the table from index 1 on, as far as 9 and 10
// refuse nothing.
pub fn examine(file: &[u8], roles: &mut [u16]) -> Examined
    requires { length roles.old ≡ 1025 }
    ensures { (result ≡ examined file.now) × (roles.new ≡ surveyed file.now roles.old) }
{
    examine_opened(file, open(file), roles)
}

// The first of the refusals 1 to 13.
pub fn check(file: &[u8]) -> Verdict
    ensures { result ≡ checking file.now }
{
    let mut roles = [0u16; 1025];
    let found = examine(file, &mut roles);
    match found.names {
        Err(first) => first,
        Ok(_) => found.roles,
    }
}
