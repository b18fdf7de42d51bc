// The rules of the check: grants, operands, the rules at one node, and the pass over the nodes that finds 9 to 13.
#![tactic(auto)]

pub mod grants;
pub mod judge;
pub mod names;
mod steps;

use format::Verdict;

#[derive(Clone, Copy)]
pub enum Way {
    Sends,
    Receives,
}

// The first of 9 and 10, and where these refuse nothing the first of 11 to 13.
#[derive(Clone, Copy)]
pub struct Judged {
    pub names: Verdict,
    pub roles: Verdict,
}

// A context as the pass keeps it: the session's user, the roles assigned to the user, the active set, and how many variables are bound. What these
// are stands in the table of names.
#[derive(Clone, Copy)]
pub struct Point {
    pub user: u16,
    pub assigned: u16,
    pub mask: u16,
    pub bound: u16,
}

// What a node comes to: its refusals for names and for roles, 0 where there is none, the roles that it may be given by placing, and the variable
// and the context that it leaves to its child.
#[derive(Clone, Copy)]
pub struct RuleStep {
    pub wrong: u16,
    pub barred: u16,
    pub roles: u16,
    pub binding: u32,
    pub child: Point,
}
