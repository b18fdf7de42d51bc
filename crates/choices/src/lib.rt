// Lists of choices: the state of a run in tables, one choice carried out in them, and the choices in order.
#![tactic(auto)]

pub mod list;
pub mod state;

use steps::Answer;

// How many choices were done, and the refusal of the next, 0 if none.
#[derive(Clone, Copy)]
pub struct Progress {
    pub count: u16,
    pub refusal: u16,
}

// The same with the answer of the last choice that was tried, a refusal 0 before the first.
#[derive(Clone, Copy)]
pub struct Went {
    pub count: u16,
    pub refusal: u16,
    pub last: Answer,
}
