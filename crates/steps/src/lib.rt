// Threads, and one choice by value on what it touches.
#![tactic(auto)]

pub mod act;
pub mod beside;
pub mod records;
pub mod threads;

use masks::ChannelKind;

// A thread: its user, its node, its active mask, and the values of its eight variables, 0 where nothing is bound.
#[repr(C)]
#[derive(Clone, Copy)]
pub struct Thread {
    pub user: u16,
    pub node: u16,
    pub mask: u16,
    pub vars: [u16; 8],
}

// A made channel.
#[derive(Clone, Copy)]
pub struct Made {
    pub owner: u16,
    pub kind: ChannelKind,
}

// The partner that a choice names: none, a thread, or no thread of the list.
#[derive(Clone, Copy)]
pub enum Partner {
    Alone,
    With(Thread),
    Missing,
}

// Two threads after a choice.
#[derive(Clone, Copy)]
pub struct Pair {
    pub first: Thread,
    pub second: Thread,
}

// A thread after new, and the channel made.
#[derive(Clone, Copy)]
pub struct Making {
    pub thread: Thread,
    pub made: Made,
}

// What a choice comes to: refused; a thread moves on alone; it goes on and a new last thread with it; it goes on with a made channel;
// it is removed; sender and receiver both move on.
#[derive(Clone, Copy)]
pub enum Outcome {
    Refused(u16),
    Moves(Thread),
    Adds(Pair),
    Makes(Making),
    Ends,
    Meets(Pair),
}

// What a choice comes to, but for the threads that it leaves: an enum may hold no array.
#[derive(Clone, Copy)]
pub enum Answer {
    Refused(u16),
    Moves,
    Adds,
    Makes(Made),
    Ends,
    Meets,
}

// What a choice comes to, by value: the answer and the threads that it leaves, all 0 where there is none.
#[derive(Clone, Copy)]
pub struct Acted {
    pub answer: Answer,
    pub first: Thread,
    pub second: Thread,
}
