// Names and kinds alone: a shorter pass over the nodes for 9 and 10, which also tells what each node is reached with.
#![tactic(auto)]

pub mod pass;
pub mod scopes;

// What a node comes to, for names alone: its refusal, 0 where there is none, its variable, how many variables its child has, and of a receive the kind of
// its channel.
#[derive(Clone, Copy)]
pub struct NameStep {
    pub wrong: u16,
    pub binding: u32,
    pub bound: u16,
    pub awaits: u16,
}
