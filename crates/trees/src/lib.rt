// Refusal 8: the shape of the trees.
#![tactic(auto)]

mod ends;
pub mod shape;
mod sound;

// A tree that is still to be read: a session's, with its root word, or one below a node, with the number of variables bound above it.
#[derive(Clone, Copy)]
pub enum Due {
    Root(u16),
    Child(u16),
}
