// States of a run with seats as rows of words: whether a row fits, the state of a row put into the tables, and the
// state that the tables hold compared with a row.
#![tactic(auto)]

pub mod compare;
pub mod fits;
pub mod load;
pub mod words;
