// Seats for each role: who has a role, and the lines.
#![tactic(auto)]

pub mod lines;
pub mod seat;
pub mod sessions;

// Of the state in which a seated run stands: number and place as the run's; how many choices were answered 26, and what the last one done was answered (26 or
// 0); for each role the seats taken, how many wait, and its line from 32 * (r - 1) on, 0 past those waiting; for each kind how many threads wait for it.
#[repr(C)]
#[derive(Clone, Copy)]
pub struct Seats {
    pub number: u16,
    pub place: u16,
    pub waited: u16,
    pub last: u16,
    pub taken: [u16; 16],
    pub waiting: [u16; 16],
    pub line: [u16; 512],
    pub totals: [u16; 32],
}
