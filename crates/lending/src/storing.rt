// What is stored in a lent list after a choice: the two threads that it leaves, and the numbers of those whose records change.
ghost use Rattle.std.specs.Prelude.{◌≡◌, ◌<◌, ◌^◌};
ghost use Rattle.lending.specs.Storing.{first_to, second_to, down_to};

use steps::{Acted, Answer, Thread};

pub fn first_of(it: Acted) -> Thread
    ensures { result ≡ it.first }
{
    it.first
}

pub fn second_of(it: Acted) -> Thread
    ensures { result ≡ it.second }
{
    it.second
}

// The thread whose record takes the first, of thread i; 0 for none.
pub fn first_to(i: usize, it: Acted) -> usize
    ensures { result ≡ first_to i it.answer }
{
    match it.answer {
        Answer::Refused(_) | Answer::Ends => 0,
        _ => i,
    }
}

// The thread whose record takes the second, of so many and the partner p; 0 for none.
pub fn second_to(count: usize, p: usize, it: Acted) -> usize
    requires { second_to count p it.answer < 2 ^ 64 }
    ensures { result ≡ second_to count p it.answer }
{
    match it.answer {
        Answer::Adds => count + 1,
        Answer::Meets => p,
        _ => 0,
    }
}

// Up to which of so many threads those after thread i move down by one.
pub fn down_to(count: usize, i: usize, it: Acted) -> usize
    ensures { result ≡ down_to count i it.answer }
{
    match it.answer {
        Answer::Ends => count,
        _ => i,
    }
}
