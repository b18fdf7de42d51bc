// Inputs of any length, for a caller that keeps only their start.
ghost use Rattle.std.specs.Prelude.{◌≡◌, ◌+◌, ◌≤◌};
ghost use Rattle.format.specs.Header.{largest};
ghost use Rattle.reading.specs.Long.{enough as Long·enough};

use format::header::largest;

// How many bytes have to be kept of an input of so many: the answer on these is that on the whole input (`enough_read`).
pub fn enough(length: usize) -> usize
    ensures value { result ≡ Long·enough length }
    ensures upper_bound { result ≤ largest + 2 }
{
    let most = largest() + 2 - length % 2;
    if length < most { length } else { most }
}
