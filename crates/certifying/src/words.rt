// Numbers in lists of places and targets.
ghost use Rattle.std.specs.Prelude.{◌≡◌, ◌+◌, ◌<◌, length, get_or};

// The number at an index of a list.
pub fn number_at(list: &[u32], k: usize) -> usize
    requires { k < length list.now }
    ensures { (result ≡ get_or list.now k 0) × (result < 4294967296) }
{
    list[k] as usize
}

// The index after one that is in a list.
pub fn index_after(list: &[u32], k: usize) -> usize
    requires { k < length list.now }
    ensures { result ≡ k + 1 }
{
    k + 1
}

pub fn short(k: usize) -> u32
    requires { k < 4294967296 }
    ensures { result ≡ k }
{
    k as u32
}
