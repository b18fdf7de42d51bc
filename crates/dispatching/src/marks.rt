// Which threads have moved, as one number: item p stands for thread p.
ghost use Rattle.std.specs.Prelude.{◌≡◌, ◌≤◌, ◌<◌};
ghost use Rattle.masks.specs.Mask.{has, with};
ghost use Rattle.dispatching.specs.Marks.{close_up};

// Whether thread p has moved.
pub fn has_moved(moved: u64, p: u16) -> bool
    requires { (0 < p) × (p ≤ 64) }
    ensures { result ≡ has moved p }
{
    (moved >> (p - 1)) % 2 == 1
}

// Thread p has moved.
pub fn with_moved(moved: u64, p: u16) -> u64
    requires { (0 < p) × (p ≤ 64) }
    ensures { result ≡ with moved p }
{
    moved | (1u64 << (p - 1))
}

// Thread p is gone: the marks above its own move down by one.
pub fn close_up(moved: u64, p: u16) -> u64
    requires { (0 < p) × (p ≤ 64) }
    ensures { result ≡ close_up moved p }
{
    let high = moved >> (p - 1);
    ((high / 2) << (p - 1)) | (moved % (1u64 << (p - 1)))
}
