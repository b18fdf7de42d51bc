// The lent list of threads as a file starts, record by record.
ghost use Rattle.std.specs.Prelude.{◌≡◌, ◌≤◌, ◌<◌, length};
ghost use Rattle.std.proofs.Math.Seq.{paste};
ghost use Rattle.format.specs.Header.{Laid};
ghost use Rattle.format.specs.Contents.{contents_at};
ghost use Rattle.choices.specs.Choices.{start};

use format::Head;
use lending::starting::opening;
use steps::Thread;

// The threads of the first n sessions as they start are stored; the other records keep what they held.
pub fn start_records(list: &mut [Thread], file: &[u8], head: Head, n: usize)
    requires { (n ≤ length list.old) × (n ≤ head.count.sessions) × (0 < n → Laid file.now head) }
    ensures { list.new ≡ paste list.old 0 (start (contents_at file.now head)).threads n }
{
    for k in 0..n {
        list[k] = opening(file, head, k);
    }
}
