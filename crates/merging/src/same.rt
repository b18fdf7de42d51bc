// Roles and kinds of two files are the same tables.
ghost use Rattle.std.specs.Prelude.{◌≡◌, ◌+◌, ◌*◌, ◌≤◌, ◌<◌, length};
ghost use Rattle.format.specs.Header.{Laid};
ghost use Rattle.format.specs.Sections.{words_from};
ghost use Rattle.format.specs.Contents.{contents_at};
ghost use Rattle.merging.specs.Merged.{same_words, same_tables};

use format::Head;

// So many words, in each file from its own place on. Where there are none, the files are not looked at.
fn same_words(first: &[u8], from: usize, second: &[u8], other: usize, count: usize) -> bool
    requires { (0 < count → 2 * (from + count) ≤ length first.now) × (0 < count → 2 * (other + count) ≤ length second.now) }
    ensures { result ≡ same_words (words_from first.now from count) (words_from second.now other count) }
{
    if count == 0 {
        return true;
    }
    first[2 * from..2 * (from + count)] == second[2 * other..2 * (other + count)]
}

// The sections of roles and kinds stand back to back in version 1.
pub fn same_tables(first: &[u8], one: Head, second: &[u8], two: Head) -> bool
    requires { Laid first.now one × Laid second.now two × (one.version ≡ 1) × (two.version ≡ 1) }
    ensures { result ≡ same_tables (contents_at first.now one) (contents_at second.now two) }
{
    let roles = one.count.roles;
    let kinds = one.count.kinds;
    if roles != two.count.roles {
        return false;
    }
    if kinds != two.count.kinds {
        return false;
    }
    same_words(
        first,
        usize::from(one.at.roles),
        second,
        usize::from(two.at.roles),
        4 * usize::from(roles) + usize::from(kinds),
    )
}
