// A place's digits, written and read.
ghost use Rattle.std.specs.Prelude.{◌≡◌, ◌+◌, ◌<◌, ◌≤◌, length, take, drop};
ghost use Rattle.std.specs.Char.{is_ascii_digit};
ghost use Rattle.std.specs.List.{prefix_len};
ghost use Rattle.phrases.specs.Phrases.{put_into};
ghost use Rattle.reasons.specs.Reasons.{digits_of, last_digit, digits_at, numeral};

// The last digit of a number, none of 0; where it ends.
fn put_digit(n: u16, out: &mut [u8], at: usize) -> usize
    requires { at < length out.old }
    ensures { (result ≡ at + length (last_digit n)) × (out.new ≡ put_into out.old at (last_digit n)) }
{
    if n == 0 {
        return at;
    }
    out[at] = b'0' + (n % 10) as u8;
    at + 1
}

// The digits of a number, none of 0; where they end.
pub fn put_digits(n: u16, out: &mut [u8], at: usize) -> usize
    requires { at + 5 ≤ length out.old }
    ensures { (result ≡ at + length (digits_of 5 n)) × (out.new ≡ put_into out.old at (digits_of 5 n)) }
{
    let tens = n / 10;
    let hundreds = tens / 10;
    let thousands = hundreds / 10;
    let a = put_digit(thousands / 10, out, at);
    let b = put_digit(thousands, out, a);
    let c = put_digit(hundreds, out, b);
    let d = put_digit(tens, out, c);
    put_digit(n, out, d)
}

// At most five bytes from a place.
fn five_from(s: &[u8], at: usize) -> &[u8]
    ensures part { result.now ≡ take 5 (drop at s.now) }
    ensures few { length result.now ≤ 5 }
{
    let rest = &s[at.min(s.len())..];
    &rest[..rest.len().min(5)]
}

// How many digits are at the start.
fn leading_digits(s: &[u8]) -> usize
    ensures value { result ≡ prefix_len is_ascii_digit s.now }
    ensures within { result ≤ length s.now }
{
    s.iter().take_while(|b| b.is_ascii_digit()).count()
}

// Where at most five digits from a place end.
pub fn digits_end(s: &[u8], at: usize) -> usize
    ensures { result ≡ at + digits_at 5 (drop at s.now) }
{
    at + leading_digits(five_from(s, at))
}

// The number that at most five digits from a place say.
pub fn numeral_at(s: &[u8], at: usize) -> usize
    ensures { (result ≡ numeral 5 0 (drop at s.now)) × (result ≤ 99999) }
{
    let next = five_from(s, at);
    let mut a: usize = 0;
    for b in next {
        if !b.is_ascii_digit() {
            return a;
        }
        a = 10 * a + usize::from(*b - b'0');
    }
    a
}
