// The bytes of a refusal's line.
ghost use Rattle.std.specs.Prelude.{◌+◌, ◌≤◌, ◌≡◌, length, take};
ghost use Rattle.std.proofs.lemmas.List.Edits.{sets};
ghost use Rattle.io.specs.Counts.{IsPrefixLen};
ghost use Rattle.streams.specs.Line.{decimal, refused_line};

// A text from an offset on; the answer is the offset behind it.
fn put_text(text: &[u8], line: &mut [u8], at: usize) -> usize
    requires { at + length text.now ≤ length line.old }
    ensures { (line.new ≡ sets line.old at text.now) × (result ≡ at + length text.now) }
{
    let end = at + text.len();
    line[at..end].copy_from_slice(text);
    end
}

// A number in decimal likewise.
fn put_decimal(number: u16, line: &mut [u8], at: usize) -> usize
    requires { at + 5 ≤ length line.old }
    ensures { (line.new ≡ sets line.old at (decimal number)) × (result ≡ at + length (decimal number)) }
{
    let mut text = [0u8; 20];
    let digits = io::decimal(u64::from(number), &mut text);
    put_text(&text[..digits], line, at)
}

// The line `refused N P`, at the start of the buffer; the answer is its length.
#[tactic(auto, using(crate::proofs::LineLaws::decimal_short))]
pub fn refused_line(number: u16, place: u16, line: &mut [u8]) -> usize
    requires { 20 ≤ length line.old }
    ensures prefix_len { IsPrefixLen result line.new }
    ensures line_after { take result line.new ≡ refused_line number place }
{
    let word = put_text(b"refused ", line, 0);
    let first = put_decimal(number, line, word);
    let blank = put_text(b" ", line, first);
    let second = put_decimal(place, line, blank);
    put_text(b"\n", line, second)
}
