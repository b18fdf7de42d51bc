// The choices: read to their end, and their bytes taken as words.
ghost use Rattle.std.specs.Prelude.{◌+◌, ◌*◌, ◌/◌, ◌≤◌, ◌≡◌, IfErr, IfOk, length, take, drop};
ghost use Rattle.std.proofs.lemmas.List.Edits.{sets};
ghost use Rattle.io.specs.Counts.{IsPrefixLen};
ghost use Rattle.streams.specs.Kept.{kept_by};
ghost use Rattle.run.specs.WordList.{list_words, words_of_bytes};
ghost use Rattle.run.specs.WordList.{enough_bytes as WordList·enough};

use format::words::inner_word;
use std::io::Read;
use streams::{Cut, read_behind};

// Room for more bytes than any list has, and for what a read puts behind them.
pub fn no_bytes() -> [u8; 278528]
    ensures { 278528 ≡ length result }
{
    [0; 278528]
}

// Room for the words of 262,144 bytes.
pub fn no_words() -> [u16; 131072]
    ensures { 131072 ≡ length result }
{
    [0; 131072]
}

// How many bytes are kept of so many choices. A list has at most 262,140, and one of 262,144 is too long, like any longer one.
fn enough(length: usize) -> usize
    ensures value { result ≡ WordList·enough length }
    ensures upper_bound { result ≤ 262144 }
{
    length.min(262144)
}

// How many bytes are kept, where a piece of so many stands behind those kept so far: the first of both, as many as a list of the whole length has
// kept (`choices_kept` of proofs/WordLaws).
fn keep(buffer: &[u8], kept: usize, piece: usize) -> usize
    requires { kept + piece ≤ length buffer.now }
    ensures buffer_value { take result buffer.now ≡ kept_by WordList·enough (take kept buffer.now) (take piece (drop kept buffer.now)) }
    ensures upper_bound { (result ≤ kept + piece) × (result ≤ 262144) }
{
    enough(kept + piece)
}

// Reads the choices to their end, of whatever length; the answer is how many bytes at the start of the buffer are kept
// or, where a read failed, how many were. Each piece is read behind what is kept, and of both enough is kept.
// A loop has to end, so the reads are counted, up to a number that no run reaches.
pub fn read_choices<R: Read>(reader: &mut R, buffer: &mut [u8]) -> Result<usize, Cut>
    requires { length buffer.old ≡ 278528 }
    ensures prefix_len { IfOk result (λ kept. IsPrefixLen kept buffer.new) }
    ensures kept_bound { IfOk result (λ kept. kept ≤ 262144) }
    ensures cut { IfErr result (λ cut. IsPrefixLen cut.kept buffer.new × (cut.kept ≤ 262144)) }
{
    let mut kept = 0;
    for _ in 0..u64::MAX {
        match read_behind(reader, buffer, kept) {
            Ok(0) => break,
            Ok(piece) => kept = keep(buffer, kept, piece),
            Err(_) => return Err(Cut { kept }),
        }
    }
    Ok(kept)
}

// How many words a list of so many bytes is run as: 1, an odd list, where the last choice is not whole. That the run then answers 17 exactly where
// the whole input is no list is `list_stands` of proofs/WordLaws.
pub fn list_words(bytes: usize) -> usize
    ensures value { result ≡ list_words bytes }
    ensures result_bound { 2 * result ≤ bytes + 1 }
{
    if bytes % 4 == 0 { bytes / 2 } else { 1 }
}

// The words of the bytes, low byte first; a lone byte at the end is none.
pub fn put_words(bytes: &[u8], words: &mut [u16])
    requires { length bytes.now ≤ 2 * length words.old }
    ensures { words.new ≡ sets words.old 0 (words_of_bytes bytes.now 0 (length bytes.now / 2)) }
{
    for i in 0..bytes.len() / 2 {
        words[i] = inner_word(bytes, i);
    }
}
