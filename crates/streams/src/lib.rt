// What the programs share: an input of any length, and a refusal's line.
#![tactic(auto)]

pub mod line;

ghost use Rattle.std.specs.Prelude.{◌+◌, ◌-◌, ◌≤◌, ◌≡◌, IfErr, IfOk, length, take, drop};
ghost use Rattle.io.specs.Counts.{IsPrefixLen};
ghost use Rattle.format.specs.Header.{largest};
ghost use Rattle.streams.specs.Kept.{kept_of};

use line::refused_line;
use std::io::Read;

// A read failed, and so many bytes at the start of the buffer were kept until then.
#[derive(Clone, Copy)]
pub struct Cut {
    pub kept: usize,
}

// One read into the buffer behind what is kept, which stays; the answer is the read's: how many bytes came, none at the input's end, or why it failed.
pub fn read_behind<R: Read>(
    reader: &mut R,
    buffer: &mut [u8],
    kept: usize,
) -> std::io::Result<usize>
    requires { kept ≤ length buffer.old }
    ensures moved { IfOk result (λ n. n ≤ length buffer.old - kept) }
    ensures buffer_unchanged { take kept buffer.new ≡ take kept buffer.old }
{
    reader.read(&mut buffer[kept..])
}

// How many bytes are kept, where a piece of so many stands behind those kept so far: so much of both that it stands for the whole input
// (`pieces_stand` of proofs/KeptLaws).
pub fn keep(buffer: &[u8], kept: usize, piece: usize) -> usize
    requires { kept + piece ≤ length buffer.now }
    ensures buffer_value { take result buffer.now ≡ kept_of (take kept buffer.now) (take piece (drop kept buffer.now)) }
    ensures upper_bound { (result ≤ kept + piece) × (result ≤ largest + 2) }
{
    reading::long::enough(kept + piece)
}

// Reads an input to its end, of whatever length; the answer is how many bytes at the start of the buffer stand for it,
// or why a read failed. Each piece is read behind what is kept, and of both enough is kept; of an input longer than any
// file the start stays, and what comes is read over the rest of the buffer again and again. That what is kept has the
// answer of the whole input is `stands_check` of checking/proofs/CheckLaws, `stands_placed` of placing/proofs/PlaceLaws,
// and `stands_run` and `stands_over` of running/proofs/StandLaws.
// A loop has to end, so the reads are counted, up to a number that no run reaches.
pub fn read_input<R: Read>(reader: &mut R, buffer: &mut [u8]) -> std::io::Result<usize>
    requires { length buffer.old ≡ 16384 }
    ensures { IfOk result (λ kept. IsPrefixLen kept buffer.new) }
{
    let mut kept = 0;
    for _ in 0..u64::MAX {
        match read_behind(reader, buffer, kept)? {
            0 => break,
            piece => kept = keep(buffer, kept, piece),
        }
    }
    Ok(kept)
}

// Reads an input like `read_input`; where a read failed, the answer is how many bytes were kept, and not why.
pub fn read_or_cut<R: Read>(reader: &mut R, buffer: &mut [u8]) -> Result<usize, Cut>
    requires { length buffer.old ≡ 16384 }
    ensures whole { IfOk result (λ kept. IsPrefixLen kept buffer.new) }
    ensures cut { IfErr result (λ cut. IsPrefixLen cut.kept buffer.new) }
{
    let mut kept = 0;
    for _ in 0..u64::MAX {
        match read_behind(reader, buffer, kept) {
            Ok(0) => break,
            Ok(piece) => kept = keep(buffer, kept, piece),
            Err(_) => return Err(Cut { kept }),
        }
    }
    Ok(kept)
}

// Writes the bytes. What a write that fails leaves out stays unwritten, and nothing is said of it.
pub fn write_bytes(out: &impl Print, bytes: &[u8]) {
    let _ = out.write_all(bytes);
}

// Writes the line `refused N P`.
pub fn write_refused(out: &impl Print, number: u16, place: u16) {
    let mut line = [0u8; 20];
    let length = refused_line(number, place, &mut line);
    write_bytes(out, &line[..length]);
}

#[cfg(test)]
mod tests {
    use super::*;
    use std::io::{Error, ErrorKind};
    use std::test::Fail;

    // So many bytes, and then a read that fails.
    #[derive(Drop)]
    struct Failing {
        left: usize,
    }

    impl Read for Failing {
        fn read(&mut self, buf: &mut [u8]) -> std::io::Result<usize> {
            if self.left == 0 {
                return Err(Error::from(ErrorKind::TimedOut));
            }
            let n = self.left.min(buf.len());
            self.left -= n;
            Ok(n)
        }
    }

    #[test]
    fn an_input_is_read_to_its_end(rt: HostRuntime) -> Result<(), Fail> {
        let mut buffer = [0; 16384];
        let mut input: &[u8] = b"a clinic file";
        let kept = read_input(&mut input, &mut buffer)?;
        assert_eq!(rt; &buffer[..kept], b"a clinic file".as_slice());
        Ok(())
    }

    #[test]
    fn a_failed_read_says_why(rt: HostRuntime) {
        let mut buffer = [0; 16384];
        let answer = read_input(&mut Failing { left: 5 }, &mut buffer);
        assert_eq!(rt; answer.map_err(|e| e.kind()), Err(ErrorKind::TimedOut));
    }

    #[test]
    fn a_failed_read_says_how_many_bytes_were_kept(rt: HostRuntime) {
        let mut buffer = [0; 16384];
        let answer = read_or_cut(&mut Failing { left: 5 }, &mut buffer);
        assert_eq!(rt; answer.map_err(|cut| cut.kept), Err(5));
    }
}
