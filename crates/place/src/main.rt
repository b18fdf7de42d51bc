// Places the clinic file on standard input: writes the placed file's bytes, or the line `refused N P` with the refusal's number and its place.
// Where the input cannot be read, it says so on standard error and writes nothing else.
#![tactic(auto)]

use format::header::LARGEST;

fn main(rt: HostRuntime) {
    let mut buffer = [0u8; 16384];
    let Ok(kept) = streams::read_or_cut(&mut rt.stdin(), &mut buffer) else {
        streams::write_bytes(&rt.stderr(), b"place: standard input cannot be read\n");
        return;
    };
    let mut out = [0u8; LARGEST];
    let placed = placing::place(&buffer[..kept], &mut out);
    if placed.number != 0 {
        streams::write_refused(&rt, placed.number, placed.place);
        return;
    }
    let length = usize::from(placed.length);
    streams::write_bytes(&rt, &out[..length]);
}
