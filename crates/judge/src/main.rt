// Judges the clinic file on standard input: writes the line `passes`, or `refused N P` with the refusal's number and its place.
// Where the input cannot be read, it says so on standard error and writes nothing else.
#![tactic(auto)]

fn main(rt: HostRuntime) {
    let mut buffer = [0u8; 16384];
    let Ok(kept) = streams::read_or_cut(&mut rt.stdin(), &mut buffer) else {
        streams::write_bytes(&rt.stderr(), b"judge: standard input cannot be read\n");
        return;
    };
    let verdict = checking::check(&buffer[..kept]);
    if verdict.number == 0 {
        streams::write_bytes(&rt, b"passes\n");
        return;
    }
    streams::write_refused(&rt, verdict.number, verdict.place);
}
