// Lists what standard input is by the IPv4 reading, as document 01 has it. It reads 4,098 octets at most: one more than an input may have tells a
// longer one. The listing is proved in `listing`; what is read and written is told by no contract. There is no exit status to tell a
// refusal by: `status` in the listing does. A read or a write that fails ends it with an error.
#![tactic(auto)]

ghost use Rattle.std.specs.Prelude.{◌≤◌, length, IfOk};

use std::io;
use std::io::{Print, Read};

// Reads until the buffer is full or the input ends, and answers how many octets it put at the buffer's start.
// By hand: without a heap std has only read_exact, which doesn't say how many octets came before the end.
fn read_full<R: Read>(reader: &mut R, buffer: &mut [u8]) -> io::Result<usize>
    ensures { IfOk result (λ n. n ≤ length buffer.new) }
{
    let mut done = 0;
    while done < buffer.len() {
        let n = reader.read(&mut buffer[done..])?;
        if n == 0 {
            break;
        }
        done += n;
    }
    Ok(done)
}

fn main(rt: HostRuntime) -> io::Result<()> {
    let mut input = [0u8; 4098];
    let n = read_full(&mut rt.stdin(), &mut input)?;
    let mut out = [0u8; 65536];
    let size = listing::list_whole(&input[..n], &mut out);
    rt.write_all(&out[..size])
}
