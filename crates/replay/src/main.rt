// Replays the stored answers of the Rust: each line of standard input is a request and the answer, `numeric 89 6 = 5 89`. The
// request is put to the proved code, and its answer must be the same text. Says how many lines were compared, and prints each that
// differs. The list is made by tools/store-answers of the answers of the original Rust; `oracle --help` (rust/oracle) explains its lines.
// A read or a write that fails ends it with an error. Octets after the last newline are no line.
#![tactic(auto)]

ghost use Rattle.std.specs.Prelude.{◌≤◌};
ghost use Rattle.replay.specs.declared.TheConstants.{ROOM};

mod calls;
mod ruletext;
mod text;

use std::io;
use std::io::Read;

// The most octets of a line that count: what a longer line has after them is dropped.
const ROOM: usize = 20000;

// The octets of the line so far.
#[derive(Drop)]
struct Line {
    octets: [u8; ROOM],
    used: usize,
    ghost inside: { used ≤ ROOM },
}

impl Line {
    fn push(&mut self, octet: u8) {
        if self.used < ROOM {
            self.octets[self.used] = octet;
            self.used += 1;
        }
    }

    fn octets(&self) -> &[u8] {
        &self.octets[..self.used]
    }

    fn clear(&mut self) {
        self.used = 0;
    }
}

// How many lines were compared, and how many of them differ.
#[derive(Drop)]
struct Replay {
    compared: u64,
    differ: u64,
}

impl Replay {
    fn compare(&mut self, rt: &impl Print, line: &[u8]) -> io::Result<()> {
        self.compared = self.compared.wrapping_add(1);
        if calls::agrees(line) {
            return Ok(());
        }
        self.differ = self.differ.wrapping_add(1);
        rt.write_all(b"differs: ")?;
        rt.write_all(line)?;
        rt.write_all(b"\n")
    }
}

// A proved loop has to end, and nothing says that the input does: no run uses up so many turns.
fn run(rt: &impl Print, reader: &mut impl Read) -> io::Result<Replay> {
    let mut replay = Replay {
        compared: 0,
        differ: 0,
    };
    let mut line = Line {
        octets: [0; ROOM],
        used: 0,
    };
    let mut buffer = [0u8; 65536];
    for _ in 0..u64::MAX {
        let n = reader.read(&mut buffer)?;
        if n == 0 {
            break;
        }
        for &octet in &buffer[..n] {
            if octet == b'\n' {
                replay.compare(rt, line.octets())?;
                line.clear();
            } else {
                line.push(octet);
            }
        }
    }
    Ok(replay)
}

fn main(rt: HostRuntime) -> io::Result<()> {
    let Replay { compared, differ } = run(&rt, &mut rt.stdin())?;
    println!(rt; "{compared} compared, {differ} differ")
}
