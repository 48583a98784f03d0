// Folds the graph that standard input says, as raw bytes, and writes the answer, or one line that says the refusal, to standard output.
#![tactic(auto)]

ghost use Rattle.std.specs.Prelude.{◌≤◌, IfOk, length};

use ir::limit;
use std::io;
use std::io::Read;

// One byte more than an input may have, so that a longer one is seen to be too long.
const MOST: usize = limit::INPUT + 1;

const ROOM: usize = 65536;

// Reads to the end of the input, or until the buffer is full. How many bytes came.
fn read_input<R: Read>(from: &mut R, buffer: &mut [u8]) -> io::Result<usize>
    ensures { IfOk result (λ n. n ≤ length buffer.new) }
{
    let mut done = 0;
    while done < buffer.len() {
        let n = from.read(&mut buffer[done..])?;
        if n == 0 {
            break;
        }
        done += n;
    }
    Ok(done)
}

// Whether no more comes of an input that ended.
fn at_end<R: Read>(from: &mut R) -> bool {
    let mut byte = [0u8; 1];
    matches!(from.read(&mut byte), Ok(0))
}

// Folds into a buffer, and writes what came.
fn fold<P: Print>(rt: &P, input: &[u8], out: &mut [u8]) -> io::Result<()> {
    match folding::fold(input, out) {
        Ok(folded) => rt.write_all(&out[..folded.length]),
        Err(refusal) => println!(rt; "refused {} at {}", refusal.number(), refusal.place()),
    }
}

fn main(rt: HostRuntime) {
    let mut input = [0u8; MOST];
    let mut stdin = rt.stdin();
    let n = match read_input(&mut stdin, &mut input) {
        Ok(n) if n == MOST || at_end(&mut stdin) => n,
        _ => {
            let _ = eprintln!(rt; "fold: the input cannot be read");
            return;
        }
    };
    let mut out = [0u8; ROOM];
    if fold(&rt, &input[..n], &mut out).is_err() {
        let _ = eprintln!(rt; "fold: the answer cannot be written");
    }
}
