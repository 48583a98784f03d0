// Replays stored folds, each with what the Rust gives, and says how many it ran and how many differ. A case on standard input is six
// numbers of eight bytes (the input's length, the buffer's, and the outcome's number, place, length and pops), then the input and the answer.
#![tactic(auto)]

ghost use Rattle.std.specs.Prelude.{◌≡◌, false};
ghost use Rattle.std.proofs.Math.ListN as ListN;
ghost use Rattle.model.specs.Outcome.{numbers_of, written, outcome};

use encoding::numbers;
use ir::limit;
use std::io::Read;

// More cases than this are not read.
const MOST: u64 = 1000000;

const HEAD: usize = 48;

// The longest input and the longest buffer: one byte more than an input may have.
const LONGEST: usize = limit::INPUT + 1;

// What the buffer has before the fold.
const PAINT: u8 = 165;

// What place, length and pops are before it: no outcome has this number, so one that is not written shows.
const UNSET: usize = 1000000;

// The head of a case.
#[derive(Clone, Copy)]
struct Head {
    size: usize,
    room: usize,
    number: u8,
    place: usize,
    length: usize,
    pops: usize,
}

fn read_head(s: &[u8; HEAD]) -> Head {
    Head {
        size: numbers::read_u64(s, 0) as usize,
        room: numbers::read_u64(s, 8) as usize,
        number: s[16],
        place: numbers::read_u64(s, 24) as usize,
        length: numbers::read_u64(s, 32) as usize,
        pops: numbers::read_u64(s, 40) as usize,
    }
}

// Whether the fold does not have the head's numbers, or leaves other bytes in the buffer.
fn differs(head: Head, input: &[u8], out: &mut [u8], wanted: &[u8]) -> bool
    ensures numbers { result ≡ false → record { number = head.number; place = head.place; length = head.length; pops = head.pops } ≡ numbers_of (outcome input.now (ListN.length out.old)) }
    ensures buffer { result ≡ false → wanted.now ≡ written (outcome input.now (ListN.length out.old)) out.old }
{
    let mut place = UNSET;
    let mut length = UNSET;
    let mut pops = UNSET;
    let number = folding::mezburiko_fold(input, out, &mut place, &mut length, &mut pops);
    number != head.number
        || place != head.place
        || length != head.length
        || pops != head.pops
        || !check::same(out, wanted)
}

// Reads the rest of a case whose head was read, and runs it. One that is too long or cut off differs.
fn run_case<R: Read>(head: Head, from: &mut R) -> bool {
    if LONGEST < head.size || LONGEST < head.room || head.room < head.length {
        return true;
    }
    let mut input = [0u8; LONGEST];
    let mut out = [PAINT; LONGEST];
    let mut wanted = [PAINT; LONGEST];
    let input = &mut input[..head.size];
    let out = &mut out[..head.room];
    let wanted = &mut wanted[..head.room];
    from.read_exact(input).is_err()
        || from.read_exact(&mut wanted[..head.length]).is_err()
        || differs(head, input, out, wanted)
}

fn main(rt: HostRuntime) {
    let mut stdin = rt.stdin();
    let mut head = [0u8; HEAD];
    let mut ran: u64 = 0;
    let mut differ: u64 = 0;
    while ran < MOST && stdin.read_exact(&mut head).is_ok() {
        differ += u64::from(run_case(read_head(&head), &mut stdin));
        ran += 1;
    }
    let _ = println!(rt; "{ran} folds, {differ} differ");
}
