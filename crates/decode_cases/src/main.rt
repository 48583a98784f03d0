// Decodes stored inputs and compares the answers with the stored ones. A case is eight numbers of eight bytes, the input's length, the
// refusal's number and place, and the counts of nodes, wires, properties, rows and annihilators, and then the input.
#![tactic(auto)]

ghost use Rattle.std.specs.Prelude.{◌+◌, ◌≤◌, ◌<◌, length};

use encoding::numbers;
use graph::SLOTS;

const HEAD: usize = 64;

#[derive(Clone, Copy)]
struct Step {
    next: usize,
    differs: u64,
}

fn agrees(input: &[u8], head: &[u8], table: &mut [u16; SLOTS]) -> bool
    requires { 64 ≤ length head.now }
{
    let number = numbers::read_u64(head, 8);
    match records::decode(input, table) {
        Ok(c) => {
            (number == 0)
                & (numbers::read_u64(head, 24) == c.nodes as u64)
                & (numbers::read_u64(head, 32) == c.wires as u64)
                & (numbers::read_u64(head, 40) == c.properties as u64)
                & (numbers::read_u64(head, 48) == c.rows as u64)
                & (numbers::read_u64(head, 56) == c.annihilators as u64)
        }
        Err(r) => {
            (number == u64::from(r.number())) & (numbers::read_u64(head, 16) == r.place() as u64)
        }
    }
}

// The case at an offset. One that runs past the end differs.
fn run_case(all: &[u8], at: usize, table: &mut [u16; SLOTS]) -> Step
    requires { at + 64 ≤ length all.now }
    ensures { (at < result.next) × (result.next ≤ length all.now) × (result.differs ≤ 1) }
{
    let from = at + HEAD;
    let left = (all.len() - from) as u64;
    let size = numbers::read_u64(all, at);
    if left < size {
        return Step {
            next: all.len(),
            differs: 1,
        };
    }
    let to = from + size as usize;
    let same = agrees(&all[from..to], &all[at..from], table);
    Step {
        next: to,
        differs: u64::from(!same),
    }
}

fn run_all(all: &[u8], table: &mut [u16; SLOTS]) {
    let mut ran: u64 = 0;
    let mut differ: u64 = 0;
    let mut at: usize = 0;
    while HEAD <= all.len() - at {
        let step = run_case(all, at, table);
        at = step.next;
        differ += step.differs;
        ran += 1;
    }
    io::print_decimal(1, ran);
    io::write_all(1, b" cases, ");
    io::print_decimal(1, differ);
    io::write_all(1, b" differ\n");
}

fn main() {
    let mut all = [0u8; 327680];
    let n = io::read_full(0, &mut all);
    let mut table = [0u16; SLOTS];
    run_all(&all[..n], &mut table);
}
