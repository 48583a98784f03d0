// Replays stored gate cases, each 100 bytes on standard input with the 33 bytes that the Rust gives, and says how many
// it ran and how many differ.
#![tactic(auto)]

ghost use Rattle.std.specs.Prelude.{◌≡◌, false};
ghost use Rattle.gate_cases.specs.Cases.{given_of, answer_bytes};

use gate_cases::{CASE_SIZE, OPERAND_SIZE};

const STDIN_FILENO: i32 = 0;

const STDOUT_FILENO: i32 = 1;

// More cases than this are not read.
const MOST: u64 = 1_000_000;

// Whether a case and its answer were read whole.
fn read_entry(case: &mut [u8; CASE_SIZE], wanted: &mut [u8; OPERAND_SIZE]) -> bool {
    let first = io::read_full(STDIN_FILENO, case);
    let second = io::read_full(STDIN_FILENO, wanted);
    first + second == CASE_SIZE + OPERAND_SIZE
}

// Whether the answer to a case is another than the one stored.
fn differs(case: &[u8; CASE_SIZE], wanted: &[u8; OPERAND_SIZE]) -> bool
    ensures { result ≡ false → answer_bytes (given_of case.now) ≡ wanted.now }
{
    let mut answer = [0; OPERAND_SIZE];
    gate_cases::mezburiko_gate_case(case, &mut answer);
    answer != *wanted
}

fn main() {
    let mut case = [0; CASE_SIZE];
    let mut wanted = [0; OPERAND_SIZE];
    let mut ran: u64 = 0;
    let mut differ: u64 = 0;
    while ran < MOST && read_entry(&mut case, &mut wanted) {
        differ += u64::from(differs(&case, &wanted));
        ran += 1;
    }
    io::print_decimal(STDOUT_FILENO, ran);
    io::write_all(STDOUT_FILENO, b" gate cases, ");
    io::print_decimal(STDOUT_FILENO, differ);
    io::write_all(STDOUT_FILENO, b" differ\n");
}
