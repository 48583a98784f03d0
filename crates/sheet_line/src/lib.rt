// A line of the service sheet: 72 characters and a newline. Each writer returns the offset past what it wrote.
#![tactic(auto)]

ghost use Rattle.std.specs.Prelude.{◌≡◌, cond, [], ◌∷◌, ◌+◌, ◌/◌, ◌^◌, ◌≤◌, ◌<◌, ltb, length};
ghost use Rattle.sheet_line.specs.Limits.{line_bytes};
ghost use Rattle.encoding.specs.Numbers.{bytes_of, Written};
ghost use Rattle.sheet_line.specs.Characters.{space, spaces, digit, hex, head_text, number_text, fate_text, text, ended, header_text, Wide};
ghost use Rattle.sheet_line.specs.Reader.{ReadsBack};

use encoding::numbers;
use ir::limit;

// How many characters a line has, and how many bytes with its newline.
pub const LINE_WIDTH: usize = 72;

pub const LINE_BYTES: usize = LINE_WIDTH + 1;

// The most bytes that a sheet has: its header, and a line for each node.
pub const SHEET: usize = LINE_BYTES + LINE_BYTES * limit::NODES;

// What becomes of a node; of a literal the bits of its numbers.
#[derive(Clone, Copy)]
pub enum Fate {
    Kept,
    Removed,
    Int(u64),
    Float(u64),
    Bool(bool),
    Vector { x: u64, y: u64, z: u64 },
}

// What a line says: a node's number, its class and its fate.
#[derive(Clone, Copy)]
pub struct Line {
    pub node: usize,
    pub class: usize,
    pub fate: Fate,
}

// The place of the high half of a word.
const HALF: u64 = 0x1_0000_0000;

// ---- characters

fn digit_of(n: usize) -> u8
    ensures { result ≡ digit n }
{
    b'0' + (n % 10) as u8
}

// The character at the place of a unit: a space where the number is below it.
fn place_of(n: usize, unit: usize) -> u8
    requires { 0 < unit }
    ensures { result ≡ cond (ltb n unit) space (digit (n / unit)) }
{
    if n < unit {
        return b' ';
    }
    digit_of(n / unit)
}

// The eight hexadecimal digits of a number of 32 bits as the bytes of a word, the most significant digit lowest. All digits are told at once: lanes
// of 32 bits with 4 digits each, then of 16 with 2, then of 8 with 1; a digit from 10 on carries into the top bit of its lane.
fn hex_word(n: u64) -> u64
    requires { n < 2 ^ 32 }
    ensures { bytes_of 8 result ≡ hex 8 n }
{
    let fours = n / 0x1_0000 + n % 0x1_0000 * 0x1_0000_0000;
    let low_pairs = fours & 0x0000_00FF_0000_00FF;
    let pairs = (fours - low_pairs) / 0x100 + low_pairs * 0x1_0000;
    let low_digits = pairs & 0x000F_000F_000F_000F;
    let digits = (pairs - low_digits) / 0x10 + low_digits * 0x100;
    let carried = digits + 0x7676_7676_7676_7676;
    let letters = (carried - (carried & 0x7F7F_7F7F_7F7F_7F7F)) / 0x80;
    digits + 0x3030_3030_3030_3030 + letters * 7
}

// ---- parts of a line

fn write_text(out: &mut [u8], at: usize, bytes: &[u8]) -> usize
    requires { at + length bytes.now ≤ length out.old }
    ensures { Written bytes.now out.old out.new at result }
{
    let past = at + bytes.len();
    out[at..past].copy_from_slice(bytes);
    past
}

fn write_spaces(out: &mut [u8], at: usize, count: usize) -> usize
    requires { at + count ≤ length out.old }
    ensures { Written (spaces count) out.old out.new at result }
{
    let past = at + count;
    out[at..past].fill(b' ');
    past
}

// A line without text.
fn write_blank(out: &mut [u8], at: usize) -> usize
    requires { at + line_bytes ≤ length out.old }
    ensures { Written (ended []) out.old out.new at result }
{
    let next = write_spaces(out, at, LINE_WIDTH);
    numbers::write_byte(out, next, b'\n')
}

fn write_head(out: &mut [u8], at: usize, node: usize, class: usize) -> usize
    requires { at + 10 ≤ length out.old }
    ensures { Written (head_text node class) out.old out.new at result }
{
    let head = [
        place_of(node, 1000),
        place_of(node, 100),
        place_of(node, 10),
        digit_of(node),
        b' ',
        b' ',
        place_of(class, 10),
        digit_of(class),
        b' ',
        b' ',
    ];
    write_text(out, at, &head)
}

fn write_hex(out: &mut [u8], at: usize, n: u64) -> usize
    requires { at + 16 ≤ length out.old }
    ensures { Written (hex 16 n) out.old out.new at result }
{
    let high = hex_word(n / HALF);
    let low = hex_word(n % HALF);
    let next = numbers::write_u64(out, at, high);
    numbers::write_u64(out, next, low)
}

fn write_number(out: &mut [u8], at: usize, n: u64) -> usize
    requires { at + 18 ≤ length out.old }
    ensures { Written (number_text n) out.old out.new at result }
{
    let next = write_spaces(out, at, 2);
    write_hex(out, next, n)
}

// A letter and one number.
fn write_one(out: &mut [u8], at: usize, letter: u8, n: u64) -> usize
    requires { at + 19 ≤ length out.old }
    ensures { Written (letter ∷ number_text n) out.old out.new at result }
{
    let next = numbers::write_byte(out, at, letter);
    write_number(out, next, n)
}

fn write_vector(out: &mut [u8], at: usize, x: u64, y: u64, z: u64) -> usize
    requires { at + 55 ≤ length out.old }
    ensures { Written (fate_text (Fate.Vector x y z)) out.old out.new at result }
{
    let second = write_one(out, at, b'V', x);
    let third = write_number(out, second, y);
    write_number(out, third, z)
}

fn write_fate(out: &mut [u8], at: usize, fate: Fate) -> usize
    requires { at + 55 ≤ length out.old }
    ensures { Written (fate_text fate) out.old out.new at result }
{
    match fate {
        Fate::Kept => numbers::write_byte(out, at, b'K'),
        Fate::Removed => numbers::write_byte(out, at, b'R'),
        Fate::Int(n) => write_one(out, at, b'I', n),
        Fate::Float(n) => write_one(out, at, b'F', n),
        Fate::Bool(b) => write_one(out, at, b'B', u64::from(b)),
        Fate::Vector { x, y, z } => write_vector(out, at, x, y, z),
    }
}

// ---- lines

pub fn write_line(out: &mut [u8], at: usize, line: Line) -> usize
    requires { at + line_bytes ≤ length out.old }
    ensures written { Written (ended (text line)) out.old out.new at result }
    ensures width { Wide (ended (text line)) }
    ensures read_back { ReadsBack line }
{
    let next = write_blank(out, at);
    let past = write_head(out, at, line.node, line.class);
    let fate = line.fate;
    write_fate(out, past, fate);
    next
}

pub fn write_header(out: &mut [u8], at: usize) -> usize
    requires { at + line_bytes ≤ length out.old }
    ensures written { Written (ended header_text) out.old out.new at result }
    ensures width { Wide (ended header_text) }
{
    let next = write_blank(out, at);
    write_text(out, at, b"NODE  CL  F");
    next
}
