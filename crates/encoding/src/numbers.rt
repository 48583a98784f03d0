// Little-endian numbers.
ghost use Rattle.std.specs.Prelude.{◌≡◌, ◌+◌, ◌≤◌, ◌<◌, length, [], ◌∷◌};
ghost use Rattle.encoding.specs.Numbers.{u16_at, u64_at, bytes_of, Written};

pub fn read_u16(s: &[u8], at: usize) -> usize
    requires { at + 2 ≤ length s.now }
    ensures { (result ≡ u16_at s.now at) × (result < 65536) }
{
    usize::from(u16::from_le_bytes([s[at], s[at + 1]]))
}

pub fn read_u64(s: &[u8], at: usize) -> u64
    requires { at + 8 ≤ length s.now }
    ensures { result ≡ u64_at s.now at }
{
    let mut bytes = [0u8; 8];
    bytes.copy_from_slice(&s[at..at + 8]);
    u64::from_le_bytes(bytes)
}

// Each writer returns the offset past what it wrote.
pub fn write_byte(out: &mut [u8], at: usize, x: u8) -> usize
    requires { at + 1 ≤ length out.old }
    ensures { Written (x ∷ []) out.old out.new at result }
{
    out[at] = x;
    at + 1
}

// The two low bytes of a number.
pub fn write_u16(out: &mut [u8], at: usize, x: usize) -> usize
    requires { at + 2 ≤ length out.old }
    ensures { Written (bytes_of 2 x) out.old out.new at result }
{
    out[at..at + 2].copy_from_slice(&x.to_le_bytes()[..2]);
    at + 2
}

pub fn write_u64(out: &mut [u8], at: usize, x: u64) -> usize
    requires { at + 8 ≤ length out.old }
    ensures { Written (bytes_of 8 x) out.old out.new at result }
{
    out[at..at + 8].copy_from_slice(&x.to_le_bytes());
    at + 8
}

// A record's kind and node.
pub fn write_head(out: &mut [u8], at: usize, kind: u8, node: usize) -> usize
    requires { at + 3 ≤ length out.old }
    ensures { Written (kind ∷ bytes_of 2 node) out.old out.new at result }
{
    let past_kind = write_byte(out, at, kind);
    write_u16(out, past_kind, node)
}
