// Square roots: of a whole number with what is over, and of a float.
#![tactic(auto)]

ghost use Rattle.std.specs.Prelude.{◌≡◌, ◌+◌, ◌*◌, ◌/◌, ◌^◌, ◌≤◌, ◌<◌};
ghost use Rattle.root.specs.WholeRoot.{IsWholeRoot, OnlyWholeRoot, whole_root_of};
ghost use Rattle.root.specs.Steps.{Near};

pub mod float;

// The whole root of a number, and the number less its square.
#[derive(Clone, Copy)]
pub struct WholeRoot {
    pub root: u64,
    pub remainder: u64,
}

// A number near the root of n, from one near the root of n / (2 * scale)^2: Newton's step. With as many digits as scale has, or
// more, the one before is near enough.
fn closer(n: u64, near: u64, scale: u64) -> u64
    requires { Near (n / (4 * scale * scale)) near × (0 < scale) × (scale ≤ near) }
    ensures { Near n result }
{
    near * scale + n / (4 * scale) / near
}

// A number near the root of n, for an n of 2^62 or more. The first is near the root of the eight highest digits: a line from
// 8.8 at 64 to 16.8 at 256.
fn near_root(n: u64) -> u64
    requires { 2 ^ 62 ≤ n }
    ensures { Near n result }
{
    let first = ((n >> 56) + 147) / 24;
    let second = closer(n >> 48, first, 8);
    let third = closer(n >> 32, second, 128);
    closer(n, third, 32768)
}

// The root of n, from a number near it.
fn root_at(n: u64, near: u64) -> WholeRoot
    requires { Near n near }
    ensures { IsWholeRoot n result.root result.remainder }
{
    let below = near - 1;
    let over = n - below * below;
    let double = 2 * below;
    if over <= double {
        WholeRoot {
            root: below,
            remainder: over,
        }
    } else {
        WholeRoot {
            root: near,
            remainder: over - double - 1,
        }
    }
}

// The whole root of any number, and what is over.
pub fn whole_root(n: u64) -> WholeRoot
    ensures root { IsWholeRoot n result.root result.remainder }
    ensures only { OnlyWholeRoot n result.root result.remainder }
    ensures largest { result.root ≡ whole_root_of n }
{
    if n == 0 {
        return WholeRoot {
            root: 0,
            remainder: 0,
        };
    }
    let half = n.leading_zeros() / 2;
    let high = near_root(n << (2 * half));
    root_at(n, high >> half)
}

// `whole_root` in numbers, as root_c gives it to other languages: the root, and the remainder through the pointer.
pub fn mezburiko_whole_root(n: u64, remainder: &mut u64) -> u64
    ensures root { IsWholeRoot n result remainder.new }
    ensures only { OnlyWholeRoot n result remainder.new }
    ensures largest { result ≡ whole_root_of n }
{
    let r = whole_root(n);
    *remainder = r.remainder;
    r.root
}
