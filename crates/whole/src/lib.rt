// Arithmetic on Ints, the gates' whole numbers. The names are those of Rust's methods of `i64` where it has one.
#![tactic(auto)]

ghost use Rattle.std.specs.Prelude.{◌≡◌, ◌%◌, ◌^◌, ◌≤◌, pos, nat_abs, Float};
ghost use Rattle.std.specs.Int.Signed.{lt_z, le_z};
ghost use Rattle.std.specs.Float.{binary64};
ghost use Rattle.std.specs.Float.Ieee.{of_int};
ghost use Rattle.whole.specs.Convert.{int_of_bool, int_as_f64, EqualsInt, Examples};
ghost use Rattle.whole.specs.Compare.{eq_z, min_of, max_of};
ghost use Rattle.whole.specs.Checked.{checked_add_of, checked_sub_of, checked_mul_of, div_of, rem_of, checked_abs_of, checked_neg_of};
ghost use Rattle.whole.specs.Bits.{to_bits, from_bits, and_of, or_of, xor_of, not_of, nand_of, nor_of, shift_in_range, shift_left_of, shift_right_of, bit_count_of};

// ---- Conversion

pub fn int_of_bool(b: bool) -> i64
    ensures { result ≡ int_of_bool b }
{
    i64::from(b)
}

// Below this size every Int is a float.
const LIMIT: i64 = 1 << 53;

// The float that equals the Int. The binary digits of its size end with k zeros, counted up to 11: with 11 off, a size is below
// the limit. An Int is m times 2^k, and a float exactly where m is below the limit in size.
pub fn int_as_f64(n: i64) -> Option<f64>
    ensures value { result ≡ int_as_f64 n }
    ensures exact { (x : Float) → result ≡ Some x → EqualsInt x n }
    ensures whenever { (x : Float) → EqualsInt x n → result ≡ Some (of_int binary64 n) }
    ensures short { nat_abs n ≤ 2 ^ 53 → result ≡ Some (of_int binary64 n) }
    ensures counters { nat_abs n % 1024 ≡ 0 → result ≡ Some (of_int binary64 n) }
    ensures examples { Examples }
{
    let k = n.unsigned_abs().trailing_zeros().min(11);
    let m = n >> k;
    if (-LIMIT < m) & (m < LIMIT) {
        let significand = m as f64;
        let power = (1u64 << k) as f64;
        Some(significand * power)
    } else {
        None
    }
}

// ---- Comparison

pub fn eq(a: i64, b: i64) -> bool
    ensures { result ≡ eq_z a b }
{
    a == b
}

pub fn is_zero(n: i64) -> bool
    ensures { result ≡ eq_z n (pos 0) }
{
    n == 0
}

pub fn less(a: i64, b: i64) -> bool
    ensures { result ≡ lt_z a b }
{
    a < b
}

pub fn less_or_equal(a: i64, b: i64) -> bool
    ensures { result ≡ le_z a b }
{
    a <= b
}

pub fn min(a: i64, b: i64) -> i64
    ensures { result ≡ min_of a b }
{
    a.min(b)
}

pub fn max(a: i64, b: i64) -> i64
    ensures { result ≡ max_of a b }
{
    a.max(b)
}

// ---- Arithmetic

pub fn checked_add(a: i64, b: i64) -> Option<i64>
    ensures { result ≡ checked_add_of a b }
{
    a.checked_add(b)
}

pub fn checked_sub(a: i64, b: i64) -> Option<i64>
    ensures { result ≡ checked_sub_of a b }
{
    a.checked_sub(b)
}

pub fn unsigned_abs(n: i64) -> u64
    ensures { result ≡ nat_abs n }
{
    n.unsigned_abs()
}

pub fn checked_mul(a: i64, b: i64) -> Option<i64>
    ensures { result ≡ checked_mul_of a b }
{
    a.checked_mul(b)
}

pub fn div(a: i64, b: i64) -> Option<i64>
    ensures { result ≡ div_of a b }
{
    if b == 0 { Some(0) } else { a.checked_div(b) }
}

pub fn rem(a: i64, b: i64) -> Option<i64>
    ensures { result ≡ rem_of a b }
{
    if b == 0 { Some(0) } else { a.checked_rem(b) }
}

pub fn checked_neg(n: i64) -> Option<i64>
    ensures { result ≡ checked_neg_of n }
{
    n.checked_neg()
}

pub fn checked_abs(n: i64) -> Option<i64>
    ensures { result ≡ checked_abs_of n }
{
    n.checked_abs()
}

// ---- Bits

// The 64 bits of an Int, in two's complement.
pub fn to_bits(n: i64) -> u64
    ensures { result ≡ to_bits n }
{
    n.cast_unsigned()
}

pub fn from_bits(bits: u64) -> i64
    ensures { result ≡ from_bits bits }
{
    bits.cast_signed()
}

pub fn and(a: i64, b: i64) -> i64
    ensures { result ≡ and_of a b }
{
    a & b
}

pub fn or(a: i64, b: i64) -> i64
    ensures { result ≡ or_of a b }
{
    a | b
}

pub fn xor(a: i64, b: i64) -> i64
    ensures { result ≡ xor_of a b }
{
    a ^ b
}

pub fn not(a: i64) -> i64
    ensures { result ≡ not_of a }
{
    !a
}

pub fn nand(a: i64, b: i64) -> i64
    ensures { result ≡ nand_of a b }
{
    !(a & b)
}

pub fn nor(a: i64, b: i64) -> i64
    ensures { result ≡ nor_of a b }
{
    !(a | b)
}

fn shift_in_range(k: i64) -> bool
    ensures { result ≡ shift_in_range k }
{
    (0 <= k) & (k <= 63)
}

pub fn shift_left(a: i64, k: i64) -> Option<i64>
    ensures { result ≡ shift_left_of a k }
{
    if shift_in_range(k) {
        Some(a << k)
    } else {
        None
    }
}

pub fn shift_right(a: i64, k: i64) -> Option<i64>
    ensures { result ≡ shift_right_of a k }
{
    if shift_in_range(k) {
        Some(a >> k)
    } else {
        None
    }
}

pub fn bit_count(n: i64) -> i64
    ensures { result ≡ bit_count_of n }
{
    i64::from(to_bits(n).count_ones())
}
