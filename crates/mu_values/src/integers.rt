// Integers of a number of bits.
ghost use Rattle.std.specs.Prelude.{◌≡◌, ◌+◌, ◌-◌, ◌*◌, ◌/◌, ◌%◌, ◌^◌, ◌<◌, ◌≤◌, pos, negsuc, neg_ℤ, ◌-ℤ◌, nat_lt, not, int_lt, int_div, int_rem, unsigned_abs, bit_and, bit_or, bit_xor, if◌then◌else◌};
ghost use Rattle.std.specs.Int.Signed.{shr_z};
ghost use Rattle.mu_values.specs.Integers.{IsInteger, signed, bits_of, shift, binary_value, converted, IsConversion, is_conversion};

use mu_base::{BinaryOp, ConvertOp};

/// The integer whose bits are all 1.
#[tactic(auto, using(crate::proofs::Masks::all_ones))]
pub fn ones(width: u32) -> u128
    requires { (1 ≤ width) × (width ≤ 128) }
    ensures { result ≡ 2 ^ width - 1 }
{
    u128::MAX >> (128 - width)
}

/// The low bits.
#[tactic(auto, using(std::proofs::lemmas::Nat::and_mask))]
pub fn low_bits(width: u32, n: u128) -> u128
    requires { (1 ≤ width) × (width ≤ 128) }
    ensures { result ≡ n % 2 ^ width }
{
    n & ones(width)
}

/// The low bits of a sum, which may need more than 128.
#[tactic(auto, using(crate::proofs::Masks::low_of_wrapped))]
pub fn add(width: u32, a: u128, b: u128) -> u128
    requires { (1 ≤ width) × (width ≤ 128) }
    ensures { result ≡ (a + b) % 2 ^ width }
{
    low_bits(width, a.wrapping_add(b))
}

/// The low bits of a product, which may need more than 128.
#[tactic(auto, using(crate::proofs::Masks::low_of_wrapped))]
fn multiply(width: u32, a: u128, b: u128) -> u128
    requires { (1 ≤ width) × (width ≤ 128) }
    ensures { result ≡ (a * b) % 2 ^ width }
{
    low_bits(width, a.wrapping_mul(b))
}

pub fn is_negative(width: u32, n: u128) -> bool
    requires { IsInteger width n }
    ensures { result ≡ not (nat_lt n (2 ^ (width - 1))) }
{
    n >= 1 << (width - 1)
}

/// Whether the one is less than the other as signed integers: where both have one sign, as unsigned ones.
pub fn is_less(width: u32, a: u128, b: u128) -> bool
    requires a { IsInteger width a }
    requires b { IsInteger width b }
    ensures { result ≡ int_lt (signed width a) (signed width b) }
{
    if is_negative(width, a) == is_negative(width, b) {
        a < b
    } else {
        is_negative(width, a)
    }
}

/// The absolute value of a signed integer.
fn magnitude(width: u32, n: u128) -> u128
    requires { IsInteger width n }
    ensures { result ≡ unsigned_abs (signed width n) }
{
    if is_negative(width, n) {
        ones(width) - n + 1
    } else {
        n
    }
}

/// The bits of -n.
pub fn negated(width: u32, n: u128) -> u128
    requires { IsInteger width n }
    ensures { result ≡ bits_of width (neg_ℤ (pos n)) }
{
    if n == 0 { 0 } else { ones(width) - n + 1 }
}

pub fn subtract(width: u32, a: u128, b: u128) -> u128
    requires a { IsInteger width a }
    requires b { IsInteger width b }
    ensures { result ≡ bits_of width (pos a -ℤ pos b) }
{
    if b <= a {
        a - b
    } else {
        ones(width) - (b - a) + 1
    }
}

fn signed_quotient(width: u32, a: u128, b: u128) -> u128
    requires a { IsInteger width a }
    requires b { IsInteger width b }
    requires divisor { 0 < b }
    ensures { result ≡ bits_of width (int_div (signed width a) (signed width b)) }
{
    let quotient = magnitude(width, a) / magnitude(width, b);
    if is_negative(width, a) == is_negative(width, b) {
        quotient
    } else {
        negated(width, quotient)
    }
}

fn signed_remainder(width: u32, a: u128, b: u128) -> u128
    requires a { IsInteger width a }
    requires b { IsInteger width b }
    requires divisor { 0 < b }
    ensures { result ≡ bits_of width (int_rem (signed width a) (signed width b)) }
{
    let remainder = magnitude(width, a) % magnitude(width, b);
    if is_negative(width, a) {
        negated(width, remainder)
    } else {
        remainder
    }
}

/// How far a shift by `b` goes.
fn distance(width: u32, b: u128) -> u32
    requires { IsInteger width b }
    ensures is { result ≡ b % width }
    ensures low { result < width }
{
    (b % width as u128) as u32
}

#[tactic(auto, using(crate::proofs::Masks::low_of_wrapped))]
fn shift_left(width: u32, a: u128, b: u128) -> u128
    requires a { IsInteger width a }
    requires b { IsInteger width b }
    ensures { result ≡ (a * shift width b) % 2 ^ width }
{
    low_bits(width, a << distance(width, b))
}

fn shift_right(width: u32, a: u128, b: u128) -> u128
    requires a { IsInteger width a }
    requires b { IsInteger width b }
    ensures { result ≡ a / shift width b }
{
    a >> distance(width, b)
}

/// A negative integer is the complement of one that is not.
fn shift_signed(width: u32, a: u128, b: u128) -> u128
    requires a { IsInteger width a }
    requires b { IsInteger width b }
    ensures { result ≡ bits_of width (shr_z (signed width a) (shift width b)) }
{
    if is_negative(width, a) {
        ones(width) - shift_right(width, ones(width) - a, b)
    } else {
        shift_right(width, a, b)
    }
}

/// What the operation makes of two integers of that many bits, 1 to 128. None comes exactly where a divisor is 0. The least
/// integer divided by -1 is itself, with remainder 0. It takes constant time and no memory.
pub fn binary(op: BinaryOp, width: u32, a: u128, b: u128) -> Option<u128>
    requires a { IsInteger width a }
    requires b { IsInteger width b }
    ensures { result ≡ binary_value op width a b }
{
    match op {
        BinaryOp::Add => Some(add(width, a, b)),
        BinaryOp::Sub => Some(subtract(width, a, b)),
        BinaryOp::Mul => Some(multiply(width, a, b)),
        BinaryOp::Sdiv => if b == 0 {
            None
        } else {
            Some(signed_quotient(width, a, b))
        },
        BinaryOp::Srem => if b == 0 {
            None
        } else {
            Some(signed_remainder(width, a, b))
        },
        BinaryOp::Udiv => if b == 0 { None } else { Some(a / b) },
        BinaryOp::Urem => if b == 0 { None } else { Some(a % b) },
        BinaryOp::Shl => Some(shift_left(width, a, b)),
        BinaryOp::Lshr => Some(shift_right(width, a, b)),
        BinaryOp::Ashr => Some(shift_signed(width, a, b)),
        BinaryOp::And => Some(a & b),
        BinaryOp::Or => Some(a | b),
        BinaryOp::Xor => Some(a ^ b),
    }
}

/// Whether the conversion leads from one width to another: `Trunc` makes no integer wider, `Zext` and `Sext` none narrower. The widths may
/// be any; it takes constant time and no memory.
pub fn is_conversion(op: ConvertOp, from: u128, to: u128) -> bool
    ensures { result ≡ is_conversion op from to }
{
    match op {
        ConvertOp::Trunc => to <= from,
        ConvertOp::Zext | ConvertOp::Sext => from <= to,
    }
}

/// What the integer of width `from` is at width `to`. It takes constant time and no memory.
pub fn convert(op: ConvertOp, from: u32, to: u32, bits: u128) -> u128
    requires bits { IsInteger from bits }
    requires to { (1 ≤ to) × (to ≤ 128) }
    requires fits { IsConversion op from to }
    ensures { result ≡ converted op from to bits }
{
    match op {
        ConvertOp::Trunc => low_bits(to, bits),
        ConvertOp::Zext => bits,
        ConvertOp::Sext => extend(from, to, bits),
    }
}

fn extend(from: u32, to: u32, bits: u128) -> u128
    requires bits { IsInteger from bits }
    requires to { from ≤ to }
    requires low { to ≤ 128 }
    ensures { result ≡ bits_of to (signed from bits) }
{
    if is_negative(from, bits) {
        ones(to) - (ones(from) - bits)
    } else {
        bits
    }
}
