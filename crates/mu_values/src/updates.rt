// What an update makes of the integer in a cell.
ghost use Rattle.std.specs.Prelude.{◌≡◌, ◌-◌, ◌^◌, ◌≤◌, bit_and};
ghost use Rattle.mu_values.specs.Integers.{IsInteger};
ghost use Rattle.mu_values.specs.Updates.{updated_bits};

use crate::integers::{add, is_less, ones, subtract};
use mu_base::UpdateOp;

/// The complement of the bits that both have.
fn nand(width: u32, a: u128, b: u128) -> u128
    requires a { IsInteger width a }
    requires b { IsInteger width b }
    ensures { result ≡ 2 ^ width - 1 - bit_and a b }
{
    ones(width) - (a & b)
}

/// The integer of that many bits, 1 to 128, that a cell holds after an update by `b`, where it held `a` before. It takes constant
/// time and no memory.
pub fn updated(op: UpdateOp, width: u32, a: u128, b: u128) -> u128
    requires a { IsInteger width a }
    requires b { IsInteger width b }
    ensures { result ≡ updated_bits op width a b }
{
    match op {
        UpdateOp::Xchg => b,
        UpdateOp::Add => add(width, a, b),
        UpdateOp::Sub => subtract(width, a, b),
        UpdateOp::And => a & b,
        UpdateOp::Nand => nand(width, a, b),
        UpdateOp::Or => a | b,
        UpdateOp::Xor => a ^ b,
        UpdateOp::Max => if is_less(width, a, b) { b } else { a },
        UpdateOp::Min => if is_less(width, a, b) { a } else { b },
        UpdateOp::Umax => if a < b { b } else { a },
        UpdateOp::Umin => if a < b { a } else { b },
    }
}
