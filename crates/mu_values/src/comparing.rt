// Comparisons of scalars.
ghost use Rattle.std.specs.Prelude.{◌≡◌, not};
ghost use Rattle.mu_values.specs.SameScalar.{same_scalar};
ghost use Rattle.mu_values.specs.Integers.{IsInteger};
ghost use Rattle.mu_values.specs.declared.scalars.Scalar.TheVariants as scalars;
ghost use Rattle.mu_values.specs.Comparisons.{AreComparable, compared};

use crate::integers::is_less;
use crate::scalars::Scalar;
use mu_base::CompareOp;

fn is_same(a: &Scalar, b: &Scalar) -> bool
    ensures { result ≡ same_scalar a.now b.now }
{
    match (*a, *b) {
        (
            Scalar::Int { width, bits },
            Scalar::Int {
                width: other_width,
                bits: other_bits,
            },
        ) => width == other_width && bits == other_bits,
        (Scalar::Null, Scalar::Null) => true,
        (Scalar::Object(object), Scalar::Object(other)) => object == other,
        (
            Scalar::Place { object, at },
            Scalar::Place {
                object: other,
                at: other_at,
            },
        ) => object == other && at == other_at,
        (Scalar::Func(function), Scalar::Func(other)) => function == other,
        (Scalar::Stack(stack), Scalar::Stack(other)) => stack == other,
        (Scalar::Thread(thread), Scalar::Thread(other)) => thread == other,
        _ => false,
    }
}

fn is_ordered(op: CompareOp, width: u32, a: u128, b: u128) -> bool
    requires a { IsInteger width a }
    requires b { IsInteger width b }
    ensures { result ≡ compared op (scalars.Int width a) (scalars.Int width b) }
{
    match op {
        CompareOp::Eq => a == b,
        CompareOp::Ne => a != b,
        CompareOp::Slt => is_less(width, a, b),
        CompareOp::Sle => !is_less(width, b, a),
        CompareOp::Sgt => is_less(width, b, a),
        CompareOp::Sge => !is_less(width, a, b),
        CompareOp::Ult => a < b,
        CompareOp::Ule => a <= b,
        CompareOp::Ugt => a > b,
        CompareOp::Uge => a >= b,
    }
}

/// Whether two scalars of one type compare so. Integers have an order; of other scalars `Eq` and `Ne` alone are asked, and every
/// other comparison is false. It takes constant time and no memory.
pub fn compare(op: CompareOp, a: &Scalar, b: &Scalar) -> bool
    requires { AreComparable a.now b.now }
    ensures { result ≡ compared op a.now b.now }
{
    match (op, *a, *b) {
        (CompareOp::Eq, _, _) => is_same(a, b),
        (CompareOp::Ne, _, _) => !is_same(a, b),
        (_, Scalar::Int { width, bits }, Scalar::Int { bits: other, .. }) => is_ordered(
            op, width, bits, other,
        ),
        _ => false,
    }
}
