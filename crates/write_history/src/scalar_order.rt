// An order on scalars.
ghost use Rattle.std.specs.Prelude.{◌≡◌};
ghost use Rattle.write_history.specs.ScalarOrder.{key_of, is_lower};

use mu_values::Scalar;

/// What orders a scalar: its kind, and what it holds.
#[derive(Clone, Copy)]
struct SortKey {
    kind: u8,
    first: u128,
    second: u32,
}

/// The key of a scalar.
fn key_of(scalar: Scalar) -> SortKey
    ensures { result ≡ key_of scalar }
{
    let (kind, first, second) = match scalar {
        Scalar::Null => (0, 0, 0),
        Scalar::Object(number) => (1, number as u128, 0),
        Scalar::Place { object, at } => (2, object as u128, at),
        Scalar::Func(number) => (3, number as u128, 0),
        Scalar::Stack(number) => (4, number as u128, 0),
        Scalar::Thread(number) => (5, number as u128, 0),
        Scalar::Int { width, bits } => (6, bits, width),
    };
    SortKey {
        kind,
        first,
        second,
    }
}

/// Whether a scalar comes before another in the order.
pub(crate) fn is_lower(a: Scalar, b: Scalar) -> bool
    ensures { result ≡ is_lower a b }
{
    let (a, b) = (key_of(a), key_of(b));
    if a.kind != b.kind {
        return a.kind < b.kind;
    }
    if a.first != b.first {
        return a.first < b.first;
    }
    a.second < b.second
}
