//! Limits of lists.

ghost use Rattle.std.specs.Prelude.{◌≡◌, ◌&&◌, nat_le};

/// Whether an element that begins here passes the limit of its list, which has `count` before it.
pub fn passes_limit(count: usize, limit: usize, begins: bool) -> bool
    ensures { result ≡ (nat_le limit count && begins) }
{
    count >= limit && begins
}
