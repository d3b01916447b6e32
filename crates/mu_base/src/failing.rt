// The calls that are to fail.
ghost use Rattle.std.specs.Prelude.{◌≡◌};
ghost use Rattle.mu_base.specs.Memory.{fails};

// Whether the call with that number is one of those that fail.
pub fn stands_in(failing: &[u32], number: u64) -> bool
    ensures { result ≡ fails failing.now number }
{
    failing.iter().any(|n| u64::from(*n) == number)
}
