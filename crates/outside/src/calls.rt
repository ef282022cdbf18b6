//! Counts calls, and makes the listed ones fail.

ghost use Rattle.std.specs.Prelude.{◌≡◌};
ghost use Rattle.outside.specs.Causes.{raised};
ghost use Rattle.outside.specs.Memory.{next_fails};

// Counts a call, and returns whether it has to fail. A call after 2^64 - 1 others never fails.
pub(crate) fn count_call(calls: &mut u64, failing: &[u64]) -> bool
    ensures counted { calls.new ≡ raised calls.old }
    ensures fails { result ≡ next_fails calls.old failing.now }
{
    if *calls == u64::MAX {
        return false;
    }
    *calls += 1;
    failing.contains(calls)
}
