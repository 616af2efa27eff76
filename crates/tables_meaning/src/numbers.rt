//! Numbers of rows.

ghost use Rattle.std.specs.Prelude.{◌≡◌, nat_eq};
ghost use Rattle.std.specs.List.{list_any};
ghost use Rattle.std.specs.List.Sorted.{IsNonDecreasing};

/// Whether a number is among these, which stand in rising order.
pub fn is_among(numbers: &[u64], id: u64) -> bool
    requires { IsNonDecreasing numbers.now }
    ensures { result ≡ list_any (λ n. nat_eq n id) numbers.now }
{
    numbers.binary_search(&id).is_ok()
}
