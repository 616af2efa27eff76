//! Numbers of rows, among which others are looked up.

ghost use Rattle.std.specs.Prelude.{◌≡◌, nat_eq};
ghost use Rattle.std.specs.List.{list_any};
ghost use Rattle.std.specs.List.Sorted.{IsNonDecreasing, IsPermutation};

/// Numbers in rising order.
#[derive(Drop)]
pub(crate) struct Numbers {
    pub(crate) rising: Vec<u64>,
    ghost rise: { IsNonDecreasing rising.items },
}

impl Numbers {
    /// Whether a number is one of these.
    pub(crate) fn contain(&self, id: u64) -> bool
        ensures { result ≡ list_any (λ n. nat_eq n id) self.now.rising.items }
    {
        self.rising.binary_search(&id).is_ok()
    }
}

/// The numbers in rising order.
pub(crate) fn in_order(mut numbers: Vec<u64>) -> Numbers
    ensures { IsPermutation numbers.items result.rising.items }
{
    numbers.sort_unstable();
    Numbers { rising: numbers }
}
