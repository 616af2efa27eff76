//! Lists of things that have a name. No allocator can be reached from a name, so nothing here takes memory.

ghost use Rattle.std.specs.Prelude.{◌≡◌, List, ℕ};
ghost use Rattle.std.specs.List.{find};
ghost use Rattle.std.specs.Option.{option_map};
ghost use Rattle.std.specs.Str.{str_eq_ignore_ascii_case};

use crate::line::is_same_name;

/// A thing that has a name. If no more is known of a type, its name is all that can be reached.
pub trait Named {
    ghost name_of: { Self → List ℕ };

    /// The name, as it is spelled.
    fn name(&self) -> &str
        ensures { result.now ≡ name_of self.now };
}

/// The first item of that name, ASCII case ignored.
pub fn find_named<'s, T: Named>(all: &'s [T], name: &str) -> Option<&'s T>
    ensures { option_map (λ one. one.now) result ≡ find (λ one. str_eq_ignore_ascii_case (T.name_of one) name.now) all.now }
{
    all.iter().find(|one| is_same_name(one.name(), name))
}
