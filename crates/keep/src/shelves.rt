//! What the suites show after a change.

ghost use Rattle.std.specs.Prelude.{◌≡◌, IfOk};
ghost use Rattle.book.specs.Book.{shown_past};
ghost use Rattle.book.specs.Keeping.{AreSteps};

use book::Step;
use std::alloc::{AllocError, Global};
use suites::Shelves;

/// What the suites show after the steps.
pub fn shelves_after(
    alloc: Global,
    shelves: &Shelves,
    steps: &[Step],
) -> Result<Shelves, AllocError>
    requires { AreSteps shelves.now steps.now }
    ensures { IfOk result (λ after. after ≡ shown_past shelves.now steps.now) }
{
    let mut after = shelves.try_clone(alloc)?;
    for step in steps {
        after.apply(alloc, &step.plan)?;
    }
    Ok(after)
}
