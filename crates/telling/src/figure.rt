//! Figures for monitoring.

ghost use Rattle.std.specs.Prelude.{◌≡◌, ◌≤◌, IfErr, IfOk};
ghost use Rattle.figures.specs.Families.{families};
ghost use Rattle.figures.specs.Printing.{metrics_text, status_text};
ghost use Rattle.book.specs.Book.{latest};
ghost use Rattle.book.specs.Keeping.{Apart, Reads};
ghost use Rattle.telling.specs.Told.{MayRefuse};

use crate::fault::TellFault;
use book::Keeper;
use figures::{metrics, status};
use std::alloc::Global;

/// The figures at a moment, in Prometheus' text format.
pub fn tell_figures<K: Keeper>(alloc: Global, keeper: &mut K, at: u64) -> Result<Vec<u8>, TellFault>
    requires in_time { at ≤ latest }
    ensures reads { Reads K.is_clean K.is_open K.faults K.book K.may_leave keeper.old keeper.new }
    ensures told { K.is_clean keeper.new → IfOk result (λ text. Apart (K.book keeper.old) (text.items ≡ metrics_text (families at (K.book keeper.old)))) }
    ensures cause { IfErr result (MayRefuse K.may_fail) }
{
    Ok(metrics(alloc, keeper, at)?)
}

/// The figures at a moment, as lines.
pub fn tell_status<K: Keeper>(alloc: Global, keeper: &mut K, at: u64) -> Result<Vec<u8>, TellFault>
    requires in_time { at ≤ latest }
    ensures reads { Reads K.is_clean K.is_open K.faults K.book K.may_leave keeper.old keeper.new }
    ensures told { K.is_clean keeper.new → IfOk result (λ text. Apart (K.book keeper.old) (text.items ≡ status_text (families at (K.book keeper.old)))) }
    ensures cause { IfErr result (MayRefuse K.may_fail) }
{
    Ok(status(alloc, keeper, at)?)
}
