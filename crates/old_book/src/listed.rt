//! Whether what uploads want is what they list.

ghost use Rattle.std.specs.Prelude.{◌≡◌, ◌↔◌, [], IsTrue, IfOk, OnOk};
ghost use Rattle.tables_audit.specs.Parts.{BodiesFit, UploadsFit};
ghost use Rattle.tables_read.specs.All.{AreConstrained, tables_with};
ghost use Rattle.old_book.specs.Settling.{unjudged};

use crate::settling::unjudged;
use std::alloc::{AllocError, Global};
use std::mem::replace;
use tables_audit::judgements_in;
use tables_read::AllRows;

/// Whether the uploads are the .changes that arrived, and the wants exactly their entries. A judged upload still has its wants, and
/// each want says whether it is here. The rows are the same afterwards.
pub fn are_listed(alloc: Global, all: &mut AllRows) -> Result<bool, AllocError>
    ensures same { OnOk result (all.new ≡ all.old) }
    ensures fit { AreConstrained (tables_with all.old) → BodiesFit (tables_with all.old)
        → IfOk result (λ listed. IsTrue listed ↔ UploadsFit (unjudged (tables_with all.old)) []) }
{
    let waiting = unjudged(alloc, &all.uploads)?;
    let uploads = replace(&mut all.uploads, waiting);
    let judged = judgements_in(alloc, all)?;
    all.uploads = uploads;
    Ok(judged.is_some())
}
