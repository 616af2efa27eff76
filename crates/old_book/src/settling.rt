//! The uploads as if none had been judged, and the wants without those of judged ones.
//!
//! Wants are read in the order of their rows, which is that of the entries as they were written. The wants of judged uploads, which an
//! older layout keeps, are tested too, and then removed.

ghost use Rattle.std.specs.Prelude.{◌≡◌, nat_eq, IfOk, OnOk};
ghost use Rattle.std.specs.List.{list_any};
ghost use Rattle.tables.specs.Rows.{without};
ghost use Rattle.old_book.specs.Settling.{as_unjudged, has_judged, judged_ids, unjudged_uploads};

use crate::numbers::{Numbers, in_order};
use std::alloc::{AllocError, Global};
use tables::rows::{UploadRow, Want};

/// The upload as if it had not been judged.
fn as_unjudged(upload: &UploadRow) -> Result<UploadRow, AllocError>
    ensures { IfOk result (λ u. u ≡ as_unjudged upload.now) }
{
    Ok(UploadRow {
        name: upload.name.try_clone()?,
        print: upload.print,
        place: None,
        verdict: None,
    })
}

/// The uploads as if none had been judged.
pub fn unjudged(
    alloc: Global,
    uploads: &[(u64, UploadRow)],
) -> Result<Vec<(u64, UploadRow)>, AllocError>
    ensures { IfOk result (λ all. all.items ≡ unjudged_uploads uploads.now) }
{
    let mut all = Vec::new(alloc);
    for row in uploads {
        let upload = as_unjudged(&row.1)?;
        all.push((row.0, upload))?;
    }
    Ok(all)
}

/// The numbers of the judged uploads, in the order of their rows.
fn judged_among(alloc: Global, uploads: &[(u64, UploadRow)]) -> Result<Vec<u64>, AllocError>
    ensures { IfOk result (λ ids. ids.items ≡ judged_ids uploads.now) }
{
    let mut ids = Vec::new(alloc);
    for row in uploads {
        if row.1.place.is_some() {
            ids.push(row.0)?;
        }
    }
    Ok(ids)
}

/// Takes out the wants of the uploads with these numbers.
fn retain_others(wants: &mut Vec<(u64, Want)>, ids: &Numbers)
    ensures { wants.new.items ≡ without (λ w. list_any (λ n. nat_eq n w.1.upload) ids.now.rising.items) wants.old.items }
{
    wants.retain(|row| !ids.contain(row.1.upload));
}

/// Takes out the wants of judged uploads.
pub fn settle(
    alloc: Global,
    uploads: &[(u64, UploadRow)],
    wants: &mut Vec<(u64, Want)>,
) -> Result<(), AllocError>
    ensures { OnOk result (wants.new.items ≡ without (λ w. has_judged uploads.now w.1.upload) wants.old.items) }
{
    let ids = in_order(judged_among(alloc, uploads)?);
    retain_others(wants, &ids);
    Ok(())
}
