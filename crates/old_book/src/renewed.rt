//! The rows of an old archive as those of an archive of today.

ghost use Rattle.std.specs.Prelude.{◌≡◌, ℕ, [], ◌∷◌, List, IfOk, IfSome, None};
ghost use Rattle.tables.specs.Rows.{first_number};
ghost use Rattle.tables_read.specs.All.{tables_with};
ghost use Rattle.old_book.specs.Old.{HasText, HasTextIn};
ghost use Rattle.old_book.specs.Settling.{settled, with_meta_row};

use crate::settling::settle;
use crate::without_days::without_days;
use para::Listed;
use std::alloc::{AllocError, Global};
use tables::meta::VERSION;
use tables::rows::Meta;
use tables_read::AllRows;

/// The text of the configuration that a row has, without the fields KeepDays and ValidDays, if the row is of this layout.
fn text_in_row(alloc: Global, row: &Meta) -> Result<Option<Vec<u8>>, AllocError>
    ensures some { IfOk result (λ o. IfSome o (λ text. HasTextIn row.now text.items)) }
    ensures none { IfOk result (λ o. o ≡ None → (text : List ℕ) → HasTextIn row.now text → ⊥) }
{
    if row.version != VERSION {
        return Ok(None);
    }
    without_days(alloc, row.configuration.as_slice())
}

/// The text of the configuration without the fields KeepDays and ValidDays, if the rows of `meta` are one row of this layout.
pub fn text_among(alloc: Global, meta: &[(u64, Meta)]) -> Result<Option<Vec<u8>>, AllocError>
    ensures some { IfOk result (λ o. IfSome o (λ text. HasText meta.now text.items)) }
    ensures none { IfOk result (λ o. o ≡ None → (text : List ℕ) → HasText meta.now text → ⊥) }
{
    if meta.len() != 1 {
        return Ok(None);
    }
    text_in_row(alloc, &meta[0].1)
}

/// The number of the rowid 1.
const FIRST_NUMBER: u64 = 9_223_372_036_854_775_809;

/// The one row of `meta`, with this text.
fn meta_with(alloc: Global, text: Vec<u8>) -> Result<Vec<(u64, Meta)>, AllocError>
    ensures { IfOk result (λ meta. meta.items ≡ (first_number, record { version = VERSION; configuration = text.items }) ∷ []) }
{
    let row = Meta {
        version: VERSION,
        configuration: Listed::from_vec(text),
    };
    let mut meta = Vec::new(alloc);
    meta.push((FIRST_NUMBER, row))?;
    Ok(meta)
}

/// The rows without the wants of judged uploads, and with this text of the configuration.
pub fn renewed(alloc: Global, mut all: AllRows, text: Vec<u8>) -> Result<AllRows, AllocError>
    ensures { IfOk result (λ rows. tables_with rows ≡ with_meta_row text.items (settled (tables_with all))) }
{
    settle(alloc, &all.uploads, &mut all.wants)?;
    all.meta = meta_with(alloc, text)?;
    Ok(all)
}
