//! The uploads by the places in which they were judged.

ghost use Rattle.std.specs.Prelude.{◌≡◌, ◌++◌, IfOk, OnOk, map, option_copied};
ghost use Rattle.tables_audit.specs.Places.{ArePlaced, first_at, placed_view, placed_with};

use crate::keyed::{Keyed, Rows};
use std::alloc::{AllocError, Global};
use tables::rows::UploadRow;

/// A place, and the upload at it.
#[derive(Clone, Copy)]
pub struct Placed<'a> {
    pub place: u64,
    pub upload: &'a UploadRow,
}

impl<'a> Keyed for Placed<'a> {
    ghost key_of = { λ x. x.place };

    fn key(&self) -> u64 {
        self.place
    }
}

/// Adds an upload with its place, if it has one.
fn add<'a>(placed: &mut Vec<Placed<'a>>, upload: &'a UploadRow) -> Result<(), AllocError>
    ensures { OnOk result (map placed_view placed.new.items ≡ map placed_view placed.old.items ++ placed_with upload.now upload.now.place) }
{
    match upload.place {
        Some(place) => {
            placed.push(Placed { place, upload })?;
            Ok(())
        }
        None => Ok(()),
    }
}

/// The uploads that have a place, each with its place, in the order of the uploads.
fn listed<'a>(alloc: Global, uploads: &'a [(u64, UploadRow)]) -> Result<Vec<Placed<'a>>, AllocError>
    ensures { IfOk result (λ placed. ArePlaced uploads.now (map placed_view placed.items)) }
{
    let mut placed = Vec::new(alloc);
    for (_, upload) in uploads {
        add(&mut placed, upload)?;
    }
    Ok(placed)
}

/// The uploads that have a place, each with its place, in the order of their places.
pub fn by_place<'a>(
    alloc: Global,
    uploads: &'a [(u64, UploadRow)],
) -> Result<Vec<Placed<'a>>, AllocError>
    ensures { IfOk result (λ placed. ArePlaced uploads.now (map placed_view placed.items)) }
{
    let mut placed = listed(alloc, uploads)?;
    placed.sort_by_key(|one| one.place)?;
    Ok(placed)
}

/// The first upload at a place.
fn first_at<'a>(placed: &[Placed<'a>], place: u64) -> Option<&'a UploadRow>
    ensures { option_copied result ≡ first_at (map placed_view placed.now) place }
{
    for one in placed {
        if one.place == place {
            return Some(one.upload);
        }
    }
    None
}

/// The first upload at a place, looked up among all.
pub fn upload_at<'a>(placed: &Rows<'_, Placed<'a>>, place: u64) -> Option<&'a UploadRow>
    ensures { option_copied result ≡ first_at (map placed_view placed.now.all.now) place }
{
    first_at(placed.about(place), place)
}
