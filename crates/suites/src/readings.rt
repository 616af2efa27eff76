//! The records that texts are. A text that is no record is told apart from want of memory.

ghost use Rattle.std.specs.Prelude.{◌≡◌, IfOk};
ghost use Rattle.std.specs.Result.{result_ok};
ghost use Rattle.records.specs.Records.{changes_in as changes_of_text, dsc_within as dsc_of_text, sidecar_in as sidecar_of_text};

use records::{Changes, Dsc, RecordFault, Sidecar};
use std::alloc::{AllocError, Global};

/// The .changes that a text is, or nothing if it is not one. It is refused for want of memory alone.
pub fn changes_in(alloc: Global, text: &[u8]) -> Result<Option<Changes>, AllocError>
    ensures { IfOk result (λ found. found ≡ result_ok (changes_of_text text.now)) }
{
    match Changes::read(alloc, text) {
        Ok(changes) => Ok(Some(changes)),
        Err(RecordFault::OutOfMemory) => Err(AllocError),
        Err(_) => Ok(None),
    }
}

/// The .dsc that a text is, or nothing if it is not a .dsc or lists a file of more than `most` bytes. It is refused for want of
/// memory alone.
pub fn dsc_within(alloc: Global, text: &[u8], most: u64) -> Result<Option<Dsc>, AllocError>
    ensures { IfOk result (λ found. found ≡ result_ok (dsc_of_text most text.now)) }
{
    match Dsc::read_within(alloc, text, most) {
        Ok(dsc) => Ok(Some(dsc)),
        Err(RecordFault::OutOfMemory) => Err(AllocError),
        Err(_) => Ok(None),
    }
}

/// The sidecar that a text is, or nothing if it is not a sidecar. It is refused for want of memory alone.
pub fn sidecar_in(alloc: Global, text: &[u8]) -> Result<Option<Sidecar>, AllocError>
    ensures { IfOk result (λ found. found ≡ result_ok (sidecar_of_text text.now)) }
{
    match Sidecar::read(alloc, text) {
        Ok(sidecar) => Ok(Some(sidecar)),
        Err(RecordFault::OutOfMemory) => Err(AllocError),
        Err(_) => Ok(None),
    }
}
