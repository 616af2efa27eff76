//! What has arrived, by name.

ghost use Rattle.std.specs.Prelude.{IfOk};
ghost use Rattle.inquiry.specs.Named.{IsByName};

use book::{ArrivedFile, add_to_group};
use std::alloc::{AllocError, Global};
use std::collections::BTreeMap;
use sums::Print;

/// A file that has arrived, without its name: the print of its body, and the greatest moment at which it was delivered, in seconds since
/// 1970-01-01 00:00:00 UTC.
#[derive(Clone, Copy)]
pub struct Delivered {
    pub print: Print,
    pub moment: u64,
}

/// What has arrived in groups: under each name what was delivered under it, in the order of first deliveries.
pub fn by_name(
    alloc: Global,
    arrived: &[ArrivedFile],
) -> Result<BTreeMap<String, Vec<Delivered>>, AllocError>
    ensures { IfOk result (IsByName arrived.now) }
{
    let mut named = BTreeMap::new(alloc);
    for file in arrived {
        let delivered = Delivered {
            print: file.print,
            moment: file.moment,
        };
        add_to_group(alloc, &mut named, file.name.as_str(), delivered)?;
    }
    Ok(named)
}
