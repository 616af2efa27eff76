//! The places of a suite's indices, and the paths of its texts.

ghost use Rattle.std.specs.Prelude.{◌≡◌, ◌++◌, map, IfOk, OnOk, string_bytes};
ghost use Rattle.indices.specs.Indices.{path_in};
ghost use Rattle.indices.specs.Places.{place_at, places_in};

use indices::IndexPlace;
use para::{Listed, Text};
use std::alloc::{AllocError, Global};

/// Appends the places of a component.
fn push_places(
    alloc: Global,
    component: &str,
    architectures: &[Text],
    places: &mut Vec<IndexPlace>,
) -> Result<(), AllocError>
    ensures { OnOk result (places.new.items ≡ places.old.items ++ map (place_at component.now) architectures.now) }
{
    for architecture in architectures {
        places.push(IndexPlace {
            component: Text::new(alloc, component)?,
            architecture: architecture.try_clone()?,
        })?;
    }
    Ok(())
}

/// The places of a suite's indices: for each component in its order, each architecture in its order.
pub fn places_of(
    alloc: Global,
    components: &[Text],
    architectures: &[Text],
) -> Result<Listed<IndexPlace>, AllocError>
    ensures { IfOk result (λ places. places ≡ places_in components.now architectures.now) }
{
    let mut places = Vec::new(alloc);
    for component in components {
        push_places(alloc, component.as_str(), architectures, &mut places)?;
    }
    Ok(Listed::from_vec(places))
}

/// The whole path of a text in the folder of the suite with a codename, without a leading slash: `dists/CODENAME/PATH`.
pub fn path_in(alloc: Global, codename: &str, path: &str) -> Result<String, AllocError>
    ensures { IfOk result (λ whole. string_bytes whole ≡ path_in codename.now path.now) }
{
    format!(in alloc; "dists/{codename}/{path}")
}
