//! Packages: what the binary packages of a component are, for one architecture.

ghost use Rattle.std.specs.Prelude.{◌≡◌, ◌++◌, ◌<◌, [], ◌∷◌, OnOk, OnErr, IfOk, filter, not, codes, if◌then◌else◌, take, length};
ghost use Rattle.std.specs.List.{flat_map};
ghost use Rattle.para.specs.Field.{field_values};
ghost use Rattle.para.specs.Printing.{paragraph_text};
ghost use Rattle.indices.specs.Positions.{components_at, architectures_at, component_at, architecture_at};
ghost use Rattle.indices.specs.Stanzas.{is_named, file_fields, package_fields, package_stanza, fields_of_text, packages_text};
ghost use Rattle.indices.specs.Listed.{is_in_packages};

use crate::position::{architecture_name, component_name};
use crate::stanza::{
    USUAL_STANZA, has_name, paragraph_in, push_digest_field, push_if, push_line_field,
    push_number_field,
};
use indices::{Digest, lists_package};
use para::Field;
use rules::Config;
use std::alloc::{AllocError, Global};
use suites::{Item, PoolFile, ShelfKey, Shelves};

/// Appends the fields of the name Package.
fn push_own_name(fields: &[Field<'_>], out: &mut Vec<u8>) -> Result<(), AllocError>
    ensures { OnOk result (out.new.items ≡ out.old.items ++ paragraph_text (filter (is_named (codes "Package")) (field_values fields.now))) }
{
    for field in fields {
        push_if(has_name(field, "Package"), field, out)?;
    }
    Ok(())
}

/// Appends the fields of other names.
fn push_others(fields: &[Field<'_>], out: &mut Vec<u8>) -> Result<(), AllocError>
    ensures { OnOk result (out.new.items ≡ out.old.items ++ paragraph_text (filter (λ f. not (is_named (codes "Package") f)) (field_values fields.now))) }
{
    for field in fields {
        push_if(!has_name(field, "Package"), field, out)?;
    }
    Ok(())
}

/// Appends the fields of a control paragraph, Package first.
#[tactic(auto, unfolding(indices::specs::Stanzas::package_fields))]
fn push_fields(fields: &[Field<'_>], out: &mut Vec<u8>) -> Result<(), AllocError>
    ensures { OnOk result (out.new.items ≡ out.old.items ++ paragraph_text (package_fields (field_values fields.now))) }
{
    push_own_name(fields, out)?;
    push_others(fields, out)
}

/// Appends the fields of the paragraph that a text spells, if it spells one.
fn push_paragraph(alloc: Global, text: &str, out: &mut Vec<u8>) -> Result<(), AllocError>
    ensures { OnOk result (out.new.items ≡ out.old.items ++ paragraph_text (package_fields (fields_of_text text.now))) }
{
    match paragraph_in(alloc, text)? {
        Some(paragraph) => push_fields(paragraph.fields(), out),
        None => push_fields(&[], out),
    }
}

/// Appends the fields of a package file.
#[tactic(auto, unfolding(indices::specs::Stanzas::file_fields))]
fn push_file(alloc: Global, file: &PoolFile, out: &mut Vec<u8>) -> Result<(), AllocError>
    ensures { OnOk result (out.new.items ≡ out.old.items ++ paragraph_text (file_fields file.now)) }
{
    push_line_field("Filename", file.path.as_str(), out)?;
    push_number_field(alloc, "Size", file.print.size, out)?;
    push_digest_field(alloc, "MD5sum", Digest::Md5, &file.print, out)?;
    push_digest_field(alloc, "SHA1", Digest::Sha1, &file.print, out)?;
    push_digest_field(alloc, "SHA256", Digest::Sha256, &file.print, out)
}

/// Appends the fields of package files.
fn push_files(alloc: Global, files: &[PoolFile], out: &mut Vec<u8>) -> Result<(), AllocError>
    ensures { OnOk result (out.new.items ≡ out.old.items ++ paragraph_text (flat_map file_fields files.now)) }
{
    for file in files {
        push_file(alloc, file, out)?;
    }
    Ok(())
}

/// The stanza of a package: its control paragraph with Package first, the fields of its file, an empty line.
#[tactic(auto, unfolding(indices::specs::Stanzas::package_stanza))]
pub fn package_stanza(alloc: Global, item: &Item) -> Result<Vec<u8>, AllocError>
    ensures { IfOk result (λ stanza. stanza.items ≡ package_stanza item.now) }
{
    let mut stanza = Vec::with_capacity(alloc, USUAL_STANZA)?;
    push_paragraph(alloc, item.paragraph.as_str(), &mut stanza)?;
    push_files(alloc, item.files.as_slice(), &mut stanza)?;
    stanza.push(b'\n')?;
    Ok(stanza)
}

/// Appends the stanza of an item if the index of the architecture lists it, else nothing.
fn push_listed(
    alloc: Global,
    key: &ShelfKey,
    item: &Item,
    suite: usize,
    component: &str,
    architecture: &str,
    out: &mut Vec<u8>,
) -> Result<(), AllocError>
    ensures ok { OnOk result (out.new.items ≡ out.old.items ++ (if is_in_packages suite component.now architecture.now (key.now, item.now) then package_stanza item.now else [])) }
    ensures front { take (length out.old.items) out.new.items ≡ out.old.items }
{
    if lists_package(key, item, suite, component, architecture) {
        let stanza = package_stanza(alloc, item)?;
        out.extend_from_slice(&stanza)?;
    }
    Ok(())
}

/// Appends the stanzas that the index of the architecture lists.
#[tactic(auto, unfolding(indices::specs::Stanzas::packages_text))]
pub fn push_packages(
    alloc: Global,
    shelves: &Shelves,
    suite: usize,
    component: &str,
    architecture: &str,
    out: &mut Vec<u8>,
) -> Result<(), AllocError>
    ensures ok { OnOk result (out.new.items ≡ out.old.items ++ packages_text shelves.now suite component.now architecture.now) }
    ensures front { take (length out.old.items) out.new.items ≡ out.old.items }
{
    for (key, item) in shelves.items() {
        push_listed(alloc, key, item, suite, component, architecture, out)?;
    }
    Ok(())
}

/// Appends the Packages of a suite's component and architecture, given by their positions in the configuration: a
/// stanza for each shown package of that architecture or of `all`, in the order of the bytes of its name and then of
/// its architecture. If memory runs out, the buffer is as before.
pub fn packages(
    alloc: Global,
    config: &Config,
    shelves: &Shelves,
    suite: usize,
    component: usize,
    architecture: usize,
    out: &mut Vec<u8>,
) -> Result<(), AllocError>
    requires component { component < length (components_at config.now suite) }
    requires architecture { architecture < length (architectures_at config.now suite) }
    ensures ok { OnOk result (out.new.items ≡ out.old.items ++ packages_text shelves.now suite (component_at config.now suite component) (architecture_at config.now suite architecture)) }
    ensures err { OnErr result (out.new.items ≡ out.old.items) }
{
    let component = component_name(config, suite, component);
    let architecture = architecture_name(config, suite, architecture);
    let len = out.len();
    let written = push_packages(alloc, shelves, suite, component, architecture, out);
    if written.is_err() {
        out.truncate(len);
    }
    written
}
