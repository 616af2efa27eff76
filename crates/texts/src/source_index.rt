//! Sources: what the source packages of a component are.

ghost use Rattle.std.specs.Prelude.{◌≡◌, ◌++◌, ◌<◌, [], ◌∷◌, OnOk, OnErr, IfOk, filter, map, not, codes, if◌then◌else◌, take, length};
ghost use Rattle.std.specs.List.{flat_map, list_any};
ghost use Rattle.para.specs.Field.{field_value, field_values};
ghost use Rattle.para.specs.Printing.{field_text, more_text, paragraph_text};
ghost use Rattle.suites.specs.Pool.{directory_of};
ghost use Rattle.indices.specs.Positions.{components_at, component_at};
ghost use Rattle.indices.specs.Stanzas.{is_named, is_placed, line_field, as_package, source_fields, fields_of_text, file_name, list_line, list_field, source_lists, source_stanza, sources_text};
ghost use Rattle.indices.specs.Listed.{is_in_sources};

use crate::position::component_name;
use crate::stanza::{has_name, paragraph_in, push_field, push_if, push_line_field, push_list_line};
use indices::{Digest, lists_source};
use para::Field;
use rules::Config;
use std::alloc::{AllocError, Global};
use suites::{Item, PoolFile, ShelfKey, Shelves, directory};

/// Whether a field has one of the names, ASCII case ignored.
fn has_one_of(field: &Field<'_>, names: &[&str]) -> bool
    ensures { result ≡ list_any (λ name. is_named name.now (field_value field.now)) names.now }
{
    names.iter().any(|name| has_name(field, name))
}

/// Whether a stanza has the field in a place of its own: it is the name of the source, or a list of files.
fn is_placed(field: &Field<'_>) -> bool
    ensures { result ≡ is_placed (field_value field.now) }
{
    has_one_of(
        field,
        &["Source", "Files", "Checksums-Sha1", "Checksums-Sha256"],
    )
}

/// Appends the field under the name Package if it is wanted.
fn push_name_if(wanted: bool, field: &Field<'_>, out: &mut Vec<u8>) -> Result<(), AllocError>
    ensures { OnOk result (out.new.items ≡ out.old.items ++ (if wanted then field_text (as_package (field_value field.now)) else [])) }
{
    if wanted {
        push_field("Package", field.first, &field.more, out)?;
    }
    Ok(())
}

/// Appends the field Source under the name Package.
fn push_name(fields: &[Field<'_>], out: &mut Vec<u8>) -> Result<(), AllocError>
    ensures { OnOk result (out.new.items ≡ out.old.items ++ flat_map (λ f. field_text (as_package f)) (filter (is_named (codes "Source")) (field_values fields.now))) }
{
    for field in fields {
        push_name_if(has_name(field, "Source"), field, out)?;
    }
    Ok(())
}

/// Appends the other fields of a .dsc, its lists left out.
fn push_others(fields: &[Field<'_>], out: &mut Vec<u8>) -> Result<(), AllocError>
    ensures { OnOk result (out.new.items ≡ out.old.items ++ paragraph_text (filter (λ f. not (is_placed f)) (field_values fields.now))) }
{
    for field in fields {
        push_if(!is_placed(field), field, out)?;
    }
    Ok(())
}

/// Appends the fields of a .dsc, Source first and under the name Package, its lists left out.
fn push_fields(fields: &[Field<'_>], out: &mut Vec<u8>) -> Result<(), AllocError>
    ensures { OnOk result (out.new.items ≡ out.old.items ++ paragraph_text (source_fields (field_values fields.now))) }
{
    push_name(fields, out)?;
    push_others(fields, out)
}

/// Appends the fields of the .dsc that a text spells, if it spells one.
fn push_paragraph(alloc: Global, text: &str, out: &mut Vec<u8>) -> Result<(), AllocError>
    ensures { OnOk result (out.new.items ≡ out.old.items ++ paragraph_text (source_fields (fields_of_text text.now))) }
{
    match paragraph_in(alloc, text)? {
        Some(paragraph) => push_fields(paragraph.fields(), out),
        None => push_fields(&[], out),
    }
}

/// Appends the field that says in which folder the files of a source are.
fn push_directory(
    alloc: Global,
    component: &str,
    source: &str,
    out: &mut Vec<u8>,
) -> Result<(), AllocError>
    ensures { OnOk result (out.new.items ≡ out.old.items ++ field_text (line_field (codes "Directory") (directory_of component.now source.now))) }
{
    let folder = directory(alloc, component, source)?;
    push_line_field("Directory", folder.as_str(), out)
}

/// The name of a file in its folder: what follows the last slash of its path.
pub fn file_name(path: &str) -> &str
    ensures { result.now ≡ file_name path.now }
{
    match path.rsplit_once('/') {
        Some((_, name)) => name,
        None => path,
    }
}

/// Appends the lines of a list of files.
fn push_list_lines(
    alloc: Global,
    digest: Digest,
    files: &[PoolFile],
    out: &mut Vec<u8>,
) -> Result<(), AllocError>
    ensures { OnOk result (out.new.items ≡ out.old.items ++ flat_map (λ f. more_text (list_line digest f.print (file_name f.path))) files.now) }
{
    for file in files {
        push_list_line(
            alloc,
            digest,
            &file.print,
            file_name(file.path.as_str()),
            out,
        )?;
    }
    Ok(())
}

/// Appends a list of the files of a source.
fn push_list(
    alloc: Global,
    name: &str,
    digest: Digest,
    files: &[PoolFile],
    out: &mut Vec<u8>,
) -> Result<(), AllocError>
    ensures { OnOk result (out.new.items ≡ out.old.items ++ field_text (list_field name.now digest files.now)) }
{
    push_line_field(name, "", out)?;
    push_list_lines(alloc, digest, files, out)
}

/// Appends the lists of the files of a source.
#[tactic(auto, unfolding(indices::specs::Stanzas::source_lists))]
fn push_lists(alloc: Global, files: &[PoolFile], out: &mut Vec<u8>) -> Result<(), AllocError>
    ensures { OnOk result (out.new.items ≡ out.old.items ++ paragraph_text (source_lists files.now)) }
{
    push_list(alloc, "Files", Digest::Md5, files, out)?;
    push_list(alloc, "Checksums-Sha1", Digest::Sha1, files, out)?;
    push_list(alloc, "Checksums-Sha256", Digest::Sha256, files, out)
}

/// The stanza of a source: its .dsc with Source first and under the name Package, without its lists; the folder of its
/// files; the lists of the .dsc and its files; an empty line.
#[tactic(auto, unfolding(indices::specs::Stanzas::source_stanza))]
pub fn source_stanza(alloc: Global, item: &Item) -> Result<Vec<u8>, AllocError>
    ensures { IfOk result (λ stanza. stanza.items ≡ source_stanza item.now) }
{
    let mut stanza = Vec::new(alloc);
    push_paragraph(alloc, item.paragraph.as_str(), &mut stanza)?;
    push_directory(
        alloc,
        item.component.as_str(),
        item.source.as_str(),
        &mut stanza,
    )?;
    push_lists(alloc, item.files.as_slice(), &mut stanza)?;
    stanza.push(b'\n')?;
    Ok(stanza)
}

/// Appends the stanza of an item if Sources lists it, else nothing.
fn push_listed(
    alloc: Global,
    key: &ShelfKey,
    item: &Item,
    suite: usize,
    component: &str,
    out: &mut Vec<u8>,
) -> Result<(), AllocError>
    ensures ok { OnOk result (out.new.items ≡ out.old.items ++ (if is_in_sources suite component.now (key.now, item.now) then source_stanza item.now else [])) }
    ensures front { take (length out.old.items) out.new.items ≡ out.old.items }
{
    if lists_source(key, item, suite, component) {
        let stanza = source_stanza(alloc, item)?;
        out.extend_from_slice(&stanza)?;
    }
    Ok(())
}

/// Appends the stanzas that Sources lists.
pub fn push_sources(
    alloc: Global,
    shelves: &Shelves,
    suite: usize,
    component: &str,
    out: &mut Vec<u8>,
) -> Result<(), AllocError>
    ensures ok { OnOk result (out.new.items ≡ out.old.items ++ sources_text shelves.now suite component.now) }
    ensures front { take (length out.old.items) out.new.items ≡ out.old.items }
{
    for (key, item) in shelves.items() {
        push_listed(alloc, key, item, suite, component, out)?;
    }
    Ok(())
}

/// Appends the Sources of a suite's component, given by their positions in the configuration: a stanza for each shown
/// source, in the order of the bytes of its name. If memory runs out, the buffer is as before.
pub fn sources(
    alloc: Global,
    config: &Config,
    shelves: &Shelves,
    suite: usize,
    component: usize,
    out: &mut Vec<u8>,
) -> Result<(), AllocError>
    requires { component < length (components_at config.now suite) }
    ensures ok { OnOk result (out.new.items ≡ out.old.items ++ sources_text shelves.now suite (component_at config.now suite component)) }
    ensures err { OnErr result (out.new.items ≡ out.old.items) }
{
    let component = component_name(config, suite, component);
    let len = out.len();
    let written = push_sources(alloc, shelves, suite, component, out);
    if written.is_err() {
        out.truncate(len);
    }
    written
}
