//! What a verdict is about, as lines.
//!
//! ```text
//! 1     distribution NAME, and taken NAME CODENAME for each name that a suite takes
//! 2     architecture NAME, and suite CODENAME keeps NAME..
//! 3     source NAME, person PERSON, and rule SOURCE by PERSON for each line that speaks of the source, or rule none
//! 4     file NAME component NAME, not NAME; or component NAME, and suite CODENAME has NAME..
//! 5     file NAME, and what it is or lacks; or no .dsc with source
//! 6, 7  file NAME, and its fault or how it differs
//! 8, 9  file NAME SIZE SHA256, place PATH, and there SIZE SHA256 or there nothing
//! ```

ghost use Rattle.std.specs.Prelude.{◌≡◌, if◌then◌else◌, ◌++◌, ◌∷◌, [], IfOk, OnOk, codes, filter, map, option_copied, option_to_list, string_bytes};
ghost use Rattle.std.specs.List.{flat_map};
ghost use Rattle.std.specs.Option.{option_map_or};
ghost use Rattle.records.specs.Fault.{fault_text};
ghost use Rattle.rules.specs.Suites.{fits_source};
ghost use Rattle.output.specs.Explaining.About.{component_words, dsc_words, file_lines, named_lines, not_words, rule_lines, rule_words, sidecar_words, suite_words, taken, taken_by, there_words, unlisted_words, without};
ghost use Rattle.output.specs.Explaining.Words.{file_words, spaced};

use crate::explaining::words::{file_line, print_text, worded};
use para::Text;
use reasons::{DscDifference, Named, SidecarDifference, suite_of};
use records::{Changes, RecordFault};
use rules::{Config, Rule, SourcePattern, Suite};
use std::alloc::{AllocError, Global};
use sums::Print;

/// Adds `taken NAME CODENAME`.
fn push_taken(
    alloc: Global,
    lines: &mut Vec<String>,
    name: &str,
    codename: &str,
) -> Result<(), AllocError>
    ensures { OnOk result (map string_bytes lines.new.items ≡ map string_bytes lines.old.items ++ taken codename.now name.now ∷ []) }
{
    lines.push(format!(in alloc; "taken {name} {codename}")?)?;
    Ok(())
}

/// Adds `taken NAME CODENAME` for each of these names.
fn push_all_taken(
    alloc: Global,
    lines: &mut Vec<String>,
    names: &[Text],
    codename: &str,
) -> Result<(), AllocError>
    ensures { OnOk result (map string_bytes lines.new.items ≡ map string_bytes lines.old.items ++ map (taken codename.now) names.now) }
{
    for name in names {
        push_taken(alloc, lines, name.as_str(), codename)?;
    }
    Ok(())
}

/// Adds `taken NAME CODENAME` for this name, if there is one.
fn push_other_taken(
    alloc: Global,
    lines: &mut Vec<String>,
    name: &Option<Text>,
    codename: &str,
) -> Result<(), AllocError>
    ensures { OnOk result (map string_bytes lines.new.items ≡ map string_bytes lines.old.items ++ map (taken codename.now) (option_to_list name.now)) }
{
    if let Some(name) = name {
        push_taken(alloc, lines, name.as_str(), codename)?;
    }
    Ok(())
}

/// Adds a line for each distribution name that a suite takes uploads for, its codename first.
fn push_taken_by(alloc: Global, lines: &mut Vec<String>, suite: &Suite) -> Result<(), AllocError>
    ensures { OnOk result (map string_bytes lines.new.items ≡ map string_bytes lines.old.items ++ taken_by suite.now) }
{
    let codename = suite.codename.as_str();
    push_taken(alloc, lines, codename, codename)?;
    push_other_taken(alloc, lines, &suite.suite, codename)?;
    push_all_taken(alloc, lines, suite.also_accept_for.as_slice(), codename)
}

/// Verdict 1: the distribution, and those that suites take.
fn distribution_lines(
    alloc: Global,
    config: &Config,
    name: &Text,
) -> Result<Vec<String>, AllocError>
    ensures { IfOk result (λ lines. map string_bytes lines.items ≡ spaced (codes "distribution") name.now ∷ flat_map taken_by config.now.suites) }
{
    let mut lines = Vec::new(alloc);
    lines.push(worded(alloc, "distribution", name.as_str())?)?;
    for suite in config.suites() {
        push_taken_by(alloc, &mut lines, suite)?;
    }
    Ok(lines)
}

/// `suite CODENAME WORD NAME..`.
fn suite_line(
    alloc: Global,
    suite: &Suite,
    word: &str,
    names: &[Text],
) -> Result<String, AllocError>
    ensures { IfOk result (λ line. string_bytes line ≡ suite_words suite.now word.now names.now) }
{
    let codename = suite.codename.as_str();
    let mut line = format!(in alloc; "suite {codename} {word}")?;
    for name in names {
        line.push(' ')?;
        line.push_str(name.as_str())?;
    }
    Ok(line)
}

/// Verdict 2: the architecture, and those that the suite keeps.
fn architecture_lines(
    alloc: Global,
    suite: Option<&Suite>,
    name: &Text,
) -> Result<Vec<String>, AllocError>
    ensures { IfOk result (λ lines. map string_bytes lines.items ≡ spaced (codes "architecture") name.now ∷ option_map_or (λ s. suite_words s (codes "keeps") s.architectures ∷ []) (option_copied suite.entry) []) }
{
    let mut lines = Vec::new(alloc);
    lines.push(worded(alloc, "architecture", name.as_str())?)?;
    if let Some(suite) = suite {
        let kept = suite.architectures.as_slice();
        lines.push(suite_line(alloc, suite, "keeps", kept)?)?;
    }
    Ok(lines)
}

/// Whether a line on who may upload speaks of the source package.
fn speaks_of(rule: &Rule, source: &str) -> bool
    ensures { result ≡ fits_source rule.now.source source.now }
{
    match &rule.source {
        SourcePattern::Any => true,
        SourcePattern::Front(front) => source.as_bytes().starts_with(front.as_str().as_bytes()),
        SourcePattern::Name(name) => name.as_str() == source,
    }
}

/// `rule SOURCE by PERSON`, as the line of the configuration says it.
fn rule_line(alloc: Global, rule: &Rule) -> Result<String, AllocError>
    ensures { IfOk result (λ line. string_bytes line ≡ rule_words rule.now) }
{
    let person = rule.person.as_str();
    match &rule.source {
        SourcePattern::Any => format!(in alloc; "rule * by {person}"),
        SourcePattern::Front(front) => {
            let front = front.as_str();
            format!(in alloc; "rule {front}* by {person}")
        }
        SourcePattern::Name(name) => {
            let name = name.as_str();
            format!(in alloc; "rule {name} by {person}")
        }
    }
}

/// Adds the line of a rule, if it speaks of the source package.
fn push_rule_if(
    alloc: Global,
    lines: &mut Vec<String>,
    rule: &Rule,
    source: &str,
) -> Result<(), AllocError>
    ensures { OnOk result (map string_bytes lines.new.items ≡ map string_bytes lines.old.items ++ map rule_words (filter (λ r. fits_source r.source source.now) (rule.now ∷ []))) }
{
    if speaks_of(rule, source) {
        lines.push(rule_line(alloc, rule)?)?;
    }
    Ok(())
}

/// The lines of the rules that speak of the source package.
fn lines_of_rules(alloc: Global, rules: &[Rule], source: &str) -> Result<Vec<String>, AllocError>
    ensures { IfOk result (λ lines. map string_bytes lines.items ≡ map rule_words (filter (λ r. fits_source r.source source.now) rules.now)) }
{
    let mut lines = Vec::new(alloc);
    for rule in rules {
        push_rule_if(alloc, &mut lines, rule, source)?;
    }
    Ok(lines)
}

/// The lines of the rules that speak of the source package, or one that says that none does.
fn rules_lines(alloc: Global, rules: &[Rule], source: &str) -> Result<Vec<String>, AllocError>
    ensures { IfOk result (λ lines. map string_bytes lines.items ≡ rule_lines source.now rules.now) }
{
    let mut lines = lines_of_rules(alloc, rules, source)?;
    if lines.is_empty() {
        lines.push(String::from_str(alloc, "rule none")?)?;
    }
    Ok(lines)
}

/// What a suite says of uploads of a source package, if it has Uploaders.
fn suite_rules(
    alloc: Global,
    suite: Option<&Suite>,
    source: &str,
) -> Result<Vec<String>, AllocError>
    ensures { IfOk result (λ lines. map string_bytes lines.items ≡ option_map_or (λ s. option_map_or (rule_lines source.now) s.uploaders []) (option_copied suite.entry) []) }
{
    let Some(suite) = suite else {
        return Ok(Vec::new(alloc));
    };
    match &suite.uploaders {
        Some(rules) => rules_lines(alloc, rules.as_slice(), source),
        None => Ok(Vec::new(alloc)),
    }
}

/// Verdict 3: the source package, the person, and what the suite says of uploads of that source.
fn uploader_lines(
    alloc: Global,
    suite: Option<&Suite>,
    source: &Text,
    person: &Text,
) -> Result<Vec<String>, AllocError>
    ensures { IfOk result (λ lines. map string_bytes lines.items ≡ spaced (codes "source") source.now ∷ spaced (codes "person") person.now ∷ option_map_or (λ s. option_map_or (rule_lines source.now) s.uploaders []) (option_copied suite.entry) []) }
{
    let mut lines = Vec::new(alloc);
    lines.push(worded(alloc, "source", source.as_str())?)?;
    lines.push(worded(alloc, "person", person.as_str())?)?;
    lines.append(&mut suite_rules(alloc, suite, source.as_str())?)?;
    Ok(lines)
}

/// Verdict 4: the file of a component other than the upload's.
fn other_component_lines(
    alloc: Global,
    file: &Text,
    component: &Text,
    upload: &Text,
) -> Result<Vec<String>, AllocError>
    ensures { IfOk result (λ lines. map string_bytes lines.items ≡ component_words file.now component.now upload.now ∷ []) }
{
    let (file, component, upload) = (file.as_str(), component.as_str(), upload.as_str());
    let mut lines = Vec::new(alloc);
    lines.push(format!(in alloc; "file {file} component {component}, not {upload}")?)?;
    Ok(lines)
}

/// Verdict 4: the component that the suite does not have, and those that it has.
fn component_lines(
    alloc: Global,
    suite: Option<&Suite>,
    name: &Text,
) -> Result<Vec<String>, AllocError>
    ensures { IfOk result (λ lines. map string_bytes lines.items ≡ spaced (codes "component") name.now ∷ option_map_or (λ s. suite_words s (codes "has") s.components ∷ []) (option_copied suite.entry) []) }
{
    let mut lines = Vec::new(alloc);
    lines.push(worded(alloc, "component", name.as_str())?)?;
    if let Some(suite) = suite {
        let components = suite.components.as_slice();
        lines.push(suite_line(alloc, suite, "has", components)?)?;
    }
    Ok(lines)
}

/// A file, and a line on it.
fn file_lines(alloc: Global, file: &Text, line: String) -> Result<Vec<String>, AllocError>
    ensures { IfOk result (λ lines. map string_bytes lines.items ≡ file_lines file.now (string_bytes line)) }
{
    let mut lines = Vec::new(alloc);
    lines.push(worded(alloc, "file", file.as_str())?)?;
    lines.push(line)?;
    Ok(lines)
}

/// A file, and what it is.
fn listed_lines(alloc: Global, file: &Text, is: &str) -> Result<Vec<String>, AllocError>
    ensures { IfOk result (λ lines. map string_bytes lines.items ≡ file_lines file.now (spaced (codes "is") is.now)) }
{
    file_lines(alloc, file, worded(alloc, "is", is)?)
}

/// A surplus .dsc, and what it is.
fn surplus_lines(alloc: Global, file: &Text, is_second: bool) -> Result<Vec<String>, AllocError>
    ensures { IfOk result (λ lines. map string_bytes lines.items ≡ file_lines file.now (spaced (codes "is") (if is_second then codes "a second .dsc" else codes "a .dsc without source"))) }
{
    if is_second {
        listed_lines(alloc, file, "a second .dsc")
    } else {
        listed_lines(alloc, file, "a .dsc without source")
    }
}

/// A name without its ending, if it has that.
#[tactic(auto, unfolding(suites::specs::Upload::has_suffix))]
fn without<'a>(name: &'a str, ending: &str) -> &'a str
    ensures { result.now ≡ without ending.now name.now }
{
    name.strip_suffix(ending).unwrap_or(name)
}

/// A file with one of these endings, and a line that says that there is no file of the same stem with the other.
fn lone_lines(
    alloc: Global,
    file: &Text,
    ending: &str,
    other: &str,
) -> Result<Vec<String>, AllocError>
    ensures { IfOk result (λ lines. map string_bytes lines.items ≡ file_lines file.now (spaced (codes "has no") (without ending.now file.now ++ other.now))) }
{
    let stem = without(file.as_str(), ending);
    file_lines(alloc, file, format!(in alloc; "has no {stem}{other}")?)
}

/// A line that says that no .dsc is listed.
fn no_dsc_lines(alloc: Global) -> Result<Vec<String>, AllocError>
    ensures { IfOk result (λ lines. map string_bytes lines.items ≡ codes "no .dsc with source" ∷ []) }
{
    let mut lines = Vec::new(alloc);
    lines.push(String::from_str(alloc, "no .dsc with source")?)?;
    Ok(lines)
}

/// A record that is refused, and its fault.
fn fault_lines(alloc: Global, file: &Text, fault: RecordFault) -> Result<Vec<String>, AllocError>
    ensures { IfOk result (λ lines. map string_bytes lines.items ≡ file_lines file.now (spaced (codes "fault") (fault_text fault))) }
{
    file_lines(alloc, file, format!(in alloc; "fault {fault}")?)
}

/// `WORD SAID, not WANTED`.
fn other_line(alloc: Global, word: &str, said: &Text, wanted: &str) -> Result<String, AllocError>
    ensures { IfOk result (λ line. string_bytes line ≡ not_words word.now said.now wanted.now) }
{
    let said = said.as_str();
    format!(in alloc; "{word} {said}, not {wanted}")
}

/// A line that says that a .dsc does not list a file of the .changes, or lists it with another print.
fn lack_line(
    alloc: Global,
    file: &Text,
    print: &Print,
    listed: &Option<Print>,
) -> Result<String, AllocError>
    ensures { IfOk result (λ line. string_bytes line ≡ unlisted_words file.now print.now listed.now) }
{
    let Some(listed) = listed else {
        return worded(alloc, "does not list", file.as_str());
    };
    let file = file.as_str();
    let listed = print_text(alloc, listed)?;
    let wanted = print_text(alloc, print)?;
    format!(in alloc; "lists {file} as {listed}, not {wanted}")
}

/// How a .dsc differs from its .changes.
fn dsc_line(
    alloc: Global,
    changes: &Changes,
    difference: &DscDifference,
) -> Result<String, AllocError>
    ensures { IfOk result (λ line. string_bytes line ≡ dsc_words changes.now difference.now) }
{
    match difference {
        DscDifference::Source { said } => other_line(alloc, "source", said, changes.source()),
        DscDifference::Version { said } => {
            other_line(alloc, "version", said, changes.version().text())
        }
        DscDifference::Name { own } => worded(alloc, "is not named", own.as_str()),
        DscDifference::ListsPart { file } => worded(alloc, "lists", file.as_str()),
        DscDifference::LacksFile {
            file,
            print,
            listed,
        } => lack_line(alloc, file, print, listed),
    }
}

/// A line that says that a sidecar is of an architecture that the .changes does not have.
fn foreign_line(alloc: Global, architecture: &Text) -> Result<String, AllocError>
    ensures { IfOk result (λ line. string_bytes line ≡ codes "architecture " ++ (architecture.now ++ codes " is not in the .changes")) }
{
    let architecture = architecture.as_str();
    format!(in alloc; "architecture {architecture} is not in the .changes")
}

/// How a sidecar differs from those that its .changes may have.
fn sidecar_line(
    alloc: Global,
    changes: &Changes,
    difference: &SidecarDifference,
) -> Result<String, AllocError>
    ensures { IfOk result (λ line. string_bytes line ≡ sidecar_words changes.now difference.now) }
{
    match difference {
        SidecarDifference::Name { own } => worded(alloc, "is not named", own.as_str()),
        SidecarDifference::Architecture { said } => foreign_line(alloc, said),
        SidecarDifference::Source { said } => other_line(alloc, "source", said, changes.source()),
    }
}

/// Two sidecars of the same package and architecture: the second, and a line that says that it is the second.
fn twin_lines(
    alloc: Global,
    package: &Text,
    architecture: &Text,
    first: &Text,
    second: &Text,
) -> Result<Vec<String>, AllocError>
    ensures { IfOk result (λ lines. map string_bytes lines.items ≡ file_lines second.now (codes "is the second of " ++ («package».now ++ (codes " " ++ (architecture.now ++ (codes ", beside " ++ first.now)))))) }
{
    let (package, architecture) = (package.as_str(), architecture.as_str());
    let first = first.as_str();
    let line = format!(in alloc; "is the second of {package} {architecture}, beside {first}")?;
    file_lines(alloc, second, line)
}

/// Verdicts 8 and 9: a file, its place in the pool, and what is there.
fn place_lines(
    alloc: Global,
    name: &Text,
    print: &Print,
    path: &Text,
    there: &Option<Print>,
) -> Result<Vec<String>, AllocError>
    ensures { IfOk result (λ lines. map string_bytes lines.items ≡ file_words (codes "file") name.now print.now ∷ spaced (codes "place") path.now ∷ there_words there.now ∷ []) }
{
    let mut lines = Vec::new(alloc);
    lines.push(file_line(alloc, "file", name.as_str(), print)?)?;
    lines.push(worded(alloc, "place", path.as_str())?)?;
    lines.push(match there {
        Some(found) => worded(alloc, "there", print_text(alloc, found)?.as_str())?,
        None => String::from_str(alloc, "there nothing")?,
    })?;
    Ok(lines)
}

/// The lines on what the verdict on an upload is about.
pub fn named_lines(
    alloc: Global,
    config: &Config,
    changes: &Changes,
    named: &Named,
) -> Result<Vec<String>, AllocError>
    ensures { IfOk result (λ lines. map string_bytes lines.items ≡ named_lines config.now changes.now named.now) }
{
    let suite = suite_of(config, changes);
    match named {
        Named::Distribution { name } => distribution_lines(alloc, config, name),
        Named::Architecture { name } => architecture_lines(alloc, suite, name),
        Named::Uploader { source, person } => uploader_lines(alloc, suite, source, person),
        Named::OtherComponent {
            file,
            component,
            upload,
        } => other_component_lines(alloc, file, component, upload),
        Named::Component { name } => component_lines(alloc, suite, name),
        Named::ListedChanges { file } => listed_lines(alloc, file, "a .changes"),
        Named::SurplusDsc { file, is_second } => surplus_lines(alloc, file, *is_second),
        Named::NoDsc => no_dsc_lines(alloc),
        Named::LonePackage { file } => lone_lines(alloc, file, ".deb", ".control"),
        Named::LoneSidecar { file } => lone_lines(alloc, file, ".control", ".deb"),
        Named::SourceFile { file } => listed_lines(alloc, file, "a source file without source"),
        Named::UnreadDsc { file, fault } | Named::UnreadSidecar { file, fault } => {
            fault_lines(alloc, file, *fault)
        }
        Named::Dsc { file, difference } => {
            file_lines(alloc, file, dsc_line(alloc, changes, difference)?)
        }
        Named::Sidecar { file, difference } => {
            file_lines(alloc, file, sidecar_line(alloc, changes, difference)?)
        }
        Named::Twins {
            package,
            architecture,
            first,
            second,
        } => twin_lines(alloc, package, architecture, first, second),
        Named::File {
            name,
            print,
            path,
            there,
        } => place_lines(alloc, name, print, path, there),
    }
}
