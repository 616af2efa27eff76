//! The two texts of figures: Prometheus' text format, version 0.0.4, and the lines of `archive status`.

ghost use Rattle.std.specs.Prelude.{◌≡◌, ◌++◌, IfOk, OnOk, string_bytes};
ghost use Rattle.std.specs.Fmt.{decimal};
ghost use Rattle.std.specs.List.{flat_map};
ghost use Rattle.figures.specs.Printing.{comment_text, family_text, label_text, metrics_text, sample_text, status_line, status_lines, status_text, value_text};

use crate::family::{Family, Figure, Sample};
use para::Text;
use std::alloc::{AllocError, Global};

/// Appends a number in decimal.
fn push_number(alloc: Global, number: u64, out: &mut String) -> Result<(), AllocError>
    ensures { OnOk result (string_bytes out.new ≡ string_bytes out.old ++ decimal number) }
{
    let text = format!(in alloc; "{number}")?;
    out.push_str(text.as_str())
}

/// Appends a label with its value, which needs no escape, if there is a value.
#[tactic(auto, unfolding(crate::specs::Printing::label_text))]
fn push_label(label: &str, value: &Option<Text>, out: &mut String) -> Result<(), AllocError>
    ensures { OnOk result (string_bytes out.new ≡ string_bytes out.old ++ label_text label.now value.now) }
{
    let Some(value) = value else {
        return Ok(());
    };
    out.push_str("{")?;
    out.push_str(label)?;
    out.push_str("=\"")?;
    out.push_str(value.as_str())?;
    out.push_str("\"}")
}

/// Appends the line of a number.
#[tactic(auto, unfolding(crate::specs::Printing::sample_text))]
fn push_sample(
    alloc: Global,
    figure: Figure,
    sample: &Sample,
    out: &mut String,
) -> Result<(), AllocError>
    ensures { OnOk result (string_bytes out.new ≡ string_bytes out.old ++ sample_text figure sample.now) }
{
    out.push_str(figure.name())?;
    push_label(figure.label(), &sample.label, out)?;
    out.push_str(" ")?;
    push_number(alloc, sample.number, out)?;
    out.push_str("\n")
}

/// Appends the lines of numbers.
fn push_samples(
    alloc: Global,
    figure: Figure,
    samples: &[Sample],
    out: &mut String,
) -> Result<(), AllocError>
    ensures { OnOk result (string_bytes out.new ≡ string_bytes out.old ++ flat_map (sample_text figure) samples.now) }
{
    for sample in samples {
        push_sample(alloc, figure, sample, out)?;
    }
    Ok(())
}

/// Appends a comment about a figure.
#[tactic(auto, unfolding(crate::specs::Printing::comment_text))]
fn push_comment(front: &str, figure: Figure, text: &str, out: &mut String) -> Result<(), AllocError>
    ensures { OnOk result (string_bytes out.new ≡ string_bytes out.old ++ comment_text front.now figure text.now) }
{
    out.push_str(front)?;
    out.push_str(figure.name())?;
    out.push_str(" ")?;
    out.push_str(text)?;
    out.push_str("\n")
}

/// Appends what a figure says, its type, and its numbers.
#[tactic(auto, unfolding(crate::specs::Printing::family_text))]
fn push_family(alloc: Global, family: &Family, out: &mut String) -> Result<(), AllocError>
    ensures { OnOk result (string_bytes out.new ≡ string_bytes out.old ++ family_text family.now) }
{
    let figure = family.figure;
    push_comment("# HELP ", figure, figure.help(), out)?;
    push_comment("# TYPE ", figure, figure.type_name(), out)?;
    push_samples(alloc, figure, family.samples.as_slice(), out)
}

/// Families in Prometheus' text format. It is refused for want of memory alone.
pub fn metrics_text(alloc: Global, families: &[Family]) -> Result<String, AllocError>
    ensures { IfOk result (λ text. string_bytes text ≡ metrics_text families.now) }
{
    let mut text = String::new(alloc);
    for family in families {
        push_family(alloc, family, &mut text)?;
    }
    Ok(text)
}

/// Appends a space and the value of a label, if there is a value.
#[tactic(auto, unfolding(crate::specs::Printing::value_text))]
fn push_value(value: &Option<Text>, out: &mut String) -> Result<(), AllocError>
    ensures { OnOk result (string_bytes out.new ≡ string_bytes out.old ++ value_text value.now) }
{
    let Some(value) = value else {
        return Ok(());
    };
    out.push_str(" ")?;
    out.push_str(value.as_str())
}

/// Appends the line of a number: the figure's word, the value of the label, the number.
#[tactic(auto, unfolding(crate::specs::Printing::status_line))]
fn push_status_line(
    alloc: Global,
    figure: Figure,
    sample: &Sample,
    out: &mut String,
) -> Result<(), AllocError>
    ensures { OnOk result (string_bytes out.new ≡ string_bytes out.old ++ status_line figure sample.now) }
{
    out.push_str(figure.word())?;
    push_value(&sample.label, out)?;
    out.push_str(" ")?;
    push_number(alloc, sample.number, out)?;
    out.push_str("\n")
}

/// Appends the lines of a family.
#[tactic(auto, unfolding(crate::specs::Printing::status_lines))]
fn push_status_lines(alloc: Global, family: &Family, out: &mut String) -> Result<(), AllocError>
    ensures { OnOk result (string_bytes out.new ≡ string_bytes out.old ++ status_lines family.now) }
{
    let figure = family.figure;
    for sample in family.samples.as_slice() {
        push_status_line(alloc, figure, sample, out)?;
    }
    Ok(())
}

/// The lines of `archive status`. It is refused for want of memory alone.
pub fn status_text(alloc: Global, families: &[Family]) -> Result<String, AllocError>
    ensures { IfOk result (λ text. string_bytes text ≡ status_text families.now) }
{
    let mut text = String::new(alloc);
    for family in families {
        push_status_lines(alloc, family, &mut text)?;
    }
    Ok(text)
}
