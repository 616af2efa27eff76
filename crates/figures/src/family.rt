//! Families of numbers, each under one name.

ghost use Rattle.std.specs.Prelude.{◌≡◌, ◌++◌, IfOk, OnOk};
ghost use Rattle.figures.specs.Families.{family, help_of, label_of, labelled, labelled_if, lone, name_of, type_of, word_of};

use para::{Listed, Text};
use std::alloc::{AllocError, Global};

/// What is counted or dated.
#[derive(Clone, Copy)]
pub enum Figure {
    /// The moment of the answer.
    Moment,
    /// Uploads without a verdict, by their state.
    Waiting,
    /// Since when one waits, by its state.
    Oldest,
    /// Verdicts, by their numbers.
    Verdicts,
    /// Items that a suite shows.
    Items,
    /// The date of a suite's Release.
    Changed,
    /// Until when a suite's Release is valid.
    Until,
    /// Files that arrived.
    Arrivals,
    /// Contents that are kept.
    Bodies,
    /// The bytes of these contents.
    Bytes,
}

impl Figure {
    /// The name for monitoring.
    #[tactic(auto, unfolding(crate::specs::Families::name_of))]
    pub fn name(self) -> &'static str
        ensures { result.now ≡ name_of self }
    {
        match self {
            Figure::Moment => "boqitsel_moment_timestamp_seconds",
            Figure::Waiting => "boqitsel_uploads_waiting",
            Figure::Oldest => "boqitsel_uploads_waiting_oldest_timestamp_seconds",
            Figure::Verdicts => "boqitsel_verdicts_total",
            Figure::Items => "boqitsel_suite_items",
            Figure::Changed => "boqitsel_suite_changed_timestamp_seconds",
            Figure::Until => "boqitsel_suite_valid_until_timestamp_seconds",
            Figure::Arrivals => "boqitsel_arrivals",
            Figure::Bodies => "boqitsel_bodies",
            Figure::Bytes => "boqitsel_bodies_bytes",
        }
    }

    /// What it says, for people.
    #[tactic(auto, unfolding(crate::specs::Families::help_of))]
    pub fn help(self) -> &'static str
        ensures { result.now ≡ help_of self }
    {
        match self {
            Figure::Moment => "Moment of this answer.",
            Figure::Waiting => "Uploads without a verdict.",
            Figure::Oldest => "Moment of the .changes that has waited longest.",
            Figure::Verdicts => "Verdicts given, by number; 0 is accepted.",
            Figure::Items => "Items that the suite shows.",
            Figure::Changed => "Date of the suite's Release.",
            Figure::Until => "Valid-Until of the suite's Release.",
            Figure::Arrivals => "Files that arrived and were not cleaned.",
            Figure::Bodies => "Contents of arrivals and of the pool, each once.",
            Figure::Bytes => "Bytes of these contents.",
        }
    }

    /// The type: verdicts are never taken away, so they are a counter.
    #[tactic(auto, unfolding(crate::specs::Families::type_of))]
    pub fn type_name(self) -> &'static str
        ensures { result.now ≡ type_of self }
    {
        match self {
            Figure::Verdicts => "counter",
            Figure::Moment
            | Figure::Waiting
            | Figure::Oldest
            | Figure::Items
            | Figure::Changed
            | Figure::Until
            | Figure::Arrivals
            | Figure::Bodies
            | Figure::Bytes => "gauge",
        }
    }

    /// The name of the label, or an empty text if there is none.
    #[tactic(auto, unfolding(crate::specs::Families::label_of))]
    pub fn label(self) -> &'static str
        ensures { result.now ≡ label_of self }
    {
        match self {
            Figure::Waiting | Figure::Oldest => "state",
            Figure::Verdicts => "verdict",
            Figure::Items | Figure::Changed | Figure::Until => "suite",
            Figure::Moment | Figure::Arrivals | Figure::Bodies | Figure::Bytes => "",
        }
    }

    /// The word in the lines of `archive status`.
    #[tactic(auto, unfolding(crate::specs::Families::word_of))]
    pub fn word(self) -> &'static str
        ensures { result.now ≡ word_of self }
    {
        match self {
            Figure::Moment => "moment",
            Figure::Waiting => "waiting",
            Figure::Oldest => "oldest",
            Figure::Verdicts => "verdict",
            Figure::Items => "items",
            Figure::Changed => "changed",
            Figure::Until => "until",
            Figure::Arrivals => "arrivals",
            Figure::Bodies => "bodies",
            Figure::Bytes => "bytes",
        }
    }
}

/// A number, and the value of its label if it has one.
#[derive(Drop)]
pub struct Sample {
    pub label: Option<Text>,
    pub number: u64,
}

/// The numbers of one figure.
#[derive(Drop)]
pub struct Family {
    pub figure: Figure,
    pub samples: Listed<Sample>,
}

impl Family {
    /// The numbers of a figure.
    pub fn new(figure: Figure, samples: Vec<Sample>) -> Family
        ensures { result ≡ family figure samples.items }
    {
        Family {
            figure,
            samples: Listed::from_vec(samples),
        }
    }
}

/// A number, and the value of its label.
pub fn labelled(alloc: Global, label: &str, number: u64) -> Result<Sample, AllocError>
    ensures { IfOk result (λ sample. sample ≡ labelled label.now number) }
{
    Ok(Sample {
        label: Some(Text::new(alloc, label)?),
        number,
    })
}

/// Appends a number, if there is one, and the value of its label.
pub fn push_labelled_if(
    alloc: Global,
    label: &str,
    number: Option<u64>,
    samples: &mut Vec<Sample>,
) -> Result<(), AllocError>
    ensures { OnOk result (samples.new.items ≡ samples.old.items ++ labelled_if label.now number) }
{
    let Some(number) = number else {
        return Ok(());
    };
    samples.push(labelled(alloc, label, number)?)?;
    Ok(())
}

/// The family of a number without a label.
pub fn lone_family(alloc: Global, figure: Figure, number: u64) -> Result<Family, AllocError>
    ensures { IfOk result (λ one. one ≡ family figure (lone number)) }
{
    let mut samples = Vec::new(alloc);
    samples.push(Sample {
        label: None,
        number,
    })?;
    Ok(Family::new(figure, samples))
}
