//! What waits, and since when.

ghost use Rattle.std.specs.Prelude.{◌≡◌, ◌∷◌, ◌++◌, List, [], cond, IfOk, OnOk, length, min};
ghost use Rattle.std.specs.List.{list_any};
ghost use Rattle.std.specs.Option.{option_map_or};
ghost use Rattle.book.specs.declared.change.Waiting.{Waiting as WaitingValue};
ghost use Rattle.figures.specs.Families.{oldest_family, oldest_samples, state_word, waiting_family, waiting_sample};
ghost use Rattle.figures.specs.Keys.{HasSigns};
ghost use Rattle.figures.specs.Numbers.{in_state, is_changes_of, is_in, oldest};

use crate::family::{Family, Figure, Sample, labelled, push_labelled_if};
use crate::key::Sign;
use book::{ArrivedFile, Waiting};
use std::alloc::{AllocError, Global};
use std::collections::BTreeSet;

/// Whether an upload that waits lacks something.
#[derive(Clone, Copy)]
pub enum State {
    /// Each file that it lists is there.
    Whole,
    /// A file that it lists is not there.
    Lacking,
}

impl State {
    /// The word of the state.
    #[tactic(auto, unfolding(crate::specs::Families::state_word))]
    fn word(self) -> &'static str
        ensures { result.now ≡ state_word self }
    {
        match self {
            State::Whole => "whole",
            State::Lacking => "lacking",
        }
    }
}

/// Whether an upload waits in a state.
fn is_in(state: State, upload: &Waiting) -> bool
    ensures { result ≡ is_in state upload.now }
{
    let is_whole = upload.lacks.as_slice().is_empty();
    match state {
        State::Whole => is_whole,
        State::Lacking => !is_whole,
    }
}

/// How many uploads wait in a state.
fn count_in(waiting: &[Waiting], state: State) -> u64
    ensures { result ≡ length (in_state state waiting.now) }
{
    waiting.iter().filter(|upload| is_in(state, upload)).count() as u64
}

/// How many uploads wait in a state, with its word.
fn waiting_sample(alloc: Global, waiting: &[Waiting], state: State) -> Result<Sample, AllocError>
    ensures { IfOk result (λ sample. sample ≡ waiting_sample waiting.now state) }
{
    labelled(alloc, state.word(), count_in(waiting, state))
}

/// How many uploads wait.
#[tactic(auto, unfolding(crate::specs::Families::waiting_family))]
pub fn waiting_family(alloc: Global, waiting: &[Waiting]) -> Result<Family, AllocError>
    ensures { IfOk result (λ family. family ≡ waiting_family waiting.now) }
{
    let mut samples = Vec::new(alloc);
    samples.push(waiting_sample(alloc, waiting, State::Whole)?)?;
    samples.push(waiting_sample(alloc, waiting, State::Lacking)?)?;
    Ok(Family::new(Figure::Waiting, samples))
}

/// Adds the sign of an upload.
fn add_sign(signs: &mut BTreeSet<Sign>, upload: &Waiting) -> Result<(), AllocError>
    ensures { OnOk result ((uploads : List WaitingValue) → HasSigns signs.old uploads → HasSigns signs.new (upload.now ∷ uploads)) }
{
    signs.insert(Sign::new(&upload.name, &upload.print)?)?;
    Ok(())
}

/// Adds the sign of an upload if it waits in the state.
fn add_sign_in(signs: &mut BTreeSet<Sign>, upload: &Waiting, state: State) -> Result<(), AllocError>
    ensures { OnOk result ((uploads : List WaitingValue) → HasSigns signs.old uploads
        → HasSigns signs.new (cond (is_in state upload.now) (upload.now ∷ uploads) uploads)) }
{
    if is_in(state, upload) {
        add_sign(signs, upload)?;
    }
    Ok(())
}

/// The signs of the uploads that wait in a state.
fn signs_in(alloc: Global, waiting: &[Waiting], state: State) -> Result<BTreeSet<Sign>, AllocError>
    ensures { IfOk result (λ signs. HasSigns signs (in_state state waiting.now)) }
{
    let mut signs = BTreeSet::new(alloc);
    let mut left = waiting.len();
    while left > 0 {
        left -= 1;
        add_sign_in(&mut signs, &waiting[left], state)?;
    }
    Ok(signs)
}

/// Whether a file is the .changes of one of the uploads with these signs.
fn has_sign(signs: &BTreeSet<Sign>, file: &ArrivedFile) -> Result<bool, AllocError>
    ensures { IfOk result (λ has. (uploads : List WaitingValue) → HasSigns signs.now uploads → has ≡ list_any (is_changes_of file.now) uploads) }
{
    let sign = Sign::new(&file.name, &file.print)?;
    Ok(signs.contains(&sign))
}

/// The least moment, with one more.
fn least(oldest: Option<u64>, moment: u64) -> u64
    ensures { result ≡ option_map_or (λ m. min m moment) oldest moment }
{
    match oldest {
        Some(oldest) => oldest.min(moment),
        None => moment,
    }
}

/// The moment of the .changes that has waited longest in a state.
#[tactic(auto, unfolding(crate::specs::Numbers::oldest))]
fn oldest_in(
    alloc: Global,
    waiting: &[Waiting],
    arrived: &[ArrivedFile],
    state: State,
) -> Result<Option<u64>, AllocError>
    ensures { IfOk result (λ found. found ≡ oldest (in_state state waiting.now) arrived.now) }
{
    let signs = signs_in(alloc, waiting, state)?;
    let mut oldest = None;
    for file in arrived {
        if has_sign(&signs, file)? {
            oldest = Some(least(oldest, file.moment));
        }
    }
    Ok(oldest)
}

/// Appends the moment of the .changes that has waited longest in a state, with its word, if one waits in it.
fn push_oldest(
    alloc: Global,
    waiting: &[Waiting],
    arrived: &[ArrivedFile],
    state: State,
    samples: &mut Vec<Sample>,
) -> Result<(), AllocError>
    ensures { OnOk result (samples.new.items ≡ samples.old.items ++ oldest_samples waiting.now arrived.now state) }
{
    let oldest = oldest_in(alloc, waiting, arrived, state)?;
    push_labelled_if(alloc, state.word(), oldest, samples)
}

/// Since when uploads wait.
#[tactic(auto, unfolding(crate::specs::Families::oldest_family))]
pub fn oldest_family(
    alloc: Global,
    waiting: &[Waiting],
    arrived: &[ArrivedFile],
) -> Result<Family, AllocError>
    ensures { IfOk result (λ family. family ≡ oldest_family waiting.now arrived.now) }
{
    let mut samples = Vec::new(alloc);
    push_oldest(alloc, waiting, arrived, State::Whole, &mut samples)?;
    push_oldest(alloc, waiting, arrived, State::Lacking, &mut samples)?;
    Ok(Family::new(Figure::Oldest, samples))
}
