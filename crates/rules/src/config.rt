//! The configuration of an archive.

ghost use Rattle.std.specs.Prelude.{◌≡◌, ◌⊎◌, [], codes, get_or, Ok, Err, IfOk, IfErr};
ghost use Rattle.rules.specs.Suites.{claiming, suite_named};
ghost use Rattle.rules.specs.Configuration.{config_in, strict_config_in};
ghost use Rattle.rules.specs.Paragraphs.{days, mebibytes};
ghost use Rattle.rules.specs.Sizes.{largest};

use crate::checks::{check, check_strictly};
use crate::days::Days;
use crate::fault::ConfigFault;
use crate::paragraph::{days_of, mebibytes_of, suites_of};
use crate::size::Mebibytes;
use crate::suite::{Suite, position_of_claiming, position_of_named};
use para::{Listed, Paragraph, read_many};
use std::alloc::Global;
use std::marker::Model;
use sums::{GREATEST_SIZE, MOST_SIZE};

/// The most bytes of a configuration that is read (own rule of this archive).
pub const MOST_CONFIG: usize = 1_048_576;

/// The configuration of an archive: the text that it was read from, and its suites in the order of the text.
#[derive(Drop)]
pub struct Config {
    text: Vec<u8>,
    suites: Listed<Suite>,
    keep_days: Option<Days>,
    max_file_size: Option<Mebibytes>,
}

impl Model for Config {
    ghost use Rattle.std.specs.Prelude.{◌≡◌, Ok};
    ghost use Rattle.rules.specs.Values.{ConfigValue};
    ghost use Rattle.rules.specs.Configuration.{config_in};

    ghost Value = { ConfigValue };

    ghost view = { λ c. record { text = c.text.items; suites = c.suites; keep_days = c.keep_days; max_file_size = c.max_file_size } };

    ghost invariant = { λ c. config_in c.text.items ≡ Ok (record { text = c.text.items; suites = c.suites; keep_days = c.keep_days; max_file_size = c.max_file_size }) };
}

/// The number of days for which an arrival counts, if the first paragraph has one.
fn first_keep_days(paragraphs: &[Paragraph<'_>]) -> Option<Days>
    ensures { result ≡ days (codes "KeepDays") (get_or paragraphs.now 0 []) }
{
    match paragraphs.first() {
        Some(paragraph) => days_of(paragraph, "KeepDays"),
        None => None,
    }
}

/// The number of MiB that a file may have, if the first paragraph says one.
fn first_file_size(paragraphs: &[Paragraph<'_>]) -> Option<Mebibytes>
    ensures { result ≡ mebibytes (codes "MaxFileSize") (get_or paragraphs.now 0 []) }
{
    match paragraphs.first() {
        Some(paragraph) => mebibytes_of(paragraph, "MaxFileSize"),
        None => None,
    }
}

impl Config {
    /// Reads a configuration, and keeps a copy of its text (own rules of this archive): at most 1,048,576 bytes,
    /// one control paragraph (Debian Policy 5.1) for each suite.
    ///
    /// The answer is the first of these refusals that applies, anywhere in the text:
    /// - `Paragraph`: the text is too long, or is not one or more paragraphs;
    /// - `Missing`: a Codename, Architectures or Components is absent or without a word;
    /// - `BadValue`: a Codename or Suite is not one line with a plain name; an Origin, Label or Description is not one
    ///   line, or is empty; the words of Architectures are not architecture names other than `all`, or one stands twice;
    ///   those of Components are not plain names, or one stands twice; those of an AlsoAcceptFor are not one plain name
    ///   or more; a KeepDays or ValidDays is not one line with a number of days, 1 to 3650 without a leading zero; or a
    ///   KeepDays stands in a paragraph other than the first;
    /// - `ClaimedTwice`: two suites claim the same distribution name, as Codename, as Suite or in AlsoAcceptFor;
    /// - `BadRule`: an Uploaders has text on its first line, or a line that is not `SOURCE by PERSON`;
    /// - `Limits`: there are more than 16 suites, or a suite has more than 16 architectures, 8 components or 256
    ///   uploader lines.
    ///
    /// `OutOfMemory` may come in place of any other answer if memory is short.
    pub fn read(alloc: Global, text: &[u8]) -> Result<Config, ConfigFault>
        ensures read { IfOk result (λ c. config_in text.now ≡ Ok c) }
        ensures refused { IfErr result (λ e. (e ≡ ConfigFault.OutOfMemory) ⊎ (config_in text.now ≡ Err e)) }
    {
        let paragraphs = read_many(alloc, text, MOST_CONFIG)?;
        check(alloc, &paragraphs)?;
        let suites = suites_of(alloc, &paragraphs)?;
        let keep_days = first_keep_days(&paragraphs);
        let max_file_size = first_file_size(&paragraphs);
        let text = text.to_vec(alloc)?;
        Ok(Config {
            text,
            suites,
            keep_days,
            max_file_size,
        })
    }

    /// Reads a configuration that somebody hands in anew, as `read` does, and refuses with `BadValue`, in its order, also a
    /// MaxFileSize that is not one line with a number of MiB, 4 to 1024 in decimal without a leading zero, or that stands in
    /// a paragraph other than the first. `read` passes such a field over, since an archive may keep one.
    pub fn read_strict(alloc: Global, text: &[u8]) -> Result<Config, ConfigFault>
        ensures read { IfOk result (λ c. strict_config_in text.now ≡ Ok c) }
        ensures refused { IfErr result (λ e. (e ≡ ConfigFault.OutOfMemory) ⊎ (strict_config_in text.now ≡ Err e)) }
    {
        let paragraphs = read_many(alloc, text, MOST_CONFIG)?;
        check_strictly(alloc, &paragraphs)?;
        Config::read(alloc, text)
    }

    /// The bytes that were read.
    pub fn text(&self) -> &[u8]
        ensures text { result.now ≡ self.now.text }
        ensures read { config_in self.now.text ≡ Ok self.now }
    {
        self.text.as_slice()
    }

    /// The suites, in the order of the text.
    pub fn suites(&self) -> &[Suite]
        ensures { result.now ≡ self.now.suites }
    {
        self.suites.as_slice()
    }

    /// The number of days for which an arrival counts; without a number it counts for good.
    pub fn keep_days(&self) -> Option<Days>
        ensures { result ≡ self.now.keep_days }
    {
        self.keep_days
    }

    /// How many bytes a file that comes in may have at most: the number of MiB that the first paragraph says in its field
    /// MaxFileSize (one line, 4 to 1024, in decimal without a leading zero), else 4 MiB (own rule of this archive).
    #[tactic(auto, unfolding(crate::specs::Sizes::largest))]
    pub fn largest_file(&self) -> u64
        ensures { result ≡ largest self.now }
    {
        match self.max_file_size {
            Some(size) => size.bytes().min(GREATEST_SIZE).max(MOST_SIZE),
            None => MOST_SIZE,
        }
    }

    /// The position of the suite that claims the distribution name as its Codename, its Suite or a word of its
    /// AlsoAcceptFor; no two suites claim the same name. No memory is taken.
    pub fn suite_for(&self, distribution: &str) -> Option<usize>
        ensures { result ≡ claiming distribution.now self.now.suites }
    {
        position_of_claiming(self.suites(), distribution)
    }

    /// The position of the suite with the codename.
    pub fn suite_named(&self, codename: &str) -> Option<usize>
        ensures { result ≡ suite_named self.now.suites codename.now }
    {
        position_of_named(self.suites(), codename)
    }
}
