//! The manifest: what an export writes down for the next one.
//!
//! ```text
//! boqitsel files 1
//! shown CODENAME STATE BEFORE             what the suite showed, and what it had shown before that, or `-`
//! here SHA256 SIZE SECONDS.NANOS PATH     written or compared, and when the file was modified then
//! coming PATH                             was about to be written
//! left PATH                               no file of the pool since an export that showed something
//! ```
//!
//! A manifest with any other line is ignored as a whole: then all files are compared, and nothing is removed. A line is read only
//! if it is what would be written, to the byte.

ghost use Rattle.std.specs.Prelude.{◌≡◌, true, IfOk, IfSome, string_bytes};
ghost use Rattle.std.specs.List.{list_all};
ghost use Rattle.exported.specs.Lines.{nine_digits, path_line as line_of_path, shown_line as line_of_suite, states_line as line_of_states};
ghost use Rattle.hex.specs.Hex.{encode_lower};
ghost use Rattle.exported.specs.Names.{have_pool_paths, is_pool_path as is_path_in_pool};

use crate::names::is_pool_path;
use hex::FromHex;
use para::Text;
use std::alloc::{AllocError, Global};
use std::collections::BTreeMap;

/// The first line of a manifest.
const FIRST: &str = "boqitsel files 1";

/// When a file was last modified, in seconds and nanoseconds since 1970-01-01 00:00:00 UTC. An earlier time counts as that moment.
#[derive(Clone, Copy, Debug, PartialEq, Eq)]
pub struct Stamp {
    pub seconds: u64,
    pub nanos: u32,
}

/// The contents of a file that an export has written or compared, and when the file was modified then.
#[derive(Clone, Copy, PartialEq, Eq)]
pub struct Vouched {
    pub sha256: [u8; 32],
    pub size: u64,
    pub stamp: Stamp,
}

/// What is known of a path.
#[derive(Clone, Copy, PartialEq, Eq)]
pub enum Word {
    /// The file was written or compared.
    Here(Vouched),
    /// The file was about to be written.
    Coming,
    /// No file of the pool has been there since an export that showed something.
    Left,
}

/// What is known of a path, and the line that says it, which is kept so that it is not made anew for each text.
#[derive(Drop)]
pub struct Known {
    word: Word,
    line: String,
}

/// The states of a suite: the one that was shown, and the one that was shown before it, if it is known.
#[derive(Drop)]
pub struct ShownStates {
    pub state: String,
    pub before: Option<String>,
}

impl ShownStates {
    /// The state that was shown before, if it is known.
    pub fn before(&self) -> Option<&str> {
        match &self.before {
            Some(before) => Some(before.as_str()),
            None => None,
        }
    }

    /// Whether these are the states.
    fn is(&self, state: &str, before: Option<&str>) -> bool {
        self.state.as_str() == state && self.before() == before
    }
}

/// What is known of the paths of the pool that exports wrote, and of the states that they showed.
#[derive(Drop)]
pub struct Manifest {
    words: BTreeMap<String, Known>,
    shown: BTreeMap<String, ShownStates>,
    /// Whether something differs from what was read.
    is_changed: bool,
    // No path leads out of the pool.
    ghost within: { have_pool_paths words.entries ≡ true },
}

/// A digest in hexadecimal.
fn digest_text(alloc: Global, sha256: &[u8; 32]) -> Result<String, AllocError>
    ensures { IfOk result (λ text. string_bytes text ≡ encode_lower sha256.now) }
{
    hex::encode(alloc, sha256.as_slice())
}

/// The nanoseconds of a stamp, of nine digits.
fn nanos_text(alloc: Global, nanos: u32) -> Result<String, AllocError>
    ensures { IfOk result (λ text. string_bytes text ≡ nine_digits nanos) }
{
    format!(in alloc; "{nanos:09}")
}

/// The line of a path that is vouched for, without its newline.
#[tactic(auto, unfolding(crate::specs::Lines::path_line))]
fn here_line(alloc: Global, path: &str, vouched: Vouched) -> Result<String, AllocError>
    ensures { IfOk result (λ line. string_bytes line ≡ line_of_path path.now (Word.Here vouched)) }
{
    let digest = digest_text(alloc, &vouched.sha256)?;
    let nanos = nanos_text(alloc, vouched.stamp.nanos)?;
    let (size, seconds) = (vouched.size, vouched.stamp.seconds);
    format!(in alloc; "here {digest} {size} {seconds}.{nanos} {path}")
}

/// The line of a path and what is known of it, without its newline.
#[tactic(auto, unfolding(crate::specs::Lines::path_line))]
fn path_line(alloc: Global, path: &str, word: Word) -> Result<String, AllocError>
    ensures { IfOk result (λ line. string_bytes line ≡ line_of_path path.now word) }
{
    match word {
        Word::Here(vouched) => here_line(alloc, path, vouched),
        Word::Coming => format!(in alloc; "coming {path}"),
        Word::Left => format!(in alloc; "left {path}"),
    }
}

/// The line of a suite of two states, without its newline.
#[tactic(auto, unfolding(crate::specs::Lines::states_line))]
fn states_line(
    alloc: Global,
    codename: &str,
    state: &str,
    before: &str,
) -> Result<String, AllocError>
    ensures { IfOk result (λ line. string_bytes line ≡ line_of_states codename.now state.now before.now) }
{
    format!(in alloc; "shown {codename} {state} {before}")
}

/// The line of a suite, without its newline.
fn shown_line(alloc: Global, codename: &str, shown: &ShownStates) -> Result<String, AllocError>
    ensures { IfOk result (λ line. string_bytes line ≡ line_of_suite codename.now shown.now) }
{
    let state = shown.state.as_str();
    match &shown.before {
        Some(before) => states_line(alloc, codename, state, before.as_str()),
        None => states_line(alloc, codename, state, "-"),
    }
}

/// What a text `SECONDS.NANOS` says.
fn stamp_in(text: &str) -> Option<Stamp> {
    let (seconds, nanos) = text.split_once('.')?;
    Some(Stamp {
        seconds: seconds.parse::<u64>().ok()?,
        nanos: nanos.parse::<u32>().ok()?,
    })
}

/// What the words after `here` say, and their path.
fn vouched_in(rest: &str) -> Option<(&str, Word)> {
    let (digest, rest) = rest.split_once(' ')?;
    let (size, rest) = rest.split_once(' ')?;
    let (stamp, path) = rest.split_once(' ')?;
    let vouched = Vouched {
        sha256: <[u8; 32]>::from_hex(digest).ok()?,
        size: size.parse::<u64>().ok()?,
        stamp: stamp_in(stamp)?,
    };
    Some((path, Word::Here(vouched)))
}

/// What a line may say of a path.
fn words_in(line: &str) -> Option<(&str, Word)> {
    let (first, rest) = line.split_once(' ')?;
    match first {
        "here" => vouched_in(rest),
        "coming" => Some((rest, Word::Coming)),
        "left" => Some((rest, Word::Left)),
        _ => None,
    }
}

/// What a line says of a path, if it is the line that would be written for it, and the path is that of a file of the pool.
fn path_in_line(alloc: Global, line: &str) -> Result<Option<(&str, Word)>, AllocError>
    ensures written { IfOk result (λ found. IfSome found (λ at. line.now ≡ line_of_path at.0.now at.1)) }
    ensures within { IfOk result (λ found. IfSome found (λ at. is_path_in_pool at.0.now ≡ true)) }
{
    let Some((path, word)) = words_in(line) else {
        return Ok(None);
    };
    let written = path_line(alloc, path, word)?;
    let is_within = is_pool_path(path);
    if is_within && written.as_str() == line {
        return Ok(Some((path, word)));
    }
    Ok(None)
}

/// The words after `shown` of a line: a codename, a state, and the one before or `-`.
fn shown_in_line(line: &str) -> Option<(&str, &str, &str)> {
    let rest = line.strip_prefix("shown ")?;
    let (codename, rest) = rest.split_once(' ')?;
    let (state, before) = rest.split_once(' ')?;
    if before.contains(' ') {
        return None;
    }
    Some((codename, state, before))
}

impl Manifest {
    /// A manifest that knows nothing.
    fn new(alloc: Global) -> Manifest {
        Manifest {
            words: BTreeMap::new(alloc),
            shown: BTreeMap::new(alloc),
            is_changed: false,
        }
    }

    /// The manifest of these bytes. It knows nothing if there are none, or if another line is among them.
    pub fn read(alloc: Global, bytes: Option<&[u8]>) -> Result<Manifest, AllocError> {
        let mut manifest = Manifest::new(alloc);
        let Some(Ok(text)) = bytes.map(|bytes| std::str::from_utf8(bytes)) else {
            return Ok(manifest);
        };
        if manifest.read_text(alloc, text)? {
            return Ok(manifest);
        }
        Ok(Manifest::new(alloc))
    }

    /// Takes the lines of a text, and says whether they are those of a manifest.
    fn read_text(&mut self, alloc: Global, text: &str) -> Result<bool, AllocError> {
        let Some(lines) = text.strip_suffix('\n') else {
            return Ok(false);
        };
        let mut is_first = true;
        for line in lines.split('\n') {
            let is_known = if is_first {
                line == FIRST
            } else {
                self.read_line(alloc, line)?
            };
            if !is_known {
                return Ok(false);
            }
            is_first = false;
        }
        Ok(true)
    }

    /// Takes a line after the first, and says whether it belongs to a manifest.
    fn read_line(&mut self, alloc: Global, line: &str) -> Result<bool, AllocError> {
        if let Some((codename, state, before)) = shown_in_line(line) {
            let before = if before == "-" { None } else { Some(before) };
            self.put_shown(alloc, codename, state, before)?;
            return Ok(true);
        }
        let Some((path, word)) = path_in_line(alloc, line)? else {
            return Ok(false);
        };
        let line = String::from_str(alloc, line)?;
        self.put(alloc, path, Known { word, line })?;
        Ok(true)
    }

    /// Records what is known of a path of the pool.
    fn put(&mut self, alloc: Global, path: &str, known: Known) -> Result<(), AllocError>
        requires { is_path_in_pool path.now ≡ true }
    {
        self.words.insert(String::from_str(alloc, path)?, known)?;
        Ok(())
    }

    fn put_shown(
        &mut self,
        alloc: Global,
        codename: &str,
        state: &str,
        before: Option<&str>,
    ) -> Result<(), AllocError> {
        let before = match before {
            Some(before) => Some(String::from_str(alloc, before)?),
            None => None,
        };
        let shown = ShownStates {
            state: String::from_str(alloc, state)?,
            before,
        };
        self.shown
            .insert(String::from_str(alloc, codename)?, shown)?;
        Ok(())
    }

    /// The whole text of the manifest.
    pub fn text(&self, alloc: Global) -> Result<String, AllocError> {
        let mut text = String::from_str(alloc, FIRST)?;
        text.push('\n')?;
        for (codename, shown) in &self.shown {
            text.push_str(shown_line(alloc, codename.as_str(), shown)?.as_str())?;
            text.push('\n')?;
        }
        for (_, known) in &self.words {
            text.push_str(known.line.as_str())?;
            text.push('\n')?;
        }
        Ok(text)
    }

    /// What is known of a path.
    pub fn word(&self, path: &str) -> Option<Word> {
        let known = self.words.get(path)?;
        Some(known.word)
    }

    /// Records what is known of a path. Nothing is recorded for a path that is not that of a file of the pool.
    pub fn set(&mut self, alloc: Global, path: &str, word: Word) -> Result<(), AllocError> {
        if self.word(path) == Some(word) || !is_pool_path(path) {
            return Ok(());
        }
        let line = path_line(alloc, path, word)?;
        self.put(alloc, path, Known { word, line })?;
        self.is_changed = true;
        Ok(())
    }

    /// Forgets a path.
    pub fn forget(&mut self, path: &str) {
        if self.words.remove(path).is_some() {
            self.is_changed = true;
        }
    }

    /// What a suite showed when the manifest was written.
    pub fn shown(&self, codename: &str) -> Option<&ShownStates> {
        self.shown.get(codename)
    }

    /// The codenames of all suites, with what each showed when the manifest was written.
    pub fn states(&self) -> &BTreeMap<String, ShownStates> {
        &self.shown
    }

    /// Forgets a suite.
    pub fn forget_states(&mut self, codename: &str) {
        if self.shown.remove(codename).is_some() {
            self.is_changed = true;
        }
    }

    /// Records what a suite shows.
    pub fn set_shown(
        &mut self,
        alloc: Global,
        codename: &str,
        state: &str,
        before: Option<&str>,
    ) -> Result<(), AllocError> {
        if let Some(shown) = self.shown.get(codename) {
            if shown.is(state, before) {
                return Ok(());
            }
        }
        self.put_shown(alloc, codename, state, before)?;
        self.is_changed = true;
        Ok(())
    }

    /// All paths, with what is known of each.
    pub fn words(&self) -> &BTreeMap<String, Known> {
        &self.words
    }

    /// The paths that were left. All of them are in the pool.
    #[tactic(auto, using(crate::proofs::PathLemmas::first_within, crate::proofs::PathLemmas::rest_within, crate::proofs::PathLemmas::pushed_within))]
    pub fn left(&self, alloc: Global) -> Result<Vec<Text>, AllocError>
        ensures within { IfOk result (λ left. list_all is_path_in_pool left.items ≡ true) }
    {
        let mut left = Vec::new(alloc);
        for (path, known) in &self.words {
            if known.word == Word::Left {
                left.push(Text::new(alloc, path.as_str())?)?;
            }
        }
        Ok(left)
    }

    /// Whether something differs from what was read or written.
    pub fn is_changed(&self) -> bool {
        self.is_changed
    }

    /// Records that the manifest is written as it is.
    pub fn set_written(&mut self) {
        self.is_changed = false;
    }
}
