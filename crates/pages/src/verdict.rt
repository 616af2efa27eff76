//! Verdicts in words. The sentences are those of docs/FAULTS.md.

ghost use Rattle.std.specs.Prelude.{◌≡◌};
ghost use Rattle.pages.specs.Meanings.{tag, verdict_word, marked_meaning};

use rules::Verdict;

/// A verdict as a run prints it: `accepted`, or `refused` and its number.
#[tactic(auto, unfolding(crate::specs::Meanings::verdict_word))]
pub fn verdict_word(verdict: Verdict) -> &'static str
    ensures { result.now ≡ verdict_word verdict }
{
    match verdict {
        Verdict::Accepted => "accepted",
        Verdict::Unclaimed => "refused 1",
        Verdict::ForeignArchitecture => "refused 2",
        Verdict::NotAllowed => "refused 3",
        Verdict::ForeignComponent => "refused 4",
        Verdict::BadListing => "refused 5",
        Verdict::BadDsc => "refused 6",
        Verdict::BadSidecar => "refused 7",
        Verdict::NotInPool => "refused 8",
        Verdict::OtherContents => "refused 9",
    }
}

/// What stands before the word of a verdict, so that the eye finds what was refused.
#[tactic(auto, unfolding(crate::specs::Meanings::tag))]
pub fn tag(verdict: Verdict) -> &'static str
    ensures { result.now ≡ tag verdict }
{
    match verdict {
        Verdict::Accepted => "<span class=\"tag good\">",
        _ => "<span class=\"tag bad\">",
    }
}

/// What a verdict means, as markup.
#[tactic(auto, unfolding(crate::specs::Meanings::marked_meaning))]
pub fn marked_meaning(verdict: Verdict) -> &'static str
    ensures { result.now ≡ marked_meaning verdict }
{
    match verdict {
        Verdict::Accepted => {
            "The upload's packages were given to its suite, which shows of each the greatest version."
        }
        Verdict::Unclaimed => {
            "No suite takes the distribution: it is no suite's Codename or Suite, and in no AlsoAcceptFor."
        }
        Verdict::ForeignArchitecture => {
            "The suite does not keep an architecture of the .changes. An upload with sources needs <code>source</code> among the architectures of the suite; <code>all</code> needs an architecture besides <code>source</code> there."
        }
        Verdict::NotAllowed => {
            "The suite has Uploaders, and none of its lines lets this person upload this source."
        }
        Verdict::ForeignComponent => {
            "The listed files are of different components, or of one that the suite does not have. The component is what comes before the slash of a section, else <code>main</code>."
        }
        Verdict::BadListing => {
            "The listed files do not make an upload. Each .deb needs a .control of the same stem, and each .control a .deb. No .changes may be listed. If <code>source</code> is among the architectures, exactly one .dsc has to be listed. If not, only .deb and .control files may be listed."
        }
        Verdict::BadDsc => {
            "The .dsc can't be read, or it does not fit: its source or version is another, it is not named <code>SOURCE_VERSION.dsc</code> without the epoch, it lists a .dsc, .deb, .control or .changes, or a source file of the .changes is not in its list with the same size and digests."
        }
        Verdict::BadSidecar => {
            "A sidecar can't be read, or it does not fit: it is not named <code>PACKAGE_VERSION_ARCHITECTURE.control</code> by its own fields, its architecture is not in the .changes, its source is another, or two are of one package and architecture."
        }
        Verdict::NotInPool => {
            "The .dsc lists a file that is neither in the .changes nor in the pool, at its place with the same size and digests."
        }
        Verdict::OtherContents => {
            "A .deb, a .dsc or a source file has a place in the pool where other contents are."
        }
    }
}
