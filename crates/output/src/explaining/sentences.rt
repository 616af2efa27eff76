//! Verdicts in words. The sentences are those of docs/FAULTS.md.

ghost use Rattle.std.specs.Prelude.{◌≡◌};
ghost use Rattle.std.specs.Option.{option_map};
ghost use Rattle.output.specs.Explaining.Sentences.{meaning, remedy};

use rules::Verdict;

/// What a verdict means.
#[tactic(auto, unfolding(crate::specs::Explaining::Sentences::meaning))]
pub fn meaning(verdict: Verdict) -> &'static str
    ensures { result.now ≡ meaning verdict }
{
    match verdict {
        Verdict::Accepted => {
            "The upload's packages were given to its suite, which shows of each the greatest version."
        }
        Verdict::Unclaimed => {
            "No suite takes the distribution: it is no suite's Codename or Suite, and in no AlsoAcceptFor."
        }
        Verdict::ForeignArchitecture => {
            "The suite does not keep an architecture of the .changes. An upload with sources needs `source` among the architectures of the suite; `all` needs an architecture besides `source` there."
        }
        Verdict::NotAllowed => {
            "The suite has Uploaders, and none of its lines lets this person upload this source."
        }
        Verdict::ForeignComponent => {
            "The listed files are of different components, or of one that the suite does not have. The component is what comes before the slash of a section, else `main`."
        }
        Verdict::BadListing => {
            "The listed files do not make an upload. Each .deb needs a .control of the same stem, and each .control a .deb. No .changes may be listed. If `source` is among the architectures, exactly one .dsc has to be listed. If not, only .deb and .control files may be listed."
        }
        Verdict::BadDsc => {
            "The .dsc can't be read, or it does not fit: its source or version is another, it is not named `SOURCE_VERSION.dsc` without the epoch, it lists a .dsc, .deb, .control or .changes, or a source file of the .changes is not in its list with the same size and digests."
        }
        Verdict::BadSidecar => {
            "A sidecar can't be read, or it does not fit: it is not named `PACKAGE_VERSION_ARCHITECTURE.control` by its own fields, its architecture is not in the .changes, its source is another, or two are of one package and architecture."
        }
        Verdict::NotInPool => {
            "The .dsc lists a file that is neither in the .changes nor in the pool, at its place with the same size and digests."
        }
        Verdict::OtherContents => {
            "A .deb, a .dsc or a source file has a place in the pool where other contents are."
        }
    }
}

/// What to do about a verdict; nothing after an acceptance.
#[tactic(auto, unfolding(crate::specs::Explaining::Sentences::remedy))]
pub fn remedy(verdict: Verdict) -> Option<&'static str>
    ensures { option_map (λ text. text.now) result ≡ remedy verdict }
{
    match verdict {
        Verdict::Accepted => None,
        Verdict::Unclaimed => Some("Build for a distribution that a suite takes."),
        Verdict::ForeignArchitecture => Some("Build for the suite's architectures alone."),
        Verdict::NotAllowed => Some(
            "Let somebody upload whom a line names for this source, or add a line. The person is Changed-By (Maintainer if there is none), byte for byte.",
        ),
        Verdict::ForeignComponent => Some(
            "Set the sections in debian/control, or give `upload` another `--section` for a .deb without a .changes.",
        ),
        Verdict::BadListing => Some("Make the upload by `with_sidecars`, or send it by `upload`."),
        Verdict::BadDsc => Some("Take its signature off and list it anew: `with_sidecars`."),
        Verdict::BadSidecar => Some(
            "Make the sidecars by `with_sidecars`; compare `Source` of the package with that of the .changes.",
        ),
        Verdict::NotInPool => Some("List it in the .changes: `dpkg-buildpackage -sa`."),
        Verdict::OtherContents => Some("Give the package a new version."),
    }
}
