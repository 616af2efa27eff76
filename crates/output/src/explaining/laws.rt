//! What is named of an upload has lines. For the prover alone: each law is its contract.

ghost use Rattle.std.specs.Prelude.{◌≡◌, ◌≢◌, false, not, is_some};
ghost use Rattle.para.specs.Bytes.{is_nil};
ghost use Rattle.rules.specs.Values.{ConfigValue};
ghost use Rattle.rules.specs.declared.verdict.Verdict.{Verdict};
ghost use Rattle.rules.specs.declared.verdict.Verdict.TheVariants as verdict;
ghost use Rattle.suites.specs.Shelves.{ShelvesValue};
ghost use Rattle.suites.specs.Upload.{UploadValue};
ghost use Rattle.suites.specs.Verdict.{verdict_on};
ghost use Rattle.reasons.specs.Reasons.{named_by};
ghost use Rattle.output.specs.Explaining.Judged.{about, names};

/// There are lines on what a verdict is about if and only if something is named of it. By the laws of reasons, something is named if and
/// only if the rule of the verdict applies.
pub fn lines_are_on_what_is_named()
    ensures { (config : ConfigValue) (shelves : ShelvesValue) (u : UploadValue) (v : Verdict)
        → is_nil (about config shelves u v) ≡ not (is_some (named_by config shelves u v)) }
{}

/// Of an upload that would be refused today there are lines on what the refusal is about, whatever verdict it was given.
pub fn a_refusal_is_explained()
    ensures { (config : ConfigValue) (shelves : ShelvesValue) (u : UploadValue) (given : Verdict)
        → verdict_on config shelves u ≢ verdict.Accepted → is_nil (names config shelves u given (verdict_on config shelves u)) ≡ false }
{}
