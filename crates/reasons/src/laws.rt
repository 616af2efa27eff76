//! Something is named if and only if the rule of a verdict applies. For the prover alone: each law is its contract.

ghost use Rattle.std.specs.Prelude.{◌≡◌, ◌≢◌, ◌||◌, ℕ, true, false, List, not, codes, is_some};
ghost use Rattle.std.specs.List.{list_any};
ghost use Rattle.std.specs.Option.{option_map_or};
ghost use Rattle.records.specs.Records.{dsc_in};
ghost use Rattle.records.specs.Values.{ChangesValue, DscValue, SidecarValue};
ghost use Rattle.rules.specs.Judgement.{component, has_foreign_architecture, has_foreign_component, suite_of};
ghost use Rattle.rules.specs.Sizes.{largest};
ghost use Rattle.rules.specs.Suites.{keeps_component};
ghost use Rattle.rules.specs.Values.{ConfigValue};
ghost use Rattle.rules.specs.declared.suite.Suite.{Suite};
ghost use Rattle.rules.specs.declared.verdict.Verdict.TheVariants as verdict;
ghost use Rattle.suites.specs.Shelves.{ShelvesValue, pool};
ghost use Rattle.suites.specs.Upload.{UploadValue, dsc_parts};
ghost use Rattle.suites.specs.Verdict.{by_print, differs_from_dsc, differs_from_sidecar, has_bad_dsc, has_bad_listing, has_bad_sidecar, has_other_contents, have_twins, lacks_source_file, match_ok, verdict_on};
ghost use Rattle.reasons.specs.Differences.{dsc_difference, sidecar_difference};
ghost use Rattle.reasons.specs.Named.{foreign_architecture, lacks_dsc, listed_changes, lone_file, missing_file, other_component, source_file, surplus_dsc, taken_entry, twins};
ghost use Rattle.reasons.specs.Reasons.{named_by};

/// A listing is bad if and only if some file of it is named, or it lacks its .dsc (verdict 5).
pub fn a_listing_is_named()
    ensures { (c : ChangesValue) → has_bad_listing c ≡ (is_some (listed_changes c) || (is_some (surplus_dsc c) || lacks_dsc c)
        || is_some (lone_file (codes ".deb") (codes ".control") c.entries) || is_some (lone_file (codes ".control") (codes ".deb") c.entries)
        || is_some (source_file c)) }
{}

/// A .dsc or a sidecar differs from its .changes if and only if a difference is named (verdicts 6 and 7).
pub fn a_difference_is_named()
    ensures dsc { (c : ChangesValue) (name : List ℕ) (d : DscValue) → differs_from_dsc c name d ≡ is_some (dsc_difference c name d) }
    ensures sidecar { (c : ChangesValue) (name : List ℕ) (s : SidecarValue) → differs_from_sidecar c name s ≡ is_some (sidecar_difference c name s) }
{}

/// Two sidecars are named if and only if two have the same package and architecture (verdict 7).
pub fn twins_are_named()
    ensures { (sidecars : List SidecarValue) → have_twins sidecars ≡ is_some (twins sidecars) }
{}

/// Verdicts 2, 4, 8 and 9: what is named is there if and only if the rule applies.
pub fn what_is_named_is_there()
    ensures architecture { (c : ChangesValue) (s : Suite) → has_foreign_architecture c s ≡ is_some (foreign_architecture c s) }
    ensures component { (c : ChangesValue) (s : Suite) → has_foreign_component c s ≡ (is_some (other_component c) || not (keeps_component s (component c))) }
    ensures missing { (shelves : ShelvesValue) (u : UploadValue) → lacks_source_file by_print (pool shelves) u
        ≡ list_any (λ part. match_ok (dsc_in part.1) (λ d. is_some (missing_file shelves u.changes d))) (dsc_parts u) }
    ensures contents { (shelves : ShelvesValue) (u : UploadValue) → has_other_contents by_print (pool shelves) u ≡ is_some (taken_entry shelves u.changes) }
{}

/// A verdict of 2, 4 or 5, which a .changes has by itself, is about something if and only if its rule applies.
pub fn verdicts_on_a_changes_name()
    ensures architecture { (config : ConfigValue) (shelves : ShelvesValue) (u : UploadValue) →
        option_map_or (has_foreign_architecture u.changes) (suite_of config u.changes) false
        ≡ is_some (named_by config shelves u verdict.ForeignArchitecture) }
    ensures component { (config : ConfigValue) (shelves : ShelvesValue) (u : UploadValue) →
        option_map_or (has_foreign_component u.changes) (suite_of config u.changes) false
        ≡ is_some (named_by config shelves u verdict.ForeignComponent) }
    ensures listing { (config : ConfigValue) (shelves : ShelvesValue) (u : UploadValue) →
        has_bad_listing u.changes ≡ is_some (named_by config shelves u verdict.BadListing) }
{}

/// A verdict from 6 to 9, which the listed files have, is about something if and only if its rule applies.
pub fn verdicts_on_files_name()
    ensures dsc { (config : ConfigValue) (shelves : ShelvesValue) (u : UploadValue) →
        has_bad_dsc (largest config) u ≡ is_some (named_by config shelves u verdict.BadDsc) }
    ensures sidecar { (config : ConfigValue) (shelves : ShelvesValue) (u : UploadValue) →
        has_bad_sidecar u ≡ is_some (named_by config shelves u verdict.BadSidecar) }
    ensures missing { (config : ConfigValue) (shelves : ShelvesValue) (u : UploadValue) →
        lacks_source_file by_print (pool shelves) u ≡ is_some (named_by config shelves u verdict.NotInPool) }
    ensures contents { (config : ConfigValue) (shelves : ShelvesValue) (u : UploadValue) →
        has_other_contents by_print (pool shelves) u ≡ is_some (named_by config shelves u verdict.OtherContents) }
{}

/// A verdict that refuses an upload is always about something.
pub fn a_refusal_names()
    ensures { (config : ConfigValue) (shelves : ShelvesValue) (u : UploadValue) → verdict_on config shelves u ≢ verdict.Accepted
        → is_some (named_by config shelves u (verdict_on config shelves u)) ≡ true }
{}
