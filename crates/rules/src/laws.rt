//! Laws of configurations and of verdicts.

ghost use Rattle.std.specs.Prelude.{◌≡◌, ◌≢◌, ◌≤◌, ◌↔◌, ℕ, true, List, [], length, map, Ok, Err, Some};
ghost use Rattle.para.specs.Fault.{many_fault};
ghost use Rattle.sums.specs.Lines.{greatest_size, most_size};
ghost use Rattle.para.specs.Fields.{Fields, paragraphs_in};
ghost use Rattle.para.specs.Grammar.{Spells};
ghost use Rattle.para.specs.declared.fault.ParaFault.{ParaFault};
ghost use Rattle.rules.specs.Configuration.{config_in, config_fault, applies, config_limit, strict_config_in, strict_fault, IsConfig, ClaimApart, ClaimOneName};
ghost use Rattle.rules.specs.Paragraphs.{suite_of};
ghost use Rattle.rules.specs.Sizes.{largest};
ghost use Rattle.rules.specs.Values.{ConfigValue};
ghost use Rattle.rules.specs.Verdicts.{number_of, verdict_numbered};
ghost use Rattle.rules.specs.declared.fault.ConfigFault.{ConfigFault};
ghost use Rattle.rules.specs.declared.verdict.Verdict.{Verdict};

/// A text is read as a configuration if and only if it is that configuration. So a refusal says that it is not a
/// configuration. Nothing is done: the law is the contract.
pub fn configurations_are_read()
    ensures read { (text : List ℕ) (config : ConfigValue) → (config_in text ≡ Ok config) ↔ IsConfig text config }
    ensures refused { (text : List ℕ) (e : ConfigFault) (config : ConfigValue) → config_in text ≡ Err e → ¬ IsConfig text config }
{}

/// A text that does not spell paragraphs is refused with the fault of its paragraphs. Any other text that is not a
/// configuration is refused with the fault of lowest number that applies to the paragraphs that it spells. Nothing is
/// done: the law is the contract.
pub fn faults_are_lowest()
    ensures paragraphs { (text : List ℕ) (fault : ParaFault) → many_fault text config_limit ≡ Some fault → config_in text ≡ Err (ConfigFault.Paragraph fault) }
    ensures suites { (text : List ℕ) (ps : List Fields) (fault : ConfigFault) → (length text ≤ config_limit) × (ps ≢ []) × Spells text ps → config_fault ps ≡ Some fault → config_in text ≡ Err fault }
{}

/// A text is read as a new configuration if and only if it is that configuration and no fault of a new one applies. Nothing
/// is done: the law is the contract.
pub fn new_configurations_are_read()
    ensures kept { (text : List ℕ) (config : ConfigValue) → strict_config_in text ≡ Ok config → config_in text ≡ Ok config }
    ensures refused { (text : List ℕ) (ps : List Fields) (fault : ConfigFault) → paragraphs_in text config_limit ≡ Ok ps → strict_fault ps ≡ Some fault → strict_config_in text ≡ Err fault }
{}

/// Whatever a configuration says, a file may have 4 MiB, and none may have more than 1 GiB. Nothing is done: the law is the
/// contract.
pub fn largest_files_are_bounded()
    ensures least { (config : ConfigValue) → most_size ≤ largest config }
    ensures greatest { (config : ConfigValue) → largest config ≤ greatest_size }
{}

/// No two suites of a configuration claim the same distribution name. Nothing is done: the law is the contract.
pub fn suites_claim_apart()
    ensures { (text : List ℕ) (config : ConfigValue) → config_in text ≡ Ok config → ClaimApart config.suites }
{}

/// Two suites claim the same distribution name if and only if the fault of a name that is claimed twice (F4) applies to
/// the paragraphs. So a text that is refused with it spells such paragraphs. Nothing is done: the law is the contract.
pub fn a_name_claimed_twice_is_told()
    ensures paragraphs { (ps : List Fields) → (applies ps ConfigFault.ClaimedTwice ≡ true) ↔ ClaimOneName (map suite_of ps) }
    ensures text { (text : List ℕ) → config_in text ≡ Err ConfigFault.ClaimedTwice → (ps : List Fields) × (paragraphs_in text config_limit ≡ Ok ps) × ClaimOneName (map suite_of ps) }
{}

/// A text is at most one configuration. Nothing is done: the law is the contract.
pub fn one_configuration()
    ensures { (text : List ℕ) (c d : ConfigValue) → IsConfig text c → IsConfig text d → c ≡ d }
{}

/// A number stands for a verdict if and only if it is the number of that verdict. So no two verdicts have the same
/// number. Nothing is done: the law is the contract.
pub fn verdicts_have_numbers()
    ensures { (n : ℕ) (v : Verdict) → (verdict_numbered n ≡ Some v) ↔ (number_of v ≡ n) }
{}
