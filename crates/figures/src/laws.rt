//! Laws of the texts. For the prover alone: each law is its contract.

ghost use Rattle.std.specs.Prelude.{◌≡◌, ℕ, true, List, Contains, Ok, codes, map, option_to_list};
ghost use Rattle.rules.specs.Configuration.{config_in};
ghost use Rattle.rules.specs.Values.{ConfigValue};
ghost use Rattle.rules.specs.declared.suite.Suite.{Suite};
ghost use Rattle.indices.specs.Calendar.{date_text};
ghost use Rattle.indices.specs.Release.{valid_until};
ghost use Rattle.indices.specs.Stanzas.{line_field};
ghost use Rattle.figures.specs.Example.{example, example_metrics, example_status};
ghost use Rattle.figures.specs.Numbers.{date_at, end_at};
ghost use Rattle.figures.specs.Printing.{metrics_text, stands_for_itself, status_text};

/// No codename of a configuration needs an escape as the value of a label.
pub fn codenames_need_no_escape()
    ensures { (config : ConfigValue) → config_in config.text ≡ Ok config → (s : Suite) → Contains config.suites s → stands_for_itself s.codename ≡ true }
{}

/// A suite's end is the one that its Release says, if that says one.
pub fn an_end_is_that_of_the_release()
    ensures { (dates : List ℕ) (position : ℕ) (s : Suite) → valid_until s (date_at dates position)
        ≡ map (λ end. line_field (codes "Valid-Until") (date_text end)) (option_to_list (end_at dates position s)) }
{}

/// The texts of an example, byte for byte.
pub fn an_example_is_written_so()
    ensures metrics { metrics_text example ≡ example_metrics }
    ensures status { status_text example ≡ example_status }
{}
