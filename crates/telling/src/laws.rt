//! Laws of what is answered. For the prover alone: each law is its contract.

ghost use Rattle.std.specs.Prelude.{◌≡◌, ◌<◌, ℕ, filter, length, map};
ghost use Rattle.std.specs.FinMap.{entries};
ghost use Rattle.std.specs.List.{AllByRecursion, flat_map, range_with_len};
ghost use Rattle.rules.specs.Values.{ConfigValue};
ghost use Rattle.suites.specs.Shelves.{ShelvesValue};
ghost use Rattle.suites.specs.Codenames.{codename_at};
ghost use Rattle.book.specs.Book.{Book, at_moment, due, waiting_list};
ghost use Rattle.book.specs.Keeping.{sign_of};
ghost use Rattle.serde_json.specs.Written.{compact_text};
ghost use Rattle.output.specs.Json.{json_in, shown_data};
ghost use Rattle.output.specs.Listing.{before, line_in, line_on, shown_in};
ghost use Rattle.telling.specs.Whole.{is_whole, sign_of_waiting};

/// If each shelf is of a suite of the configuration, the list of all suites is the lists of the suites one after the other, each line with
/// the suite's codename in front. The objects are those of the suites one after the other, each with the suite's codename as a member.
/// Nothing is done: the law is the contract.
pub fn suites_are_listed_one_after_the_other()
    ensures lines { (config : ConfigValue) (shelves : ShelvesValue) → AllByRecursion (λ entry. entry.0.suite < length config.suites) (entries shelves)
        → map (line_in config) (entries shelves)
        ≡ flat_map (λ suite. map (before (codename_at config.suites suite)) (map line_on (shown_in suite shelves))) (range_with_len 0 (length config.suites)) }
    ensures objects { (config : ConfigValue) (shelves : ShelvesValue) → AllByRecursion (λ entry. entry.0.suite < length config.suites) (entries shelves)
        → map (json_in config) (entries shelves)
        ≡ flat_map (λ suite. map (λ entry. compact_text (shown_data (codename_at config.suites suite) entry.1)) (shown_in suite shelves)) (range_with_len 0 (length config.suites)) }
{}

/// The uploads of which nothing lacks, which `why` calls whole, are those that a run at this moment judges, in its order.
pub fn what_is_whole_is_due()
    ensures { (moment : ℕ) (book : Book) → map sign_of_waiting (filter is_whole (waiting_list moment book)) ≡ map sign_of (due (at_moment moment book)) }
{}
