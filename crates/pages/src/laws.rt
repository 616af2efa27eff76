//! What is markup in a page.

ghost use Rattle.std.specs.Prelude.{◌≡◌, ℕ, List, length, map, Option, option_map};
ghost use Rattle.rules.specs.Values.{ConfigValue};
ghost use Rattle.suites.specs.Shelves.{ShelvesValue};
ghost use Rattle.book.specs.declared.change.Judgement.{Judgement};
ghost use Rattle.book.specs.declared.change.Waiting.{Waiting};
ghost use Rattle.pages.specs.IndexPage.{KeyValue, index_page};
ghost use Rattle.pages.specs.Markup.{markup, item_form, has_description_at, suite_form, lack_count};
ghost use Rattle.pages.specs.SuitePage.{shown, suite_page};
ghost use Rattle.pages.specs.UploadsPage.{uploads_page};
ghost use Rattle.pages.specs.declared.site.Site.{Site};

/// The markup of a page does not depend on any text that comes from outside: two pages of one kind of site have the same markup if they have
/// equally many rows of the same form. An item has a link for each file and one line more if its paragraph says what it is, a suite has more
/// lines if it has another name, a description or sources, the key of signed Releases has a link if its file is here, an upload has a name
/// for each file that it lacks, and the sentence of a verdict is a constant. Nothing is done: the law is the contract.
pub fn texts_leave_the_markup()
    ensures suite { (config other : ConfigValue) (shelves others : ShelvesValue) (suite place : ℕ)
        → has_description_at config suite ≡ has_description_at other place
        → map item_form (shown shelves suite) ≡ map item_form (shown others place)
        → markup (suite_page config shelves suite) ≡ markup (suite_page other others place) }
    ensures index { (site : Site) (config other : ConfigValue) (shelves others : ShelvesValue) (dates moments : List ℕ) (key another : Option KeyValue)
        → option_map (λ k. k.is_here) key ≡ option_map (λ k. k.is_here) another
        → map suite_form config.suites ≡ map suite_form other.suites
        → markup (index_page site config shelves dates key) ≡ markup (index_page site other others moments another) }
    ensures uploads { (site : Site) (config other : ConfigValue) (waiting others : List Waiting) (judged changed : List Judgement)
        → map lack_count waiting ≡ map lack_count others → map (λ j. j.verdict) judged ≡ map (λ j. j.verdict) changed
        → markup (uploads_page site config waiting judged) ≡ markup (uploads_page site other others changed) }
{}
