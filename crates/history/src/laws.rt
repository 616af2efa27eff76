//! Laws of histories.

ghost use Rattle.std.specs.Prelude.{◌≡◌, ◌⊎◌, ◌<◌, ◌≤◌, ℕ, List, [], ◌∷◌, ◌++◌, Option, Some, None, Result, Ok, length, true};
ghost use Rattle.book.specs.Book.{Book, HasItsFiles, latest};
ghost use Rattle.book.specs.Configured.{configured, keeps_shown};
ghost use Rattle.history.specs.Configuring.{IsLeftConfigured, LeavesConfigured, reopened};
ghost use Rattle.rules.specs.Configuration.{ClaimApart};
ghost use Rattle.history.specs.Archives.{archive, book_of, sources_in, Stands};
ghost use Rattle.history.specs.Copies.{AreSuites};
ghost use Rattle.history.specs.Histories.{Call, Cleaning, Copies, Count, Delivery, History, Promoting, Reply, Turn, arrived, counting, followed, opened_with};
ghost use Rattle.history.specs.Promotions.{answered_copies, with_copies};
ghost use Rattle.history.specs.declared.fault.Fault.{Fault};
ghost use Rattle.rules.specs.Values.{ConfigValue};
ghost use Rattle.std.specs.FinMap.{values};
ghost use Rattle.suites.specs.Pool.{AreAgreed, files_of};
ghost use Rattle.book.specs.Book.{fresh_book};
ghost use Rattle.history.specs.Answers.{IsFaithful, IsKept, IsOpening, IsRun, answer};
ghost use Rattle.history.specs.Receiving.{LeavesReceived};
ghost use Rattle.history.specs.Steps.{DoesAll, IsLeftAlong, LeavesCall, LeavesDelivery, LeavesRun, LeavesStep};

use book::Keeper;

/// A history may open with the book of an archive in which nothing is yet, as the plain keeper makes it. That book is the one of its own
/// plain archive, and stands for the history without calls.
pub fn nothing_is_an_opening()
    ensures { (config : ConfigValue) (moment : ℕ) (bodies : List (List ℕ)) → IsOpening bodies (fresh_book config moment) }
{}

/// A book whose files are those of its pool, each a body of the print that is shown, stands for the history that opens with
/// it.
pub fn a_book_opens_its_history()
    ensures { (book : Book) → HasItsFiles book → Stands book (opened_with book) }
{}

/// If the promise holds for calls after a history, it holds for them after the book that the history leaves, as a keeper that was opened
/// again has it. What that book shows has to agree on the contents at each path.
pub fn a_history_goes_on_from_its_book()
    ensures { (h : History) (calls : List Call) → AreAgreed (files_of (values (book_of h).shown)) → IsFaithful h calls
        → IsFaithful (opened_with (book_of h)) calls }
{}

/// A book whose files are those of its pool has its files also under another configuration that keeps all that is shown, and stands for
/// the history that opens with it. So a history goes on under another configuration: if the promise holds for calls after the history,
/// it holds for them after the book that it leaves, configured anew. No two suites of the configuration before may claim one
/// distribution, which holds of each configuration that is read.
pub fn a_configured_book_opens_its_history()
    ensures files { (config : ConfigValue) (moment : ℕ) (book : Book) → ClaimApart book.config.suites → keeps_shown config book ≡ true → HasItsFiles book
        → HasItsFiles (configured config moment book) }
    ensures goes_on { (config : ConfigValue) (moment : ℕ) (h : History) (calls : List Call) → ClaimApart (book_of h).config.suites → keeps_shown config (book_of h) ≡ true
        → AreAgreed (files_of (values (book_of h).shown)) → IsFaithful h calls → IsFaithful (reopened config moment h) calls }
{}

/// If the configuration has no number of days, all that has arrived counts at each moment, and a cleaning takes nothing and leaves the
/// book as it is. The promise is then that of an archive which keeps arrivals for good.
pub fn for_good()
    ensures counts { (opening : Book) (steps : List Turn) (moment : ℕ) → opening.config.keep_days ≡ None
        → counting opening steps moment ≡ arrived opening steps }
    ensures nothing { (h : History) (moment : ℕ) → h.opening.config.keep_days ≡ None → moment ≤ latest → answer h (Cleaning moment) ≡ Ok (Count 0) }
    ensures same { (h : History) (moment : ℕ) (outcome : Result Reply Fault) → h.opening.config.keep_days ≡ None
        → book_of (followed h (Cleaning moment) outcome) ≡ book_of h }
{}

/// A promotion that is not refused leaves the book that a copy of each of its source packages in turn leaves, each with these suites and
/// at this moment. It answers what those copies answer: how many items are new, and `None` for a copy that is refused.
pub fn a_promotion_is_its_copies()
    ensures book { (h : History) (from to : List ℕ) (sources : Option (List (List ℕ))) (moment f t : ℕ) → moment ≤ latest → AreSuites h.opening.config from to f t
        → book_of (followed h (Promoting from to sources moment) (answer h (Promoting from to sources moment)))
        ≡ book_of (with_copies h from to moment (sources_in (archive h) f sources)) }
    ensures answers { (h : History) (from to : List ℕ) (sources : Option (List (List ℕ))) (moment f t : ℕ) → moment ≤ latest → AreSuites h.opening.config from to f t
        → answer h (Promoting from to sources moment) ≡ Ok (Copies (answered_copies h from to moment (sources_in (archive h) f sources))) }
{}

/// What is said of a crash in a call, in a delivery, which is stored piece by piece, and in a delivery whose body a reader gives, is
/// also said of a call of which a stop may leave nothing done. The body is then the first bytes that the reader had to give, as many as
/// the announced length.
pub fn a_crash_is_of_a_call<K: Keeper>()
    ensures step { (before after : K) (call : Call) → LeavesStep K.Keeper before call after → LeavesCall K.Keeper before call after }
    ensures delivery { (before after : K) (name body : List ℕ) (moment : ℕ) → LeavesDelivery K.Keeper before name body moment after
        → LeavesCall K.Keeper before (Delivery name body moment) after }
    ensures received { (before after : K) (name body rest : List ℕ) (gives : Option (List ℕ)) (moment : ℕ)
        → LeavesReceived K.Keeper (Some (body ++ rest)) gives name (length body) moment before after → LeavesCall K.Keeper before (Delivery name body moment) after }
    // If the reader had fewer bytes, nothing is delivered. So this is said of each call, also of one that changes nothing.
    ensures short { (before after : K) (name given : List ℕ) (gives : Option (List ℕ)) (n moment : ℕ) (call : Call) → length given < n
        → LeavesReceived K.Keeper (Some given) gives name n moment before after → LeavesCall K.Keeper before call after }
{}

/// A stop during or after a call of an open keeper leaves the book that the history leaves, or the one that it leaves with the whole
/// call. It does leave one.
pub fn a_stop_leaves_a_book<K: Keeper>()
    ensures { (before after : K) (h : History) (call : Call) → K.is_clean before → K.is_open before → IsKept (K.is_open before) (K.book before) h → IsFaithful h (call ∷ [])
        → K.is_clean after → LeavesCall K.Keeper before call after → (left : Option Book) → K.may_leave after left
        → (left ≡ Some (book_of h)) ⊎ (left ≡ Some (book_of (followed h call (answer h call)))) }
{}

/// A stop while an open keeper takes another configuration, or afterwards, leaves the book that the history leaves, or the configured
/// one. The latter happens only if the configuration keeps all that is shown. It does leave one.
pub fn a_stop_in_a_configuration_leaves_a_book<K: Keeper>()
    ensures { (before after : K) (h : History) (config : ConfigValue) (moment : ℕ) → K.is_clean before → K.is_open before → IsKept (K.is_open before) (K.book before) h
        → K.is_clean after → LeavesConfigured K.Keeper before config moment after → (left : Option Book) → K.may_leave after left
        → IsLeftConfigured config moment (book_of h) left }
{}

/// Lists of calls, one after the other, are one list. If some calls are a run after a history, and others are a run after each history
/// that is kept between them, all of them are a run after the first history. What is said of two lists is said of both as one.
pub fn lists_are_one_list<K: Keeper>()
    ensures run { (h : History) (calls more : List Call) (outcomes others : List (Result Reply Fault)) (between after : K)
        → IsRun K.may_fail h calls outcomes (K.is_open between) (K.book between)
        → ((later : History) → IsKept (K.is_open between) (K.book between) later → IsFaithful later more → IsRun K.may_fail later more others (K.is_open after) (K.book after))
        → IsFaithful h (calls ++ more) → IsRun K.may_fail h (calls ++ more) (outcomes ++ others) (K.is_open after) (K.book after) }
    ensures once { (before between after : K) (calls more : List Call) (outcomes others : List (Result Reply Fault)) → (K.is_clean after → K.is_clean between)
        → DoesAll K.Keeper before calls outcomes between → DoesAll K.Keeper between more others after
        → DoesAll K.Keeper before (calls ++ more) (outcomes ++ others) after }
{}

/// A crash in or after two lists of calls, one after the other, is a crash in the list that they are together: what is said of a crash
/// in each of them is said of a crash in both as one.
pub fn a_crash_in_lists_is_in_one_list<K: Keeper>()
    ensures crash { (before between after : K) (calls more : List Call) (outcomes others : List (Result Reply Fault)) → (K.is_clean after → K.is_clean between)
        → DoesAll K.Keeper before calls outcomes between → LeavesRun K.Keeper before calls outcomes between → LeavesRun K.Keeper between more others after
        → LeavesRun K.Keeper before (calls ++ more) (outcomes ++ others) after }
    // A call is a list of its own.
    ensures one { (before after : K) (call : Call) (outcome : Result Reply Fault) → LeavesCall K.Keeper before call after
        → LeavesRun K.Keeper before (call ∷ []) (outcome ∷ []) after }
{}

/// A stop during or after a list of calls of an open keeper leaves the book that the history leaves after none, some or all of these
/// calls, or also after the whole of the next call. It does leave one.
pub fn a_stop_leaves_a_part_of_a_list<K: Keeper>()
    ensures { (before after : K) (h : History) (calls : List Call) (outcomes : List (Result Reply Fault)) → K.is_clean before → K.is_open before
        → IsKept (K.is_open before) (K.book before) h → IsFaithful h calls → K.is_clean after → LeavesRun K.Keeper before calls outcomes after
        → (left : Option Book) → K.may_leave after left → IsLeftAlong h calls outcomes left }
{}
