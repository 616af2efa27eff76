//! Laws of requests, of the routes and of connections.

ghost use Rattle.std.specs.Prelude.{◌≡◌, ◌≢◌, ℕ, List, [], ◌∷◌, ◌++◌, Option, Some, true, false, codes, length, Contains, Ok, Err};
ghost use Rattle.std.specs.List.{list_all, list_any};
ghost use Rattle.book.specs.Book.{Book, HasItsFiles};
ghost use Rattle.book.specs.Keeping.{HasBodies, NoCollision};
ghost use Rattle.queue.specs.Answers.{IsFaithful, IsKept, IsRun, answer};
ghost use Rattle.queue.specs.Archives.{book_of};
ghost use Rattle.queue.specs.Histories.{History, bodies_of, followed, opened_with};
ghost use Rattle.queue.specs.Steps.{Lasts, Reads};
ghost use Rattle.desk.specs.Calls.{call_wanted};
ghost use Rattle.desk.specs.Connections.{AreServed, IsLeftAmong, Visit, calls_in, outcomes_in};
ghost use Rattle.desk.specs.Exchange.{IsLeftBy};
ghost use Rattle.desk.specs.Paths.{IsPart, IsPlace, IsRest, Place, is_byte, print_path, route_of, wanted_of, to_incoming, to_copy, to_dists, to_pool, to_promote, to_remove, to_run, to_queue, to_clean, to_verdicts};
ghost use Rattle.desk.specs.Questions.{Inquiry, IsInquiry, print_question, question_of_path};
ghost use Rattle.desk.specs.Reply.{Message, head_text};
ghost use Rattle.desk.specs.Request.{Asked, IsRequest, Received, asks};
ghost use Rattle.desk.specs.Want.{Want, asked_at, at_question, beside, is_look_up, is_named, wanted_by};
ghost use Rattle.desk.specs.declared.head.Refusal.TheVariants.{NotFound};
ghost use Rattle.desk.specs.declared.routes.Rules.{Rules};
ghost use Rattle.desk.specs.declared.routes.Route.TheVariants.{Clean, Copy, Deliver, Dists, Pool, Promote, Remove, Run, Verdicts, Waiting};

use book::Keeper;

/// The bytes of a connection ask for one thing, and one part of them is used for it. Nothing is done: the law is the
/// contract.
pub fn one_request()
    ensures { (rules : Rules) (bytes used more : List ℕ) (asked other : Asked) → IsRequest rules bytes used asked → IsRequest rules bytes more other → (more ≡ used) × (other ≡ asked) }
{}

/// A head that has no field Origin asks for the same, whether or not the desk refuses what pages ask for. Nothing is done: the law is the
/// contract.
pub fn without_origin_as_before()
    ensures { (key : Option (List ℕ)) (method target : List ℕ) (fields : List (List ℕ × List ℕ)) → list_any (is_named (codes "origin")) fields ≡ false
        → wanted_by true key method target fields ≡ wanted_by false key method target fields }
{}

/// What a head with a field Origin asks for changes nothing, if the desk refuses what pages ask for. Nothing is done: the law is the
/// contract.
pub fn with_origin_nothing_changes()
    ensures { (key : Option (List ℕ)) (method target : List ℕ) (fields : List (List ℕ × List ℕ)) (want : Want) → list_any (is_named (codes "origin")) fields ≡ true
        → wanted_by true key method target fields ≡ Ok want → is_look_up want ≡ true }
{}

/// What a path asks for that changes something: with a name of one byte or more without a slash, `/incoming/NAME` is a delivery of
/// that name, its escapes undone, and so on. Nothing is done: the law is the contract.
pub fn paths_that_change()
    ensures incoming { (key : Option (List ℕ)) (name : List ℕ) → IsPart name → asked_at key (codes "/incoming/" ++ name) ≡ beside Deliver (wanted_of (to_incoming name)) }
    ensures run { (key : Option (List ℕ)) → asked_at key (codes "/queue/run") ≡ beside Run (wanted_of to_run) }
    ensures copy { (key : Option (List ℕ)) (from to source : List ℕ) → IsPart from → IsPart to → IsPart source →
        asked_at key (codes "/copy/" ++ (from ++ 47 ∷ (to ++ 47 ∷ source))) ≡ beside Copy (wanted_of (to_copy from to source)) }
    ensures promote { (key : Option (List ℕ)) (from to : List ℕ) → IsPart from → IsPart to →
        asked_at key (codes "/promote/" ++ (from ++ 47 ∷ to)) ≡ beside Promote (wanted_of (to_promote from to)) }
    ensures remove { (key : Option (List ℕ)) (suite name : List ℕ) → IsPart suite → IsPart name →
        asked_at key (codes "/remove/" ++ (suite ++ 47 ∷ name)) ≡ beside Remove (wanted_of (to_remove suite name)) }
    ensures clean { (key : Option (List ℕ)) → asked_at key (codes "/queue/clean") ≡ beside Clean (wanted_of to_clean) }
{}

/// What a path asks for that changes nothing: `/queue` is the uploads that wait, `/dists/REST` the index text at a path of one byte
/// or more, its escapes undone, and so on. Nothing is done: the law is the contract.
pub fn paths_that_ask()
    ensures waiting { (key : Option (List ℕ)) → asked_at key (codes "/queue") ≡ beside Waiting (wanted_of to_queue) }
    ensures verdicts { (key : Option (List ℕ)) → asked_at key (codes "/verdicts") ≡ beside Verdicts (wanted_of to_verdicts) }
    ensures dists { (key : Option (List ℕ)) (rest : List ℕ) → IsRest rest → asked_at key (codes "/dists/" ++ rest) ≡ beside Dists (wanted_of (to_dists rest)) }
    ensures pool { (key : Option (List ℕ)) (rest : List ℕ) → IsRest rest → asked_at key (codes "/pool/" ++ rest) ≡ beside Pool (wanted_of (to_pool rest)) }
{}

/// Which question each path asks that has no route: `/why` what uploads wait for, `/why/NAME` why the uploads of that name have their
/// verdicts, its escapes undone, `/list/SUITE` what that suite shows, `/suites/CODENAME/index.html` its page, and so on. Nothing is done: the law is the contract.
pub fn paths_of_questions()
    ensures { (key : Option (List ℕ)) (inquiry : Inquiry) → IsInquiry inquiry → asked_at key (print_question inquiry) ≡ at_question (question_of_path key inquiry) }
{}

/// Every other path has no route, and asks no question. Nothing is done: the law is the contract.
pub fn other_paths()
    ensures { (key : Option (List ℕ)) (path : List ℕ) → list_all is_byte path ≡ true → ((place : Place) → IsPlace place → path ≢ print_path place)
        → ((inquiry : Inquiry) → IsInquiry inquiry → path ≢ print_question inquiry) → asked_at key path ≡ Err NotFound }
{}

/// No text that comes from outside is in the head of a reply: two replies of one status, one content, one length and one allowed method have
/// one head. Nothing is done: the law is the contract.
pub fn texts_leave_the_head()
    ensures { (one other : Message) → one.status ≡ other.status → one.content ≡ other.content → length one.body ≡ length other.body
        → one.allow ≡ other.allow → head_text one ≡ head_text other }
{}

/// Connections that are answered in turns are answered as one list: what `attend` says of a first list and of another after it, it
/// says of the whole. Reads of the archive in between change nothing. So a server that hands over one connection at a time answers
/// all of them as `attend` answers the list of them. Nothing is done: the law is the contract.
pub fn turns_are_one_list<K: Keeper>()
    ensures turns { (before mid after : K) (first others : List Visit) → Lasts K.Keeper mid after
        → AreServed K.Keeper before mid first → AreServed K.Keeper mid after others → AreServed K.Keeper before after (first ++ others) }
    ensures between { (before after : K) → Reads K.Keeper before after → AreServed K.Keeper before after [] }
{}

/// The first connection finds the book that the keeper has; a keeper that was opened has what the database kept. If that book has
/// its files, and no two bodies of it and of what comes have one print, the answers are those of the plain archive after that book.
/// Nothing is done: the law is the contract.
pub fn the_first_finds_the_book<K: Keeper>()
    ensures { (before after : K) (visits : List Visit) (served : AreServed K.Keeper before after visits) (bodies : List (List ℕ))
        → HasItsFiles (K.book before) → NoCollision bodies → HasBodies bodies (K.book before)
        → ((body : List ℕ) → Contains (bodies_of (calls_in served.courses)) body → Contains bodies body) → K.is_clean after
        → IsRun K.may_fail (opened_with (K.book before)) (calls_in served.courses) (outcomes_in served.courses) (K.is_open after) (K.book after) }
{}

/// A stop while connections of an open keeper are served, between two of them or after them, leaves the book that the history leaves
/// after the calls of none, some or all of them, or also after the call of the next. It does leave one. Nothing is done: the law is
/// the contract.
pub fn a_stop_leaves_the_first_connections<K: Keeper>()
    ensures { (before after : K) (visits : List Visit) (served : AreServed K.Keeper before after visits) (h : History) → K.is_clean before → K.is_open before
        → IsKept (K.is_open before) (K.book before) h → IsFaithful h (calls_in served.courses) → K.is_clean after → (left : Option Book) → K.may_leave after left
        → IsLeftAmong h visits served.courses left }
{}

/// If the bytes of a reader are known, a body by which a crash left a book is the one that these bytes ask for. Nothing is done: the
/// law is the contract.
pub fn what_is_left_was_sent()
    ensures { (rules : Rules) (h : History) (bytes : List ℕ) (gives : Option (List ℕ)) (want other : Want) (body : List ℕ) (moment : ℕ) (left : Option Book)
        → Received rules (Some bytes) gives (asks want body) → IsLeftBy rules h (Some bytes) gives other moment left → IsFaithful h (call_wanted want body moment ∷ [])
        → left ≡ Some (book_of (followed h (call_wanted want body moment) (answer h (call_wanted want body moment)))) }
{}
