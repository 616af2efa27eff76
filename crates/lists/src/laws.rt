//! Laws of lists of commands and of their lines.

ghost use Rattle.std.specs.Prelude.{◌≡◌, ◌↔◌, ℕ, false, List, Some, None};
ghost use Rattle.lists.specs.Grammar.{IsBadAt, IsCommand, IsGoodLine, IsAskable, SpellsList, print_request};
ghost use Rattle.lists.specs.Lists.{RequestBytes, asked, asked_by_list, command_of, is_bad, list_fault};
ghost use Rattle.lists.specs.declared.list.BatchFault.TheVariants.{Line};

/// A text asks for a request if and only if it is the line of that request: the words of a command, with one space between each
/// two. So it asks for nothing else, and no other text asks for this. A line of a list is such a text in UTF-8, or is passed
/// over, or is bad. Nothing is done: the law is the contract.
pub fn lines_of_commands()
    ensures text { (text : List ℕ) (r : RequestBytes) → (command_of text ≡ Some r) ↔ (IsAskable r × (text ≡ print_request r)) }
    ensures line { (line : List ℕ) (r : RequestBytes) → (asked line ≡ Some r) ↔ IsCommand line r }
    ensures good { (line : List ℕ) → (is_bad line ≡ false) ↔ IsGoodLine line }
{}

/// A list that has no fault asks for what its lines ask for, and each of them is passed over or is a command. A list that has a
/// fault has a first line that is neither, and the fault is its number. Nothing is done: the law is the contract.
pub fn lists_of_commands()
    ensures read { (list : List ℕ) (rs : List RequestBytes) → ((list_fault list ≡ None) × (asked_by_list list ≡ rs)) ↔ SpellsList list rs }
    ensures refused { (list : List ℕ) (number : ℕ) → (list_fault list ≡ Some (Line number)) ↔ IsBadAt list number }
{}
