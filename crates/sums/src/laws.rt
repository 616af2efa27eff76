//! Laws of the lists.

ghost use Rattle.std.specs.Prelude.{◌≡◌, ◌↔◌, ◌≤◌, ℕ, min, List, Ok};
ghost use Rattle.para.specs.Field.{FieldValue};
ghost use Rattle.sums.specs.declared.entries.Entry.{Entry};
ghost use Rattle.sums.specs.declared.entries.ListKind.{ListKind};
ghost use Rattle.sums.specs.Lines.{greatest_size};
ghost use Rattle.sums.specs.Lists.{ListedIn, lists_within};

/// Lists are read as these entries if and only if the paragraph lists them. So a refusal says that it lists no entries.
pub fn lists_are_read()
    ensures { (most : ℕ) (kind : ListKind) (p : List FieldValue) (es : List Entry) → (lists_within most kind p ≡ Ok es) ↔ ListedIn most p kind es }
{}

/// A paragraph lists one list of entries at most.
pub fn one_reading()
    ensures { (most : ℕ) (kind : ListKind) (p : List FieldValue) (es fs : List Entry) → ListedIn most p kind es → ListedIn most p kind fs → es ≡ fs }
{}

/// What is read with a limit is read with a greater one.
pub fn smaller_lists_are_read()
    ensures { (most more : ℕ) (kind : ListKind) (p : List FieldValue) (es : List Entry) → min most greatest_size ≤ more → lists_within most kind p ≡ Ok es → lists_within more kind p ≡ Ok es }
{}
