//! Laws of the grammar.

ghost use Rattle.std.specs.Prelude.{◌≡◌, ◌≢◌, ◌≤◌, ◌↔◌, ℕ, List, [], ◌∷◌, length, Some, Ok, Err};
ghost use Rattle.std.specs.List.{AllByRecursion};
ghost use Rattle.para.specs.declared.fault.ParaFault.{ParaFault};
ghost use Rattle.para.specs.Field.{FieldValue};
ghost use Rattle.para.specs.Fields.{Fields, paragraphs_in, fields_in};
ghost use Rattle.para.specs.Fault.{many_fault, one_fault};
ghost use Rattle.para.specs.Grammar.{Spells};
ghost use Rattle.para.specs.Printing.{paragraph_text};

/// A text spells at most one list of paragraphs.
pub fn one_reading()
    ensures { (text : List ℕ) (ps qs : List (List FieldValue)) → Spells text ps → Spells text qs → ps ≡ qs }
{}

/// The text of each paragraph that a text spells spells that paragraph.
pub fn printed_again()
    ensures { (text : List ℕ) (ps : List (List FieldValue)) → Spells text ps → AllByRecursion (λ p. Spells (paragraph_text p) (p ∷ [])) ps }
{}

/// A text gives the fields of one paragraph if and only if it is within the limit and spells that
/// paragraph. It gives a fault if and only if that is its fault. If it is within the limit, it then
/// does not spell one paragraph.
pub fn one_paragraph()
    ensures ok { (text : List ℕ) (limit : ℕ) (p : Fields) → (fields_in text limit ≡ Ok p) ↔ ((length text ≤ limit) × Spells text (p ∷ [])) }
    ensures err { (text : List ℕ) (limit : ℕ) (e : ParaFault) → (fields_in text limit ≡ Err e) ↔ (one_fault text limit ≡ Some e) }
    ensures none { (text : List ℕ) (limit : ℕ) (e : ParaFault) → fields_in text limit ≡ Err e →
        (p : Fields) → length text ≤ limit → ¬ Spells text (p ∷ []) }
{}

/// A text gives one or more paragraphs if and only if it is within the limit and spells them. It
/// gives a fault if and only if that is its fault. If it is within the limit, it then spells no
/// paragraphs.
pub fn several_paragraphs()
    ensures ok { (text : List ℕ) (limit : ℕ) (ps : List Fields) → (paragraphs_in text limit ≡ Ok ps) ↔ ((length text ≤ limit) × (ps ≢ []) × Spells text ps) }
    ensures err { (text : List ℕ) (limit : ℕ) (e : ParaFault) → (paragraphs_in text limit ≡ Err e) ↔ (many_fault text limit ≡ Some e) }
    ensures none { (text : List ℕ) (limit : ℕ) (e : ParaFault) → paragraphs_in text limit ≡ Err e →
        (ps : List Fields) → length text ≤ limit → ps ≢ [] → ¬ Spells text ps }
{}
