//! Laws of the records: what is read from a text is what the text is.

ghost use Rattle.std.specs.Prelude.{◌≡◌, ◌↔◌, ◌≤◌, ℕ, min, List, Ok, Err};
ghost use Rattle.records.specs.Records.{changes_within, dsc_within, sidecar_in, IsChanges, IsDsc, IsSidecar};
ghost use Rattle.records.specs.Values.{ChangesValue, DscValue, SidecarValue};
ghost use Rattle.records.specs.declared.fault.RecordFault.{RecordFault};
ghost use Rattle.sums.specs.Lines.{greatest_size};

/// A text is read as a .changes if and only if it is that .changes. So a refusal says that it is not a .changes.
pub fn changes_are_read()
    ensures read { (most : ℕ) (text : List ℕ) (c : ChangesValue) → (changes_within most text ≡ Ok c) ↔ IsChanges most text c }
    ensures refused { (most : ℕ) (text : List ℕ) (e : RecordFault) (c : ChangesValue) → changes_within most text ≡ Err e → ¬ IsChanges most text c }
    ensures more { (most more : ℕ) (text : List ℕ) (c : ChangesValue) → min most greatest_size ≤ more → changes_within most text ≡ Ok c → changes_within more text ≡ Ok c }
{}

/// A text is read as a .dsc if and only if it is that .dsc. So a refusal says that it is not a .dsc.
pub fn dscs_are_read()
    ensures read { (most : ℕ) (text : List ℕ) (d : DscValue) → (dsc_within most text ≡ Ok d) ↔ IsDsc most text d }
    ensures refused { (most : ℕ) (text : List ℕ) (e : RecordFault) (d : DscValue) → dsc_within most text ≡ Err e → ¬ IsDsc most text d }
    ensures more { (most more : ℕ) (text : List ℕ) (d : DscValue) → min most greatest_size ≤ more → dsc_within most text ≡ Ok d → dsc_within more text ≡ Ok d }
{}

/// A text is read as a sidecar if and only if it is that sidecar. So a refusal says that it is not a sidecar.
pub fn sidecars_are_read()
    ensures read { (text : List ℕ) (s : SidecarValue) → (sidecar_in text ≡ Ok s) ↔ IsSidecar text s }
    ensures refused { (text : List ℕ) (e : RecordFault) (s : SidecarValue) → sidecar_in text ≡ Err e → ¬ IsSidecar text s }
{}
