//! A law of the fields that are passed over.

ghost use Rattle.std.specs.Prelude.{◌≡◌, codes, filter};
ghost use Rattle.para.specs.Fields.{Fields};
ghost use Rattle.rules.specs.Paragraphs.{days, mebibytes, suite_of};
ghost use Rattle.output.specs.Fields.{is_known_field};

/// A paragraph without its unknown fields describes the same suite, and says the same of how long arrivals count and of how large a file
/// may be. So these fields are passed over. Nothing is done: the law is the contract.
pub fn unknown_fields_change_nothing()
    ensures suite { (p : Fields) → suite_of (filter is_known_field p) ≡ suite_of p }
    ensures days { (p : Fields) → days (codes "KeepDays") (filter is_known_field p) ≡ days (codes "KeepDays") p }
    ensures size { (p : Fields) → mebibytes (codes "MaxFileSize") (filter is_known_field p) ≡ mebibytes (codes "MaxFileSize") p }
{}
