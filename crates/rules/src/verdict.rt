//! What becomes of an upload.

ghost use Rattle.std.specs.Prelude.{◌≡◌};
ghost use Rattle.rules.specs.Verdicts.{number_of, verdict_numbered};

/// What becomes of an upload. If several verdicts apply, the answer is the lowest (own rules of this archive).
#[derive(Clone, Copy, Debug, PartialEq, Eq)]
pub enum Verdict {
    /// None of the others applies.
    Accepted,
    /// No suite claims the distribution.
    Unclaimed,
    /// The suite does not keep an architecture of the .changes.
    ForeignArchitecture,
    /// No uploader line of the suite allows source and person.
    NotAllowed,
    /// The components of the entries differ, or the suite does not have the component.
    ForeignComponent,
    /// The listed files are not those that an upload has.
    BadListing,
    /// The .dsc is refused, or does not fit the .changes.
    BadDsc,
    /// A sidecar is refused, or does not fit the .changes.
    BadSidecar,
    /// A file of the .dsc is neither in the upload nor in the pool.
    NotInPool,
    /// The pool holds other contents at a path of the upload.
    OtherContents,
}

impl Verdict {
    /// The number of the verdict, 0 to 9.
    pub fn number(self) -> u8
        ensures { result ≡ number_of self }
    {
        match self {
            Verdict::Accepted => 0,
            Verdict::Unclaimed => 1,
            Verdict::ForeignArchitecture => 2,
            Verdict::NotAllowed => 3,
            Verdict::ForeignComponent => 4,
            Verdict::BadListing => 5,
            Verdict::BadDsc => 6,
            Verdict::BadSidecar => 7,
            Verdict::NotInPool => 8,
            Verdict::OtherContents => 9,
        }
    }

    /// The verdict with a number, 0 to 9: the one whose `number` it is.
    #[tactic(auto, unfolding(crate::specs::Verdicts::verdict_numbered))]
    pub fn with_number(number: u64) -> Option<Verdict>
        ensures { result ≡ verdict_numbered number }
    {
        match number {
            0 => Some(Verdict::Accepted),
            1 => Some(Verdict::Unclaimed),
            2 => Some(Verdict::ForeignArchitecture),
            3 => Some(Verdict::NotAllowed),
            4 => Some(Verdict::ForeignComponent),
            5 => Some(Verdict::BadListing),
            6 => Some(Verdict::BadDsc),
            7 => Some(Verdict::BadSidecar),
            8 => Some(Verdict::NotInPool),
            9 => Some(Verdict::OtherContents),
            _ => None,
        }
    }
}
