//! Truth values, and judgements that may still be open.
ghost use Rattle.std.specs.Prelude.{◌≡◌};
ghost use Rattle.rp_value.specs.Truth.{conjunction, disjunction, negation, judged_conjunction, judged_disjunction, judged_negation};
ghost use Rattle.rp_value.specs.TruthLaws.{ToldStays};

/// One of the three truth values of SQL, whose order is false, unknown, true
/// (ISO/IEC 9075-2:2016, boolean value expression).
#[derive(Clone, Copy, Debug, PartialEq, Eq)]
pub enum Tri {
    /// The condition holds.
    True,
    /// The condition doesn't hold.
    False,
    /// Neither: something that the condition compares is null, or of another kind.
    Unknown,
}

impl Tri {
    /// AND: the least of the two.
    pub fn and(self, other: Tri) -> Tri
        ensures { result ≡ conjunction self other }
    {
        match (self, other) {
            (Tri::False, _) | (_, Tri::False) => Tri::False,
            (Tri::True, Tri::True) => Tri::True,
            _ => Tri::Unknown,
        }
    }

    /// OR: the greatest of the two.
    pub fn or(self, other: Tri) -> Tri
        ensures { result ≡ disjunction self other }
    {
        match (self, other) {
            (Tri::True, _) | (_, Tri::True) => Tri::True,
            (Tri::False, Tri::False) => Tri::False,
            _ => Tri::Unknown,
        }
    }

    /// NOT: true and false are exchanged, and unknown stays.
    pub fn not(self) -> Tri
        ensures { result ≡ negation self }
    {
        match self {
            Tri::True => Tri::False,
            Tri::False => Tri::True,
            Tri::Unknown => Tri::Unknown,
        }
    }
}

/// The truth value of a condition, or `Open` where it depends on rows that have not come.
#[derive(Clone, Copy, Debug, PartialEq, Eq)]
pub enum Judged {
    /// The rows that have come settle it: none that come later change it.
    Told(Tri),
    /// It depends on rows that have not come.
    Open,
}

impl Judged {
    /// AND. A side that is told false decides, whatever the other side will be.
    pub fn and(self, other: Judged) -> Judged
        ensures { result ≡ judged_conjunction self other }
    {
        match (self, other) {
            (Judged::Told(Tri::False), _) | (_, Judged::Told(Tri::False)) => {
                Judged::Told(Tri::False)
            }
            (Judged::Told(left), Judged::Told(right)) => Judged::Told(left.and(right)),
            _ => Judged::Open,
        }
    }

    /// OR. A side that is told true decides, whatever the other side will be.
    pub fn or(self, other: Judged) -> Judged
        ensures { result ≡ judged_disjunction self other }
    {
        match (self, other) {
            (Judged::Told(Tri::True), _) | (_, Judged::Told(Tri::True)) => Judged::Told(Tri::True),
            (Judged::Told(left), Judged::Told(right)) => Judged::Told(left.or(right)),
            _ => Judged::Open,
        }
    }

    /// NOT. What is open stays open.
    pub fn not(self) -> Judged
        ensures { result ≡ judged_negation self }
    {
        match self {
            Judged::Told(value) => Judged::Told(value.not()),
            Judged::Open => Judged::Open,
        }
    }
}

/// The law that AND, OR and NOT keep what is told: where each side that is told is the same later, so is the result.
pub fn law_told_stays()
    ensures { ToldStays }
{}
