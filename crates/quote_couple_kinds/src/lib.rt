// The kinds of a couple's figures: the status of the two lives that each asks for, and the single life's kind that it follows.
#![tactic(auto)]

ghost use Rattle.std.specs.Prelude.{◌≡◌};
ghost use Rattle.quote_couple_kinds.specs.CoupleKinds.{single_of};
ghost use Rattle.quote_couple_kinds.specs.code.Code.{status_of};

use quote_kinds::Kind;

// The joint life status holds while both live, the last survivor status while at least one lives.
#[derive(Clone, Copy)]
pub enum Status {
    JointLife,
    LastSurvivor,
}

// What may be asked of two lives: `joint`, `last`, `ejoint` and `elast`.
#[derive(Clone, Copy)]
pub enum CoupleKind {
    JointLife,
    LastSurvivor,
    JointExpectancy,
    LastExpectancy,
}

// The status of a kind.
pub fn status_of(kind: CoupleKind) -> Status
    ensures { result ≡ status_of kind }
{
    match kind {
        CoupleKind::JointLife => Status::JointLife,
        CoupleKind::LastSurvivor => Status::LastSurvivor,
        CoupleKind::JointExpectancy => Status::JointLife,
        CoupleKind::LastExpectancy => Status::LastSurvivor,
    }
}

// The kind of a single life that a couple's follows.
pub fn single_of(kind: CoupleKind) -> Kind
    ensures { result ≡ single_of kind }
{
    match kind {
        CoupleKind::JointLife => Kind::CohortSurvival,
        CoupleKind::LastSurvivor => Kind::CohortSurvival,
        CoupleKind::JointExpectancy => Kind::CohortExpectancy,
        CoupleKind::LastExpectancy => Kind::CohortExpectancy,
    }
}
