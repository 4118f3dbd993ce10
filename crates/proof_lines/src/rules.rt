ghost use Rattle.std.specs.Prelude.{◌≡◌};
ghost use Rattle.proof_lines.specs.Lines.{reference_count, takes_term};

/// The rules of the logic. `docs/LOGIC.md`, "Rules", states each.
#[derive(Clone, Copy, Debug, PartialEq, Eq)]
pub enum Rule {
    Label,
    Ask,
    Hyp,
    TrueI,
    AndI,
    AndL,
    AndR,
    OrL,
    OrR,
    OrE,
    ImpI,
    ImpE,
    FalseE,
    ForallI,
    ForallE,
    ExistsI,
    ExistsE,
    EqRefl,
    EqSym,
    EqTrans,
    Arith,
    LtTrans,
    SaysI,
    Deduce,
    SaysJoin,
    SfRefl,
    SfTrans,
    SfSub,
    SfE,
    SfOnE,
    SfWeak,
    Handoff,
    HandoffOn,
}

impl Rule {
    /// How many references a line of the rule has: at most five.
    pub const fn reference_count(self) -> u64
        ensures { result ≡ reference_count self }
    {
        match self {
            Rule::OrE => 5,
            Rule::ExistsE => 3,
            Rule::AndI
            | Rule::ImpI
            | Rule::ImpE
            | Rule::EqTrans
            | Rule::LtTrans
            | Rule::Deduce
            | Rule::SfTrans
            | Rule::SfE
            | Rule::SfOnE => 2,
            Rule::AndL
            | Rule::AndR
            | Rule::OrL
            | Rule::OrR
            | Rule::FalseE
            | Rule::ForallI
            | Rule::ForallE
            | Rule::ExistsI
            | Rule::EqSym
            | Rule::SaysI
            | Rule::SaysJoin
            | Rule::SfWeak
            | Rule::Handoff
            | Rule::HandoffOn => 1,
            Rule::Label
            | Rule::Ask
            | Rule::Hyp
            | Rule::TrueI
            | Rule::EqRefl
            | Rule::Arith
            | Rule::SfRefl
            | Rule::SfSub => 0,
        }
    }

    /// Whether a line of the rule has a term.
    pub const fn takes_term(self) -> bool
        ensures { result ≡ takes_term self }
    {
        matches!(self, Rule::ForallE | Rule::ExistsI)
    }
}
