ghost use Rattle.std.specs.Prelude.{◌≡◌};
ghost use Rattle.proof_text.specs.RuleNames.{rule_name};
ghost use Rattle.proof_text.specs.Inner.Reading.{rule_named};

use proof_lines::Rule;

const RULES: [Rule; 33] = [
    Rule::Label,
    Rule::Ask,
    Rule::Hyp,
    Rule::TrueI,
    Rule::AndI,
    Rule::AndL,
    Rule::AndR,
    Rule::OrL,
    Rule::OrR,
    Rule::OrE,
    Rule::ImpI,
    Rule::ImpE,
    Rule::FalseE,
    Rule::ForallI,
    Rule::ForallE,
    Rule::ExistsI,
    Rule::ExistsE,
    Rule::EqRefl,
    Rule::EqSym,
    Rule::EqTrans,
    Rule::Arith,
    Rule::LtTrans,
    Rule::SaysI,
    Rule::Deduce,
    Rule::SaysJoin,
    Rule::SfRefl,
    Rule::SfTrans,
    Rule::SfSub,
    Rule::SfE,
    Rule::SfOnE,
    Rule::SfWeak,
    Rule::Handoff,
    Rule::HandoffOn,
];

/// The rule with this name. `docs/FORMATS.md`, "Proof text", lists the names.
#[tactic(auto, unfolding(crate::specs::Inner::Reading::rule_named))]
pub fn rule_of(name: &[u8]) -> Option<Rule>
    ensures { result ≡ rule_named name.now }
{
    RULES
        .iter()
        .copied()
        .find(|rule| rule_name(*rule).as_bytes() == name)
}

/// The name of a rule.
pub fn rule_name(rule: Rule) -> &'static str
    ensures { result.now ≡ rule_name rule }
{
    match rule {
        Rule::Label => "label",
        Rule::Ask => "ask",
        Rule::Hyp => "hyp",
        Rule::TrueI => "true_i",
        Rule::AndI => "and_i",
        Rule::AndL => "and_l",
        Rule::AndR => "and_r",
        Rule::OrL => "or_l",
        Rule::OrR => "or_r",
        Rule::OrE => "or_e",
        Rule::ImpI => "imp_i",
        Rule::ImpE => "imp_e",
        Rule::FalseE => "false_e",
        Rule::ForallI => "forall_i",
        Rule::ForallE => "forall_e",
        Rule::ExistsI => "exists_i",
        Rule::ExistsE => "exists_e",
        Rule::EqRefl => "eq_refl",
        Rule::EqSym => "eq_sym",
        Rule::EqTrans => "eq_trans",
        Rule::Arith => "arith",
        Rule::LtTrans => "lt_trans",
        Rule::SaysI => "says_i",
        Rule::Deduce => "deduce",
        Rule::SaysJoin => "says_join",
        Rule::SfRefl => "sf_refl",
        Rule::SfTrans => "sf_trans",
        Rule::SfSub => "sf_sub",
        Rule::SfE => "sf_e",
        Rule::SfOnE => "sf_on_e",
        Rule::SfWeak => "sf_weak",
        Rule::Handoff => "handoff",
        Rule::HandoffOn => "handoff_on",
    }
}
