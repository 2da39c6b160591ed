//! The five rules of which the least is sought.
ghost use Rattle.std.specs.Prelude.{◌≡◌};
ghost use Rattle.least.specs.Rule.{rule_number};

use engines::Engine;

/// A rule by which rows go whole.
#[derive(Clone, Copy)]
pub enum LeastRule {
    /// One turn at a time.
    Turns,
    /// Rules A to C by an engine, and then the best choice among the rows that they leave split.
    BestChoice(Engine),
    /// Rules A to D, by an engine.
    RuleD(Engine),
}

impl LeastRule {
    /// The rule's number, 1 to 5. Of rules that come to the same peak the one with the smallest number wins.
    #[tactic(auto, unfolding(crate::specs::Rule::rule_number))]
    pub fn number(self) -> u32
        ensures { result ≡ rule_number self }
    {
        match self {
            LeastRule::Turns => 1,
            LeastRule::BestChoice(Engine::Level) => 2,
            LeastRule::BestChoice(Engine::Lowered) => 3,
            LeastRule::RuleD(Engine::Level) => 4,
            LeastRule::RuleD(Engine::Lowered) => 5,
        }
    }
}
