// The pair layer: two structures over the same parts, of which both or either must work.
ghost use Rattle.std.specs.Prelude.{◌≡◌};
ghost use Rattle.structure.specs.Layers.{joined, pair};
ghost use Rattle.structure.specs.LayersLemmas.{pair_monotone};
ghost use Rattle.std.proofs.Common.{rules};

use crate::structure::Structure;

#[derive(Clone, Copy, Debug, PartialEq, Eq)]
pub enum Rule {
    Both,
    Either,
}

impl Rule {
    pub fn join(self, first: bool, second: bool) -> bool
        ensures { result ≡ joined self first second }
    {
        match self {
            Rule::Both => first & second,
            Rule::Either => first | second,
        }
    }
}

#[derive(Clone, Copy)]
pub struct Pair<A, B> {
    rule: Rule,
    first: A,
    second: B,
}

impl<A: Structure, B: Structure> Pair<A, B> {
    pub fn new(rule: Rule, first: A, second: B) -> Self
        ensures rule { result.rule ≡ rule }
        ensures first { result.first ≡ first }
        ensures second { result.second ≡ second }
    {
        Pair {
            rule,
            first,
            second,
        }
    }
}

impl<A: Structure, B: Structure> Structure for Pair<A, B> {
    ghost meaning = { λ s. pair s.rule (A.Structure.meaning s.first) (B.Structure.meaning s.second) };

    ghost sized = { Prim.search rules };

    ghost monotone = { λ s.
        pair_monotone s.rule (A.Structure.meaning s.first) (B.Structure.meaning s.second)
        (A.Structure.monotone s.first) (B.Structure.monotone s.second) };

    fn order(&self) -> usize {
        self.first.order().max(self.second.order())
    }

    fn works(&self, state: u32) -> bool {
        self.rule
            .join(self.first.works(state), self.second.works(state))
    }
}
