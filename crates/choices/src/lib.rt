//! Ladders and sharing rules by their names: one type for all of them, so that an auction over any is of one type too.
#![tactic(auto)]

ghost use Rattle.choices.specs.Choices.{permitted_by, shares_by};
ghost use Rattle.std.proofs.Common.{rules};
ghost use Rattle.choices.specs.RuleByNameLemmas.{each-by, within_by, whole_by};

use arrayvec::ArrayVec;
use ladder::{EveryCent, Ladder, Stepped};
use sharing::{LEVEL_ROWS, Level, SharingRule, SizeProRata, TimePriority};

/// A ladder by its name.
#[derive(Clone, Copy, PartialEq, Eq, Debug)]
pub enum NamedLadder {
    Cent,
    Stepped,
}

impl Ladder for NamedLadder {
    ghost permitted = { permitted_by };

    ghost top = { Prim.search rules };

    ghost within = { Prim.search rules };

    fn permits(&self, price: u32) -> bool {
        match self {
            NamedLadder::Cent => EveryCent.permits(price),
            NamedLadder::Stepped => Stepped.permits(price),
        }
    }

    fn at_or_above(&self, price: u32) -> Option<u32> {
        match self {
            NamedLadder::Cent => EveryCent.at_or_above(price),
            NamedLadder::Stepped => Stepped.at_or_above(price),
        }
    }

    fn at_or_below(&self, price: u32) -> Option<u32> {
        match self {
            NamedLadder::Cent => EveryCent.at_or_below(price),
            NamedLadder::Stepped => Stepped.at_or_below(price),
        }
    }
}

/// A sharing rule by its name.
#[derive(Clone, Copy, PartialEq, Eq, Debug)]
pub enum NamedRule {
    Time,
    ProRata,
}

impl SharingRule for NamedRule {
    ghost shares = { shares_by };

    ghost each = { each-by };

    ghost within = { within_by };

    ghost whole = { whole_by };

    fn share(&self, quantity: u32, level: &Level) -> ArrayVec<u32, LEVEL_ROWS> {
        match self {
            NamedRule::Time => TimePriority.share(quantity, level),
            NamedRule::ProRata => SizeProRata.share(quantity, level),
        }
    }
}
