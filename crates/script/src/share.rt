//! The call `share RULE QUANTITY CLASS SIZE [CLASS SIZE ..]`: a quantity divided among the rows of a level.
ghost use Rattle.std.specs.Prelude.{◌≡◌, [], map};
ghost use Rattle.std.specs.Option.{option_map};
ghost use Rattle.sharing.specs.Levels.{rows_of};
ghost use Rattle.script.specs.Shares.{holding_of, rows_from, share_call, asked, shares_by};

use crate::names::{class_named, rule_named};
use crate::text::number;
use arrayvec::ArrayVec;
use choices::NamedRule;
use sharing::{Holding, LEVEL_ROWS, Level, SharingRule};

/// A quantity to be divided by a rule among the rows of a level.
#[derive(Drop)]
pub struct ShareCall {
    pub rule: NamedRule,
    pub quantity: u32,
    pub level: Level,
}

// The row that a class and a size tell.
fn holding_of(class: &[u8], size: &[u8]) -> Option<Holding>
    ensures { result ≡ holding_of class.now size.now }
{
    Some(Holding {
        class: class_named(class)?,
        size: number(size)?,
    })
}

// The rows that words tell, each in bounds, at most as many as a level holds.
fn level_of(words: &[&[u8]]) -> Option<Level>
    ensures { option_map rows_of result ≡ rows_from [] (map (λ x. x.now) words.now) }
{
    let mut level = Level::new();
    for row in words.chunks(2) {
        let [class, size] = row else {
            return None;
        };
        level.push(holding_of(class, size)?).ok()?;
    }
    Some(level)
}

/// The call that the words make: after its name a rule, a quantity and at least one row.
pub fn share_call(words: &[&[u8]]) -> Option<ShareCall>
    ensures { option_map asked result ≡ share_call (map (λ x. x.now) words.now) }
{
    let [_, rule, quantity, rows @ ..] = words else {
        return None;
    };
    if rows.is_empty() {
        return None;
    }
    Some(ShareCall {
        rule: rule_named(rule)?,
        quantity: number(quantity)?,
        level: level_of(rows)?,
    })
}

impl ShareCall {
    /// What each row gets, in row order.
    pub fn shares(&self) -> ArrayVec<u32, LEVEL_ROWS>
        ensures { result.items ≡ shares_by (asked self.now) }
    {
        self.rule.share(self.quantity, &self.level)
    }
}
