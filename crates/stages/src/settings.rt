//! What an auction is made with.
ghost use Rattle.std.specs.Prelude.{◌≡◌};
ghost use Rattle.stages.specs.Settings.{close_in_bounds, in_bounds};

use interest::is_price;

/// The prior close, if there is one; and in milliseconds how long the underlying must have been open, the quote window, the
/// imbalance timer and the route timer; and how many extra messages may be sent.
#[derive(Clone, Copy, PartialEq, Eq, Debug)]
pub struct Settings {
    pub close: Option<u32>,
    pub underlying: u32,
    pub window: u32,
    pub imbalance: u32,
    pub route: u32,
    pub extra: u32,
}

impl Settings {
    /// Whether the prior close is a price, if there is one.
    fn close_in_bounds(self) -> bool
        ensures { result ≡ close_in_bounds self.close }
    {
        self.close.is_none_or(is_price)
    }

    /// Whether every setting is in its bounds.
    pub fn in_bounds(self) -> bool
        ensures { result ≡ in_bounds self }
    {
        self.close_in_bounds()
            && (100..=5_000).contains(&self.underlying)
            && (1..=120_000).contains(&self.window)
            && (1..=3_000).contains(&self.imbalance)
            && (1..=1_000).contains(&self.route)
            && self.extra <= 4
    }
}
