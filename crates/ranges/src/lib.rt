//! The bands of bids with their widths, and the ranges in which an opening price is looked for.
#![tactic(auto)]

ghost use Rattle.std.specs.Prelude.{◌≡◌, ℕ, ◌≤◌, true, false, nat_le, reverse, Some};
ghost use Rattle.std.specs.List.{find};
ghost use Rattle.interest.specs.Bounds.{priced};
ghost use Rattle.ranges.specs.Bands.{band_table, band_of, LastReached, NoNarrower, valid_quote, quality_market};
ghost use Rattle.ranges.specs.Ranges.{spread_of, quick_range, reaching, opening_range, Standing, Proper, Inside};
ghost use Rattle.ranges.specs.Texts.{range_text};

use interest::TOP_PRICE;
use std::fmt;

/// The bids from `from` up to the next band, and the widths that go with them: of a valid quote, of a quality market,
/// and the amount by which the opening range is wider than the spread.
#[derive(Clone, Copy, PartialEq, Eq, Debug)]
pub struct Band {
    pub from: u32,
    pub valid: u32,
    pub quality: u32,
    pub amount: u32,
}

/// The bands, lowest first. Quote validity, the quality test and the opening range all read it through `band_of`.
const BANDS: [Band; 5] = [
    Band {
        from: 0,
        valid: 50,
        quality: 25,
        amount: 10,
    },
    Band {
        from: 200,
        valid: 80,
        quality: 40,
        amount: 20,
    },
    Band {
        from: 500,
        valid: 100,
        quality: 50,
        amount: 25,
    },
    Band {
        from: 1_000,
        valid: 160,
        quality: 80,
        amount: 40,
    },
    Band {
        from: 2_000,
        valid: 200,
        quality: 100,
        amount: 50,
    },
];

/// The highest bid and the lowest offer of the quotes; the bid is 0 where every quote bids 0, a
/// number and no `Option`, since the bands begin at it.
#[derive(Clone, Copy, PartialEq, Eq, Debug)]
pub struct Quotes {
    pub bid: u32,
    pub offer: u32,
}

/// The away market's best bid and best offer, where one is shown.
#[derive(Clone, Copy, PartialEq, Eq, Debug)]
pub struct Away {
    pub bid: Option<u32>,
    pub offer: Option<u32>,
}

/// The best prices of a series: of the quotes here, and of the away market.
#[derive(Clone, Copy, PartialEq, Eq, Debug)]
pub struct BestPrices {
    pub quotes: Quotes,
    pub away: Away,
}

/// The prices from `low` to `high`; none where `low` is above `high`.
#[derive(Clone, Copy, PartialEq, Eq, Debug)]
pub struct Range {
    pub low: u32,
    pub high: u32,
}

impl fmt::Display for Range {
    ghost output = { λ range. Some (range_text range) };

    fn fmt<W: fmt::Write>(&self, f: &mut fmt::Formatter<W>) -> fmt::Result {
        let Range { low, high } = *self;
        write!(f, "{low} {high}")
    }
}

/// The last of some bands that starts at or below a bid.
fn last_reached(bands: &[Band], bid: u32) -> Option<Band>
    ensures { result ≡ find (λ x. nat_le x.from bid) (reverse bands.now) }
{
    bands.iter().rev().copied().find(|band| band.from <= bid)
}

/// The band of a bid: the last one that starts at or below it. A higher bid never has a smaller width.
pub fn band_of(bid: u32) -> Band
    ensures rule { result ≡ band_of bid }
    ensures last { LastReached band_table bid result }
    ensures wider { (higher : ℕ) → bid ≤ higher → NoNarrower result (band_of higher) }
{
    last_reached(&BANDS, bid).unwrap_or(BANDS[0])
}

/// Whether a quote is narrow enough: its offer is above its bid by at most the valid width.
pub fn is_valid(bid: u32, offer: u32) -> bool
    ensures { result ≡ valid_quote bid offer }
{
    offer.saturating_sub(bid) <= band_of(bid).valid
}

/// Whether the quotes make a quality market: not crossed, and apart by at most the quality width.
pub fn is_quality(quotes: Quotes) -> bool
    ensures { result ≡ quality_market quotes }
{
    let width = band_of(quotes.bid).quality;
    quotes.bid <= quotes.offer && quotes.offer.saturating_sub(quotes.bid) <= width
}

impl BestPrices {
    /// From the highest bid to the lowest offer, quotes and away together.
    fn spread(self) -> Range
        ensures { result ≡ spread_of self.quotes self.away }
    {
        let BestPrices { quotes, away } = self;
        Range {
            low: quotes.bid.max(away.bid.unwrap_or(quotes.bid)),
            high: quotes.offer.min(away.offer.unwrap_or(quotes.offer)),
        }
    }

    /// The range of a quick opening: the spread, if an away price is shown or the quotes make a quality market.
    /// With crossed quotes it is the away market's own, if both of its prices are shown.
    pub fn quick_range(self) -> Option<Range>
        ensures { result ≡ quick_range self.quotes self.away }
    {
        let BestPrices { quotes, away } = self;
        if quotes.offer < quotes.bid {
            return Some(Range {
                low: away.bid?,
                high: away.offer?,
            });
        }
        let any_away = away.bid.is_some() || away.offer.is_some();
        (any_away || is_quality(quotes)).then_some(self.spread())
    }

    /// Whether the quotes are crossed, or one of them reaches the away price of the other side.
    fn is_reaching(self) -> bool
        ensures { result ≡ reaching self.quotes self.away }
    {
        let BestPrices { quotes, away } = self;
        let bid_reaches = away.offer.is_some_and(|offer| offer <= quotes.bid);
        let offer_reaches = away.bid.is_some_and(|bid| quotes.offer <= bid);
        quotes.offer < quotes.bid || bid_reaches || offer_reaches
    }

    /// From the away bid to the away offer; for one that is not shown, the least or the greatest of the other prices.
    fn away_ends(self) -> Range
        requires { reaching self.quotes self.away ≡ true }
        ensures { result ≡ opening_range self.quotes self.away }
    {
        let BestPrices { quotes, away } = self;
        let least = quotes
            .bid
            .min(quotes.offer)
            .min(away.offer.unwrap_or(quotes.offer));
        let greatest = quotes
            .bid
            .max(quotes.offer)
            .max(away.bid.unwrap_or(quotes.bid));
        Range {
            low: away.bid.unwrap_or(least),
            high: away.offer.unwrap_or(greatest),
        }
    }

    /// The spread, wider at both ends by the amount of its bid's band and cut to 1 and 100,000.
    fn wider_spread(self) -> Range
        requires { reaching self.quotes self.away ≡ false }
        ensures { result ≡ opening_range self.quotes self.away }
    {
        let Range { low, high } = self.spread();
        let amount = band_of(low).amount;
        Range {
            low: low.saturating_sub(amount).max(1),
            high: high.saturating_add(amount).min(TOP_PRICE),
        }
    }

    /// The range of any other opening: the spread made wider; or the away ends, where the quotes are crossed or one reaches
    /// the away price of the other side. It goes from a price to one that is not below it, and holds every price of the spread.
    pub fn opening_range(self) -> Range
        ensures rule { result ≡ opening_range self.quotes self.away }
        ensures proper { Standing self.quotes self.away → Proper result }
        ensures whole { (p : ℕ) → priced p ≡ true → Inside p (spread_of self.quotes self.away) → Inside p result }
    {
        if self.is_reaching() {
            self.away_ends()
        } else {
            self.wider_spread()
        }
    }
}

#[cfg(test)]
mod tests {
    use super::*;

    fn best(bid: u32, offer: u32, away: (Option<u32>, Option<u32>)) -> BestPrices {
        BestPrices {
            quotes: Quotes { bid, offer },
            away: Away {
                bid: away.0,
                offer: away.1,
            },
        }
    }

    fn quick(bid: u32, offer: u32, away: (Option<u32>, Option<u32>)) -> Option<(u32, u32)> {
        let range = best(bid, offer, away).quick_range()?;
        Some((range.low, range.high))
    }

    fn opening(bid: u32, offer: u32, away: (Option<u32>, Option<u32>)) -> (u32, u32) {
        let range = best(bid, offer, away).opening_range();
        (range.low, range.high)
    }

    #[test]
    fn bands_and_widths(rt: HostRuntime) {
        assert_eq!(rt; band_of(199).valid, 50);
        assert_eq!(rt; band_of(200).valid, 80);
        assert_eq!(rt; band_of(499).quality, 40);
        assert_eq!(rt; band_of(500).quality, 50);
        assert_eq!(rt; band_of(999).amount, 25);
        assert_eq!(rt; band_of(1_000).amount, 40);
        assert_eq!(rt; band_of(1_999).valid, 160);
        assert_eq!(rt; band_of(2_000).valid, 200);
        assert!(rt; is_valid(199, 249) && !is_valid(199, 250));
        assert!(rt; is_valid(0, 50) && !is_valid(0, 51));
    }

    #[test]
    fn quick_ranges(rt: HostRuntime) {
        assert_eq!(rt; quick(100, 125, (None, None)), Some((100, 125)));
        assert_eq!(rt; quick(100, 126, (None, None)), None);
        assert_eq!(rt; quick(100, 126, (Some(105), None)), Some((105, 126)));
        assert_eq!(rt; quick(110, 100, (Some(104), None)), None);
        assert_eq!(rt; quick(110, 100, (Some(104), Some(106))), Some((104, 106)));
    }

    #[test]
    fn opening_ranges(rt: HostRuntime) {
        assert_eq!(rt; opening(200, 210, (None, None)), (180, 230));
        assert_eq!(rt; opening(199, 210, (None, None)), (189, 220));
        assert_eq!(rt; opening(5, 30, (None, None)), (1, 40));
        assert_eq!(rt; opening(99_900, 99_980, (None, None)), (99_850, 100_000));
        assert_eq!(rt; opening(110, 120, (None, Some(110))), (110, 110));
        assert_eq!(rt; opening(120, 110, (Some(105), None)), (105, 120));
        assert_eq!(rt; opening(120, 110, (None, Some(115))), (110, 115));
    }
}
