// A side of the market.
ghost use Rattle.std.specs.Prelude.{◌≡◌, ℤ};
ghost use Rattle.sides.specs.Ranking.{buying, selling, market_figure};

use crate::ranking::Ranking;

/// A side: how it ranks its orders, and the limit of its market orders.
pub trait Side {
    type Rank: Ranking;

    const MARKET: i32;

    // The constant, for clauses.
    ghost MARKET: { ℤ };

    // It is the limit that none is better than.
    ghost market: { MARKET ≡ market_figure Self.Rank.Ranking.direction };

    /// The limit that a market order of this side has.
    final fn market_limit() -> i32
        ensures { result ≡ market_figure Self.Rank.Ranking.direction }
    {
        Self::MARKET
    }
}

/// A side that buys.
pub trait BidSide: Side {
    ghost buys: { Self.Rank.Ranking.direction ≡ buying };
}

/// A side that sells.
pub trait AskSide: Side {
    ghost sells: { Self.Rank.Ranking.direction ≡ selling };
}
