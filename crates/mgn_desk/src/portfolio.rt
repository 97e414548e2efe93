/// One of the four portfolios of a margin unit.
#[derive(Clone, Copy, PartialEq, Eq)]
pub(crate) enum Portfolio {
    /// The lots.
    Lots,
    /// The lots and the held buys.
    WithBuys,
    /// The lots and the held sales.
    WithSales,
    /// The lots and all holds.
    WithAll,
}
