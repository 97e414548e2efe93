/// One side of an account's holds: those that buy, or those that sell. Definitions of what is held go by it.
#[derive(Clone, Copy, PartialEq, Eq, Debug)]
pub enum Side {
    /// The holds of a quantity above 0.
    Buys,
    /// The holds of a quantity below 0.
    Sales,
}
