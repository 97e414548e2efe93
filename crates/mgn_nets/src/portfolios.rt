ghost use Rattle.std.specs.Prelude.{◌≡◌};

/// One of a thing for each portfolio of a margin unit: that of its lots, those of the lots with the held buys and with the held
/// sales, and that of the lots with all holds.
#[derive(Clone, Copy, PartialEq, Eq, Debug, Drop)]
pub struct Portfolios<T> {
    /// The lots.
    pub lots: T,
    /// The lots and the held buys.
    pub buys: T,
    /// The lots and the held sales.
    pub sales: T,
    /// The lots and all holds.
    pub all: T,
}

impl<T> Portfolios<T> {
    ghost use Rattle.mgn_nets.specs.Portfolios.{behind};

    /// A reference to each.
    pub fn each_ref(&self) -> Portfolios<&T>
        ensures { behind result ≡ self.now }
    {
        Portfolios {
            lots: &self.lots,
            buys: &self.buys,
            sales: &self.sales,
            all: &self.all,
        }
    }
}
