//! What the kind and the style of a contract say of it.

ghost use Rattle.std.specs.Prelude.{◌≡◌};
ghost use Rattle.mgn_params.specs.Tables.{is_option, is_premium};

use crate::tables::{Kind, Style};

impl Kind {
    /// Whether it is that of an option, a call or a put.
    pub fn is_option(self) -> bool
        ensures { result ≡ is_option self }
    {
        match self {
            Kind::Future => false,
            Kind::Call | Kind::Put => true,
        }
    }
}

impl Style {
    /// Whether an option of this style is paid for at once by a premium.
    pub fn is_premium(self) -> bool
        ensures { result ≡ is_premium self }
    {
        match self {
            Style::Premium => true,
            Style::Other => false,
        }
    }
}
