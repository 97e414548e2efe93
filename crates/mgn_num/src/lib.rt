//! Exact whole numbers of the margin service: cents, ten-thousandths and quantities of contracts, their texts,
//! and fractions that are rounded once.
#![tactic(auto)]

pub mod cents;
pub mod fraction;
pub mod quantity;
pub mod reading;
pub mod ten_thousandths;

pub use cents::Cents;
pub use fraction::{mul_div_ceil, mul_div_floor, quotient};
pub use quantity::Quantity;
pub use reading::{NumFault, read_signed, read_unsigned};
pub use ten_thousandths::TenThousandths;
