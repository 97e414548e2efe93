use mgn_params::Leg;
use mgn_span::Delta;

/// What a spread is formed of, as if there were no commodities but those of its legs: the legs with their places in place
/// of their commodities, and by place the net deltas, in ten-thousandths, and the doubled price risks, in cents.
#[derive(Drop)]
pub(crate) struct Gathered {
    pub legs: [Leg; 4],
    pub deltas: [Delta; 4],
    pub risks: [u64; 4],
}
