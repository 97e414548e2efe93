use mgn_span::Delta;

/// What is kept of a spread, leg by leg: the rest of the leg's commodity before the spread and after it, and what the
/// spread credits to it.
#[derive(Clone, Copy, PartialEq, Eq, Debug)]
pub(crate) struct SpreadState {
    pub rests: [Delta; 4],
    pub after: [Delta; 4],
    pub credits: [u64; 4],
}

impl SpreadState {
    pub const NOTHING: SpreadState = SpreadState {
        rests: [Delta::ZERO; 4],
        after: [Delta::ZERO; 4],
        credits: [0; 4],
    };
}
