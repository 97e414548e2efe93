//! Laws of the margin calculation in the words of its subject. No function here does any work: each is there for its
//! contract, which says what follows from the definitions of `mgn_span` and `mgn_setfile`.
#![tactic(auto)]

mod credits;
mod deltas;
mod files;
mod requirements;
mod scenarios;
mod stages;

pub use credits::{
    credit_uses_within_net_delta, credits_spread_by_spread, rests_leave_net_delta_less_earlier_uses,
};
pub use deltas::{negated_positions_negate_net_delta, negated_positions_swap_deltas};
pub use files::{
    accepts_where_each_record_passes, adds_one_row_at_the_end, refuses_first_faulty_record,
    sets_what_records_give,
};
pub use requirements::{
    adds_nothing_where_nothing_is_held, flat_owes_nothing, owes_at_least_nothing,
    requires_same_without_what_is_not_held,
};
pub use scenarios::{
    activates_lowest_largest, negated_positions_negate_totals, scans_within_worst_cases,
};
pub use stages::{
    charges_stage_by_stage, leaves_start_less_earlier_uses, uses_stage_by_stage, uses_within_deltas,
};
