//! Laws of the steps of sessions, in the words of their subject. No function here does any work: each is there for its
//! contract, which says what follows from the definition of `mgn_world`.
#![tactic(auto)]

mod calls;
mod entries;
mod example;
mod progress;
mod switches;

pub use calls::{
    a_step_leaves_others_alone, a_step_out_of_turn_changes_nothing,
    apply_moves_desks_of_the_looked_version, back_leads_to_look_or_end, begin_takes_the_units,
    begin_waits_for_its_units, begin_without_units_commits, commit_has_four_outcomes,
    desks_rest_before_apply_and_after_back, end_frees_the_units,
    look_takes_what_the_command_changes, look_without_a_plan_commits, mark_sets_one_desk,
};
pub use entries::{
    a_call_is_answered_once, a_step_adds_one_entry_at_most, entries_are_answers,
    only_a_full_history_takes_nothing,
};
pub use example::a_set_passes_a_hold;
pub use progress::{a_session_can_come_to_its_end, twelve_steps_end_a_call};
pub use switches::{
    a_refused_set_changes_nothing, a_set_commits_once, gather_copies_all_nets,
    prepare_changes_what_is_worked_out,
};
