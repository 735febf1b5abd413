//! Laws of cards, sessions and scripts: they stay sound, and so do the images that they leave and the packages read from them. The
//! main theorems: what is promised of whole sessions, as laws.
#![tactic(auto)]

mod card_laws;
mod script_laws;
mod session_theorems;

pub use card_laws::sessions_leave_images_that_power_up_again;
pub use script_laws::scripts_are_sessions;
pub use session_theorems::{
    a_cut_leaves_the_changes_before_it, commands_are_the_environments_and_runs_of_code,
    cuts_that_are_told_are_those_that_the_law_names, down_tells_of_refused_writes,
    fuses_cut_where_they_were_set, images_power_up_again, premises_can_be_met,
    references_name_what_is_there, sessions_change_tries_by_pin_calls_alone,
    sessions_keep_contexts_apart, sessions_take_back_what_is_not_committed,
    sessions_without_refused_writes_are_of_whole_copies,
};
