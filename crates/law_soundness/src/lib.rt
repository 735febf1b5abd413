//! Laws of soundness: no effect, instruction, call, run or command leaves a heap that does not fit the packages that are linked,
//! and packages that are read are linked.
#![tactic(auto)]

mod growth_laws;
mod machine_laws;
mod memory_laws;

pub use growth_laws::{package_records_are_of_words, packages_that_were_read_are_linked};
pub use machine_laws::{
    commands_keep_memories_sound, effects_of_array_instructions_fit_packages,
    effects_of_calls_fit_packages, effects_of_commands_keep_memories_sound,
    effects_of_field_instructions_fit_packages, effects_of_instructions_fit_packages,
    effects_of_object_instructions_fit_packages, effects_of_platform_methods_fit_packages,
    effects_of_returns_and_exceptions_fit_packages, effects_of_runs_fit_packages,
    effects_of_server_calls_fit_packages, faulted_states_are_sound,
    local_effects_keep_machines_between_instructions, platform_methods_end_between_instructions,
    steps_keep_machines_sound, steps_switch_contexts_for_causes,
    what_is_dispatched_is_the_environments_or_of_a_run,
};
pub use memory_laws::{
    fit_effects_keep_memories_sound, fit_effects_keep_the_environments_objects,
    sound_memories_outlast_losses,
};
