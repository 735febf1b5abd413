//! Laws of linked packages: what linking one more leaves of the others, that all entries resolve, and which methods of the platform classes
//! reach. Laws of code that runs for an applet: what it leaves as it is, what an open transaction takes back, and which tries of PINs outlast it.
#![tactic(auto)]

mod byte_file;
mod class_laws;
mod isolation_laws;
mod method_laws;
mod pin_update_laws;
mod resolution_laws;
mod transaction_laws;

pub use byte_file::{ByteFile, a_store_begins_in_step};
pub use class_laws::{
    applets_of_linked_packages_have_aids, fields_are_cells_of_their_kind,
    instances_have_the_cells_of_the_platform, linked_packages_know_their_classes,
    methods_of_the_platform_are_reached_by_their_classes,
};
pub use isolation_laws::{
    array_instructions_leave_objects_out_of_reach, contexts_are_isolated,
    entries_resolve_to_static_methods, field_instructions_leave_objects_out_of_reach,
    object_instructions_leave_objects_out_of_reach, objects_left_alone_keep_their_cells,
    platform_methods_leave_objects_out_of_reach, runs_are_steps, steps_leave_objects_out_of_reach,
};
pub use method_laws::{
    classes_of_the_platform_have_no_code, linked_packages_know_their_methods,
    platform_tokens_are_bytes, tables_without_the_line_have_no_further_names,
    virtual_calls_run_the_method_of_their_receiver,
};
pub use pin_update_laws::wrong_guesses_take_a_try_for_good;
pub use resolution_laws::{
    all_entries_resolve, fields_of_the_platform_have_no_names, look_ups_stay_with_one_more_package,
};
pub use transaction_laws::{
    code_keeps_the_order_of_transactions, heaps_after_a_loss_differ_in_what_was_set_for_good,
    what_a_transaction_found_stays,
};
