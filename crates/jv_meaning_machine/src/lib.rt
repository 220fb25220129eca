//! The machine (JVMS 2, 5.5, 6): definitions of what a guest's classes do, step by step, with a named fault wherever code
//! that was not verified could go wrong.
#![tactic(auto)]

mod end_law;
mod feed_law;
mod forward_law;
mod main_law;
mod new_law;
mod row;
mod run_law;
mod show_law;
mod step_law;
mod store_law;
mod world_law;

pub use end_law::{
    end_fits_alone, end_fits_behind, ended_guest_stays, ended_stays, ended_stays_over,
};
pub use feed_law::{
    feed_joins, feed_shows_later, same_bytes_do_the_same, same_bytes_fault_the_same,
    same_bytes_show_the_same,
};
pub use forward_law::{constructed_stays, erroneous_stays, initialized_stays, throws_never_fall};
pub use main_law::{main_is_its_own, no_main_without_files};
pub use new_law::{
    constant_pushes, new_array_makes, new_makes, new_multi_array_makes, new_reference_array_makes,
};
pub use row::{
    array_load_rows, array_rows, array_store_rows, branch_rows, call_rows, cast_rows,
    constant_rows, construction_rows, conversion_rows, fault_rows, feed_rows, field_rows,
    form_rows, handler_rows, host_rows, initialization_rows, instance_of_rows, int_rows,
    link_error_rows, link_order_rows, local_rows, long_rows, new_array_rows, object_rows,
    output_rows, passed_rows, place_rows, shift_rows, switch_rows,
};
pub use run_law::{
    alone_goes_on, alone_steps_on, cells_are_budgeted, first_objects_cost, objects_are_never_fewer,
    objects_have_fields, objects_stay, output_grows, output_is_budgeted, run_keeps,
    statics_are_there, step_keeps, words_are_budgeted,
};
pub use show_law::{
    ended_shows_the_same, faults_show_nothing, faults_stay, judged_by_verdicts, one_judged,
    shows_more, shows_no_main, shows_one_thing,
};
pub use step_law::{execution_keeps, outcome_stays, step_acts, step_goes_on};
pub use store_law::{
    array_store_stores, other_fields_stay, others_leave_all, others_store_nothing, putfield_stores,
    putstatic_stores, reference_array_store_stores, stored_is_there,
};
pub use world_law::judged_is_rooted;
