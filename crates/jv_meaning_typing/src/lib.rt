//! Linking and type checking: definitions of resolution, access, selection and layouts (JVMS 5.4, 5.5), of the rules of instructions,
//! typings and verdicts (4.10.1), and laws.
#![tactic(auto)]

mod law;
mod linking_law;
mod verdict;

pub use law::{
    instruction_at_is, one_falls, one_judgement, one_judgement_of_file, typing_grows,
    typing_is_local, typing_or_fault, verdict_rows, worked_rows,
};
pub use linking_law::{
    field_is_used, final_is_run, init_is_run, init_order_is_above, init_order_is_by_rule,
    layout_extends, layout_is_by_rule, linking_rows, loadable_resolves, method_is_called,
    named_is_run, never_verify_error, overriding_in_one_walk, overriding_is_by_rule,
    overriding_upward, private_is_run, selected_is_run, special_is_run,
};
pub use verdict::{Verdict, VerifyFault, VerifyRule};
