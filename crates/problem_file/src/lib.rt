//! Problems from texts: the whole grammar of a problem text, and its first bad line.
#![tactic(auto)]

mod draft;
mod fault;
mod laws;
mod order;
mod reading;

pub use fault::ParseFault;
pub use laws::{
    every_text_is_judged, no_problem_with_a_bad_line, one_bad_line, one_problem,
    problems_are_in_form, whole_problems_are_in_order,
};
pub use reading::parse;
