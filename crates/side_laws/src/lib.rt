//! Laws of the functional side along a run: it may obey the orders of the run one after the other,
//! what it has committed stays, and at the end it holds the state of the monolithic machine.
//!
//! Each function does nothing: its clauses are the laws.
#![tactic(auto)]

mod along;

pub use along::{
    functional_side_goes_along, functional_side_holds_the_end,
    functional_side_may_obey_what_comes_next, what_a_functional_side_commits_stays,
};
