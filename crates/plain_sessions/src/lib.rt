//! What several sessions ask of one server, and what it may answer them: pieces, arrivals, transactions, histories, units.
#![tactic(auto)]

mod laws;

pub use laws::{
    arrivals_are_one, arrivals_are_there, arrivals_only_grow, each_session_is_a_stream,
    histories_are_covered, histories_are_runs, moments_never_fall, null_where_changed,
    one_session_is_a_run, one_stream_is_a_session, pieces_are_one, pieces_are_there,
    units_are_apart,
};
