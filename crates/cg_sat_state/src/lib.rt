//! What a search for bits or for a proof stands on: its clauses, its log so far, and the literals that are true.
//!
//! A formula goes in, with the clauses that are learnt, their hints, and the literals that are made true and taken back.
//! Out come the clause at a place, whether a literal is true and since when, and at the end the log, which is accepted
//! and adds the empty clause. What to learn, to decide and to delete is not known here. It shares no code with the
//! checker of logs.
//!
//! In the order in which data flows through them:
//!
//! - `clauses`: the clauses of the formula and those that were learnt, by place;
//! - `draft`: the log so far, with the clauses that are live;
//! - `trail`: the literals that are true, each with its reason.
#![tactic(auto)]

pub mod clauses;
pub mod draft;
pub mod trail;
