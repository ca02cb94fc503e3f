//! What guides a search for bits or for a proof: which clauses to look at, what to decide, and which clauses to delete.
//!
//! In go the clauses of the formula and those that are learnt, the literals that become true, and which clauses took part in
//! a conflict. Out come proposals. No answer rests on them: each is tried before it is used, and what they miss is found where
//! all variables have values. So its functions promise little but to return. The clauses and the literals that are true
//! stand in `cg_sat_state`.
//!
//! - [`shorts`], [`watches`]: which clauses are looked at when a literal becomes false;
//! - [`order`]: which variable is decided, and as what;
//! - [`merits`]: which learnt clauses are of use;
//! - [`guide`]: all of these, for one search.
#![tactic(auto)]

pub mod guide;
pub mod merits;
pub mod order;
pub mod shorts;
pub mod watches;
