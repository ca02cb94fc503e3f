//! The text of an expression, as Liberty writes functions, read over the names of pins.
//!
//! In go the bytes of the text and the names. Out comes the expression that the text stands for, or its
//! first fault from the left, with its place.
//!
//! In the order in which data flows through them:
//!
//! - `tokens`: the words and signs of the text;
//! - `pending`, `join`: what waits for the operand that comes, and operators on expressions;
//! - `fault`: why a text is no expression;
//! - `reading`: reading token by token;
//! - `check`: the first fault alone, without the expression.
#![tactic(auto)]

mod check;
mod fault;
mod join;
mod pending;
mod reading;
mod tokens;

pub use check::{Names, check_expr};
pub use fault::ExprFault;
pub use reading::read_expr;
