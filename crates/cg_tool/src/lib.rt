//! The top call of `clockgate`.
//!
//! Words of a command line, a shelf and watchers go in. A status comes out, and what the words ask for was loaded from
//! the shelf, stored there and said, or one line of complaint tells why not.
//!
//! The modules, in the order in which data flows through them:
//!
//! - `watching`: the watchers, of which the words may ask for one;
//! - `modes`: `gate`, `sim`, `lrat` and `demo`, each from its files, of which `demo` has none, to what is to be put out;
//! - `top`: the top call, [`run`].
#![tactic(auto)]

mod modes;
mod top;
mod watching;

pub use cg_run::Status;
pub use top::run;
