//! Rows of a stimulus, played on a netlist, and who watches its history.
//!
//! A netlist and a stimulus go in, and a [`Player`](player::Player) goes through the played history, moment by moment.
//!
//! A [`Watcher`](watcher::Watcher) is shown a netlist and then moments of it, one by one, and says a line of them. The three
//! watchers of this crate count.
//!
//! Modules, as data flows:
//!
//! - [`risen`]: how many registers rose at a moment;
//! - [`player`]: a place in the played history;
//! - [`rows`]: what is said of the rows, and [`watched_rows`]: the same with the line of a watcher;
//! - [`edges`]: the edges of the rows alone, or with the line of a watcher;
//! - [`zeros`]: how often nets are 0 at the low moments of the rows;
//! - [`watcher`]: who is shown the moments, and says a line of them, and [`showing`]: how it is shown the rows;
//! - [`edge_count`]: the rises of registers, [`toggle_count`]: the changes of nets, and [`clock_count`]: the rises of each clock
//!   net.
#![tactic(auto)]

pub mod clock_count;
pub mod edge_count;
pub mod edges;
pub mod player;
mod risen;
pub mod rows;
mod showing;
pub mod toggle_count;
pub mod watched_rows;
pub mod watcher;
pub mod zeros;
