//! What drives the nets of a cone.

ghost use Rattle.std.specs.Prelude.{◌≡◌, []};

use cg_list::Seq;
use std::alloc::Global;

/// What drives the nets of a cone, as it is met: the logic cells by their places in walk order, and the data inputs and the
/// registers by their numbers.
#[derive(Drop)]
pub struct Edge {
    /// The places of the logic cells.
    pub cells: Seq<u32>,

    /// The numbers of the data inputs.
    pub inputs: Seq<u32>,

    /// The numbers of the registers; one may stand there twice.
    pub registers: Seq<u32>,
}

impl Edge {
    /// Nothing yet.
    pub fn new(alloc: Global) -> Edge
        ensures { result ≡ record { cells = []; inputs = []; registers = [] } }
    {
        Edge {
            cells: Seq::new(alloc),
            inputs: Seq::new(alloc),
            registers: Seq::new(alloc),
        }
    }
}
