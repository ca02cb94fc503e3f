//! How often nets are 0 under a stimulus.

use std::marker::Model;

/// On how many rows of a stimulus each net of a machine is 0 while the clock is low.
///
/// There is a number for each net, and none is above that of the rows.
#[derive(Debug, Drop)]
pub struct NetZeros<'a> {
    /// For each net the number of rows at whose low moment it is 0.
    pub zeros: &'a [u32],

    /// The number of rows.
    pub rows: u32,
}

impl<'a> Model for NetZeros<'a> {
    ghost use Rattle.cg_stage_list_laws.specs.Literals.{ZeroCounts};

    ghost Value = { ZeroCounts };

    ghost view = { λ s. record { zeros = s.zeros.now; rows = s.rows } };
}
