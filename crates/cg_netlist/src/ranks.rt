//! How deep each logic cell lies.
//!
//! A cell has a rank as soon as all cells above it, those that drive its inputs, have one. So the search goes up
//! from a cell, depth first: it looks at the cells above it until it meets one without a rank, goes on with that one,
//! and comes back when that has its rank. The cells on the way up wait on a stack. Where the search meets a cell that
//! it has seen and that has no rank, the way up leads into a cycle, and no cell on the stack will ever have one.

ghost use Rattle.std.specs.Prelude.{◌≡◌, ℕ, ◌+◌, ◌<◌, length, All, MatchOption, OnOk};
ghost use Rattle.std.specs.Prelude.{None, Some, [], true, IfOk, unwrap_or};
ghost use Rattle.cg_net.specs.NetSets.{is_in};
ghost use Rattle.cg_netlist.specs.inner.Ranking.{Advances, HasLooked, HasVisited, IsGraph, IsSound, Looks, NamesCells};
ghost use Rattle.cg_netlist.specs.inner.Ranking.{entered, entry, met, ranks_in, unsearched, was_seen, with_rank, with_top};
ghost use Rattle.cg_netlist.specs.Ranks.{driving_cell, ranks_of};
ghost use Rattle.cg_netlist.specs.declared.ranks.Progress.{Progress};

use crate::fan_in::FanIn;
use crate::net_driver::entry;
use crate::parts::Logic;
use std::alloc::{AllocError, Global};
use std::marker::Model;

/// How many of the cells above a cell the search has looked at, and the rank that these alone would give the cell.
#[derive(Clone, Copy)]
struct Progress {
    cell: usize,
    place: usize,
    rank: usize,
}

/// The rank of each cell, or `None` for a cell whose cone holds a cycle of cells. `drivers` gives the cell that
/// drives a net, for each net.
pub(crate) fn ranks(
    alloc: Global,
    cells: &[Logic],
    drivers: &[Option<usize>],
) -> Result<Vec<Option<usize>>, AllocError>
    requires graph { IsGraph drivers.now cells.now }
    requires drivers { (net : ℕ) → net < length drivers.now → entry drivers.now net ≡ driving_cell cells.now net }
    ensures { IfOk result (λ ranks. ranks.items ≡ ranks_of cells.now) }
{
    let fan_in = FanIn::new(alloc, cells, drivers)?;
    search(alloc, &fan_in)
}

/// The rank of each cell, by the cells above each.
fn search(alloc: Global, fan_in: &FanIn) -> Result<Vec<Option<usize>>, AllocError>
    requires { NamesCells fan_in.now }
    ensures { IfOk result (λ ranks. ranks.items ≡ ranks_in fan_in.now) }
{
    let mut ranking = Ranking::new(alloc, fan_in.len())?;
    for cell in 0..fan_in.len() {
        ranking.visit(fan_in, cell)?;
    }
    Ok(ranking.into_ranks())
}

/// The search at a moment: the rank of each cell that has one, which cells were seen, and the cells on the way up
/// from the first of the stack.
#[derive(Drop)]
struct Ranking {
    ranks: Vec<Option<usize>>,
    seen: Vec<bool>,
    stack: Vec<Progress>,
}

impl Model for Ranking {
    ghost use Rattle.cg_netlist.specs.inner.Ranking.{Search};

    ghost Value = { Search };

    ghost view = { λ r. record { ranks = r.ranks.items; seen = r.seen.items; stack = r.stack.items } };
}

impl Ranking {
    /// Of `cells` cells, none of which was seen.
    fn new(alloc: Global, cells: usize) -> Result<Ranking, AllocError>
        ensures { IfOk result (λ ranking. ranking ≡ unsearched cells) }
    {
        Ok(Ranking {
            ranks: vec![in alloc; None; cells]?,
            seen: vec![in alloc; false; cells]?,
            stack: Vec::new(alloc),
        })
    }

    /// Goes up from a cell, if it was not seen before.
    fn visit(&mut self, fan_in: &FanIn, cell: usize) -> Result<(), AllocError>
        requires names { NamesCells fan_in.now }
        requires visited { HasVisited fan_in.now self.old cell }
        requires cell { cell < length fan_in.now }
        ensures { OnOk result (HasVisited fan_in.now self.new (cell + 1)) }
    {
        if self.has_seen(cell) {
            return Ok(());
        }
        self.enter(cell)?;
        self.climb(fan_in)
    }

    /// Goes on until the stack is empty.
    fn climb(&mut self, fan_in: &FanIn) -> Result<(), AllocError>
        requires names { NamesCells fan_in.now }
        requires sound { IsSound fan_in.now self.old }
        ensures sound { OnOk result (IsSound fan_in.now self.new) }
        ensures back { OnOk result (self.new.stack ≡ []) }
        ensures seen { OnOk result ((k : ℕ) → was_seen self.old k ≡ true → was_seen self.new k ≡ true) }
    {
        'stack: while let Some(top) = self.leave() {
            self.step(fan_in, top)?;
        }
        Ok(())
    }

    /// Goes on with the cell that was on top of the stack: gives it its rank, or goes up from it.
    fn step(&mut self, fan_in: &FanIn, mut top: Progress) -> Result<(), AllocError>
        requires names { NamesCells fan_in.now }
        requires sound { IsSound fan_in.now (with_top self.old top) }
        ensures { OnOk result (Advances fan_in.now (with_top self.old top) self.new) }
    {
        match self.look(fan_in, &mut top) {
            None => {
                self.rank(top);
                Ok(())
            }
            Some(above) => self.meet(top, above),
        }
    }

    /// Looks on at the cells above a cell.
    fn look(&self, fan_in: &FanIn, progress: &mut Progress) -> Option<usize>
        requires names { NamesCells fan_in.now }
        requires sound { IsSound fan_in.now (with_top self.now progress.old) }
        ensures { Looks fan_in.now self.now.ranks progress.old progress.new result }
    {
        look_on(fan_in.of(progress.cell), &self.ranks, progress)
    }

    /// Gives a cell the rank that the cells above it were found to give it.
    fn rank(&mut self, progress: Progress)
        requires { progress.cell < length self.old.ranks }
        ensures { self.new ≡ with_rank self.old progress }
    {
        self.ranks[progress.cell] = Some(progress.rank);
    }

    /// Goes up from the top to a cell without a rank, or gives the stack up where that was seen before.
    fn meet(&mut self, top: Progress, above: usize) -> Result<(), AllocError>
        requires { above < length self.old.seen }
        ensures { OnOk result (self.new ≡ met self.old top above) }
    {
        if self.has_seen(above) {
            self.stack.clear();
            return Ok(());
        }
        self.stack.push(top)?;
        self.enter(above)
    }

    /// Whether a cell was seen.
    fn has_seen(&self, cell: usize) -> bool
        requires { cell < length self.now.seen }
        ensures { result ≡ was_seen self.now cell }
    {
        self.seen[cell]
    }

    /// Puts a cell that is now seen on top of the stack.
    fn enter(&mut self, cell: usize) -> Result<(), AllocError>
        requires { cell < length self.old.seen }
        ensures { OnOk result (self.new ≡ entered self.old cell) }
    {
        self.seen[cell] = true;
        self.stack.push(Progress {
            cell,
            place: 0,
            rank: 0,
        })?;
        Ok(())
    }

    /// Takes the cell on top off the stack.
    fn leave(&mut self) -> Option<Progress>
        ensures { MatchOption result
            ((self.new ≡ self.old) × (self.old.stack ≡ []))
            (λ top. self.old ≡ with_top self.new top) }
    {
        self.stack.pop()
    }

    /// The ranks that were found.
    fn into_ranks(self) -> Vec<Option<usize>>
        ensures { result.items ≡ self.ranks }
    {
        let Ranking {
            ranks,
            seen: _,
            stack: _,
        } = self;
        ranks
    }
}

/// Goes on over the cells above a cell, to the first without a rank; answers that one.
fn look_on(above: &[usize], ranks: &[Option<usize>], progress: &mut Progress) -> Option<usize>
    requires cells { All (λ k. k < length ranks.now) above.now }
    requires ranks { (k rank : ℕ) → entry ranks.now k ≡ Some rank → rank < length ranks.now }
    requires looked { HasLooked ranks.now above.now progress.old }
    ensures cell { progress.new.cell ≡ progress.old.cell }
    ensures looks { HasLooked ranks.now above.now progress.new }
    ensures stops { MatchOption result
        (progress.new.place ≡ length above.now)
        (λ k. (is_in above.now k ≡ true) × (entry ranks.now k ≡ None)) }
{
    while progress.place < above.len() {
        let cell = above[progress.place];
        let Some(rank) = entry(ranks, cell) else {
            return Some(cell);
        };
        progress.rank = progress.rank.max(rank + 1);
        progress.place += 1;
    }
    None
}
