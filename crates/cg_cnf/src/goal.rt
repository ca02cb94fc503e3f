//! The formula of a goal.

ghost use Rattle.std.specs.Prelude.{◌≡◌, ◌++◌, ◌∷◌, [], List, Bool, IsTrue, IfOk, OnOk, take};
ghost use Rattle.cg_aig.specs.Aig.{aig_ops};
ghost use Rattle.cg_formula.specs.Bounds.{IsFormula};
ghost use Rattle.cg_formula.specs.Satisfiable.{IsSatisfiable, Satisfies};
ghost use Rattle.cg_cnf.specs.Clauses.{IsOneAt, clause_of, formula_of, goal_clauses, lit_of, node_clauses};

use cg_aig::{Aig, AigLit};
use cg_formula::{ClauseList, Formula, Lit};
use std::alloc::{AllocError, Global};

/// The formula of a goal, which is a literal of the list.
///
/// Its variables are the nodes but the constant. It is satisfiable exactly where some leaf bits make the goal
/// 1: each such bits give values of the nodes that satisfy it, and the first variables of what satisfies it
/// are such bits.
pub fn formula(alloc: Global, aig: &Aig, goal: AigLit) -> Result<Formula, AllocError>
    requires { IsTrue (aig_ops.is_valid aig.now goal) }
    ensures clauses { IfOk result (λ made. made ≡ formula_of aig.now goal) }
    ensures bounds { IfOk result (λ made. IsFormula made) }
    ensures if_one { IfOk result (λ made. (bits : List Bool) → IsOneAt aig.now goal bits → IsSatisfiable made) }
    ensures only_if_one { IfOk result (λ made. (model : List Bool) → Satisfies model made → IsOneAt aig.now goal (take aig.now.number model)) }
{
    let first = 1 + aig.leaves();
    let nodes = aig.ands() as usize;
    // Each node has two clauses of two literals and one of three; the goal has at most one literal.
    let mut clauses = ClauseList::with_capacity(alloc, 3 * nodes + 1, 7 * nodes + 1)?;
    'nodes: for k in 0..aig.ands() {
        let (a, b) = aig.pair(k);
        push_node(first + k, a, b, &mut clauses)?;
    }
    push_goal(goal, &mut clauses)?;
    Ok(Formula {
        variables: aig.leaves() + aig.ands(),
        clauses,
    })
}

/// Puts the clauses of an and-node behind the others.
fn push_node(node: u32, a: AigLit, b: AigLit, clauses: &mut ClauseList) -> Result<(), AllocError>
    ensures { OnOk result (clauses.new ≡ clauses.old ++ node_clauses node (a, b)) }
{
    let lit = Lit {
        variable: node,
        inverted: false,
    };
    let left = lit_of(a);
    let right = lit_of(b);
    clauses.push(&[lit.inverse(), left])?;
    clauses.push(&[lit.inverse(), right])?;
    clauses.push(&[lit, left.inverse(), right.inverse()])
}

/// Puts the clause of the goal behind the others: an empty one where the goal is the constant 0, and none
/// where it is the constant 1.
fn push_goal(goal: AigLit, clauses: &mut ClauseList) -> Result<(), AllocError>
    ensures { OnOk result (clauses.new ≡ clauses.old ++ goal_clauses goal) }
{
    match goal.number() {
        0 => clauses.push(&[]),
        1 => Ok(()),
        _ => clauses.push(&[lit_of(goal)]),
    }
}

/// The literal of a formula that says what a literal of the list says.
fn lit_of(lit: AigLit) -> Lit
    ensures { result ≡ lit_of lit }
{
    let number = lit.number();
    Lit {
        variable: number / 2,
        inverted: number % 2 != 0,
    }
}
