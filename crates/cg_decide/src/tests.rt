//! Goals whose decisions are known: bits are tried, and each log goes through the checker.

use crate::decision::{Decider, Decision};
use cg_aig::{Aig, AigLit};
use cg_formula::write_dimacs;
use cg_lrat::{Checker, Verdict};
use std::alloc::Global;

// What is answered to a goal.
#[derive(Clone, Copy, Debug, PartialEq, Eq)]
enum Answer {
    Never,
    Sometimes,
    LogFails,
    Failed,
}

fn both(aig: &mut Aig, a: AigLit, b: AigLit) -> Option<AigLit> {
    if !aig.contains(a) || !aig.contains(b) {
        return None;
    }
    aig.and(a, b).ok()
}

fn either(aig: &mut Aig, a: AigLit, b: AigLit) -> Option<AigLit> {
    if !aig.contains(a) || !aig.contains(b) {
        return None;
    }
    aig.or(a, b).ok()
}

fn one_of(aig: &mut Aig, a: AigLit, b: AigLit) -> Option<AigLit> {
    if !aig.contains(a) || !aig.contains(b) {
        return None;
    }
    aig.xor(a, b).ok()
}

fn leaf(aig: &Aig, k: u32) -> Option<AigLit> {
    if k < aig.leaves() {
        Some(aig.leaf(k))
    } else {
        None
    }
}

// That the and of the first leaves is 1: one choice of bits in 2 ^ count, which random patterns hardly have.
fn all_of(aig: &mut Aig, count: u32) -> Option<AigLit> {
    let mut all = leaf(aig, 0)?;
    for k in 1..count {
        let next = leaf(aig, k)?;
        all = both(aig, all, next)?;
    }
    Some(all)
}

// That the sum of three bits says two different things where the parts are added in another order, and the same for
// their majority.
fn sums_differ(aig: &mut Aig) -> Option<AigLit> {
    let (a, b, c) = (leaf(aig, 0)?, leaf(aig, 1)?, leaf(aig, 2)?);
    let left = one_of(aig, a, b)?;
    let left = one_of(aig, left, c)?;
    let right = one_of(aig, b, c)?;
    let right = one_of(aig, a, right)?;
    let sums = one_of(aig, left, right)?;
    let (ab, bc, ca) = (both(aig, a, b)?, both(aig, b, c)?, both(aig, c, a)?);
    let two = either(aig, ab, bc)?;
    let first = either(aig, two, ca)?;
    let some = either(aig, b, c)?;
    let with_a = both(aig, a, some)?;
    let second = either(aig, with_a, bc)?;
    let carries = one_of(aig, first, second)?;
    either(aig, sums, carries)
}

fn answer_to(alloc: Global, decider: &mut Decider, aig: &Aig, goal: AigLit) -> Answer {
    if !aig.contains(goal) {
        return Answer::Failed;
    }
    match decider.decide(aig, goal) {
        Ok(Decision::Sometimes(_)) => Answer::Sometimes,
        Ok(Decision::Never(formula, log)) => match Checker::check(alloc, &formula, &log) {
            Ok(Verdict::Accepted) => Answer::Never,
            Ok(_) => Answer::LogFails,
            Err(_) => Answer::Failed,
        },
        Err(_) => Answer::Failed,
    }
}

fn shown(decider: &mut Decider, aig: &Aig, goal: AigLit) -> Option<Vec<bool>> {
    if !aig.contains(goal) {
        return None;
    }
    match decider.decide(aig, goal) {
        Ok(Decision::Sometimes(bits)) => Some(bits),
        Ok(Decision::Never(_formula, _log)) => None,
        Err(_) => None,
    }
}

fn found(decider: &mut Decider, aig: &Aig, goal: AigLit) -> Option<Vec<bool>> {
    if !aig.contains(goal) {
        return None;
    }
    match decider.find(aig, goal) {
        Ok(found) => found,
        Err(_) => None,
    }
}

fn refuted(alloc: Global, decider: &mut Decider, aig: &Aig, goal: AigLit) -> Option<Vec<u8>> {
    if !aig.contains(goal) {
        return None;
    }
    match decider.decide(aig, goal) {
        Ok(Decision::Never(formula, _log)) => write_dimacs(alloc, &formula).ok(),
        Ok(Decision::Sometimes(_bits)) => None,
        Err(_) => None,
    }
}

#[test]
fn a_leaf_and_its_inverse(rt: HostRuntime) {
    let alloc = rt.alloc();
    let mut aig = Aig::new(alloc, 1).expect(&rt, "1 leaf");
    let a = leaf(&aig, 0).expect(&rt, "the leaf");
    let never = both(&mut aig, a, a.not()).expect(&rt, "no node is needed");
    let mut decider = Decider::new(alloc);
    let bits = shown(&mut decider, &aig, a).expect(&rt, "a leaf is 1 where its bit is");
    assert_eq!(rt; bits.as_slice(), [true].as_slice());
    let text = refuted(alloc, &mut decider, &aig, never).expect(&rt, "no bit makes both 1");
    assert_eq!(rt; text.as_slice(), b"p cnf 1 1\n0\n".as_slice());
    assert_eq!(rt; answer_to(alloc, &mut decider, &aig, never), Answer::Never);
    assert_eq!(rt;
        answer_to(alloc, &mut decider, &aig, never.not()),
        Answer::Sometimes
    );
}

#[test]
fn goals_for_the_solver(rt: HostRuntime) {
    let alloc = rt.alloc();
    let mut decider = Decider::new(alloc);
    let mut wide = Aig::new(alloc, 40).expect(&rt, "40 leaves");
    let all = all_of(&mut wide, 40).expect(&rt, "room for the nodes");
    assert_eq!(rt;
        answer_to(alloc, &mut decider, &wide, all),
        Answer::Sometimes
    );
    assert_eq!(rt;
        answer_to(alloc, &mut decider, &wide, all.not()),
        Answer::Sometimes
    );
    let mut adder = Aig::new(alloc, 3).expect(&rt, "3 leaves");
    let differ = sums_differ(&mut adder).expect(&rt, "room for the nodes");
    assert_eq!(rt;
        answer_to(alloc, &mut decider, &adder, differ),
        Answer::Never
    );
    assert_eq!(rt;
        answer_to(alloc, &mut decider, &adder, differ.not()),
        Answer::Sometimes
    );
    let first = leaf(&wide, 0).expect(&rt, "the leaf");
    let none = both(&mut wide, all, first.not()).expect(&rt, "room for a node");
    assert_eq!(rt; answer_to(alloc, &mut decider, &wide, none), Answer::Never);
}

#[test]
fn goals_by_all_leaf_bits(rt: HostRuntime) {
    let alloc = rt.alloc();
    let mut decider = Decider::new(alloc);
    let mut aig = Aig::new(alloc, 11).expect(&rt, "11 leaves");
    let all = all_of(&mut aig, 11).expect(&rt, "room for the nodes");
    let bits = found(&mut decider, &aig, all).expect(&rt, "it is 1 where each leaf is");
    assert_eq!(rt; bits.as_slice(), [true; 11].as_slice());
    let mut adder = Aig::new(alloc, 3).expect(&rt, "3 leaves");
    let differ = sums_differ(&mut adder).expect(&rt, "room for the nodes");
    assert_eq!(rt; found(&mut decider, &adder, differ).is_none(), true);
    assert_eq!(rt; found(&mut decider, &adder, differ.not()).is_none(), false);
}
