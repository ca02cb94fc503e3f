//! Expressions: functions as Liberty writes them, over numbered variables.

ghost use Rattle.std.specs.Prelude.{◌≡◌, List, Bool, IsTrue, length, IfOk};
ghost use Rattle.cg_cell.specs.Expr.{all_over, any_names, expr_value, is_over, names_variable, term_of, terms_of, values_of};
ghost use Rattle.cg_cell.specs.Term.{has_input, term_value};
ghost use Rattle.cg_cell.specs.Gates.{all_of, any_of, exclusive_or, inverted, odd_of};

use std::alloc::{AllocError, Global};

/// An expression over numbered variables.
///
/// The operands of one level of operators stand in one list, and a run of signs of inversion in one
/// node with its length, so an expression is at most as deep as its brackets and `!` are nested,
/// times a constant. Calls that go down an expression recurse no deeper than that.
#[derive(Drop)]
pub enum Expr {
    /// The constant 0 or 1.
    Constant(bool),

    /// The bit of a variable, by its number.
    Variable(u32),

    /// The operand, inverted as many times as the number says.
    Not(u64, Box<Expr>),

    /// 1 where every operand is 1.
    And(Vec<Expr>),

    /// 1 where some operand is 1.
    Or(Vec<Expr>),

    /// 1 where an odd number of operands is 1.
    Xor(Vec<Expr>),
}

impl Clone for Expr {
    ghost is_clone = { λ x y. term_of y ≡ term_of x };

    #[cycle(clone)]
    fn clone(&self) -> Result<Expr, AllocError> {
        match self {
            Expr::Constant(bit) => Ok(Expr::Constant(*bit)),
            Expr::Variable(variable) => Ok(Expr::Variable(*variable)),
            Expr::Not(signs, operand) => {
                let copy = (**operand).clone()?;
                let boxed = Box::new(*Box::allocator(operand), copy)?;
                Ok(Expr::Not(*signs, boxed))
            }
            Expr::And(operands) => Ok(Expr::And(clone_all(operands, *operands.allocator())?)),
            Expr::Or(operands) => Ok(Expr::Or(clone_all(operands, *operands.allocator())?)),
            Expr::Xor(operands) => Ok(Expr::Xor(clone_all(operands, *operands.allocator())?)),
        }
    }
}

/// Clones of the operands, in their order.
#[cycle(clone)]
fn clone_all(operands: &[Expr], alloc: Global) -> Result<Vec<Expr>, AllocError>
    ensures { IfOk result (λ copies. terms_of copies.items ≡ terms_of operands.now) }
{
    let mut copies = Vec::with_capacity(alloc, operands.len())?;
    'operands: for operand in operands {
        let copy = operand.clone()?;
        copies.push(copy)?;
    }
    Ok(copies)
}

impl Expr {
    /// The bit of the expression, where `bits` has the bit of each of its variables.
    pub fn value(&self, bits: &[bool]) -> bool
        requires { IsTrue (is_over (length bits.now) self.now) }
        ensures value { result ≡ expr_value bits.now self.now }
        ensures term { result ≡ term_value bits.now (term_of self.now) }
    {
        self.bit(bits)
    }

    /// The bit of a node, from the bits of its operands.
    #[cycle(value)]
    fn bit(&self, bits: &[bool]) -> bool
        requires { IsTrue (is_over (length bits.now) self.now) }
        ensures { result ≡ expr_value bits.now self.now }
    {
        match self {
            Expr::Constant(bit) => *bit,
            Expr::Variable(k) => bits[*k as usize],
            Expr::Not(signs, operand) => invert(*signs, operand.bit(bits)),
            Expr::And(operands) => all_one(operands, bits),
            Expr::Or(operands) => any_one(operands, bits),
            Expr::Xor(operands) => odd_one(operands, bits),
        }
    }

    /// Whether variable `k` stands in the expression.
    pub fn names(&self, k: u32) -> bool
        ensures names { result ≡ names_variable k self.now }
        ensures term { result ≡ has_input k (term_of self.now) }
    {
        self.holds(k)
    }

    /// Whether the variable stands in a node, or in one of its operands.
    #[cycle(names)]
    fn holds(&self, k: u32) -> bool
        ensures { result ≡ names_variable k self.now }
    {
        match self {
            Expr::Constant(_) => false,
            Expr::Variable(variable) => *variable == k,
            Expr::Not(_, operand) => operand.holds(k),
            Expr::And(operands) => any_operand_names(operands, k),
            Expr::Or(operands) => any_operand_names(operands, k),
            Expr::Xor(operands) => any_operand_names(operands, k),
        }
    }
}

/// The bit, inverted once for each sign.
fn invert(signs: u64, bit: bool) -> bool
    ensures { result ≡ inverted signs bit }
{
    if signs % 2 == 0 { bit } else { !bit }
}

/// Exclusive or of two bits.
fn differ(a: bool, b: bool) -> bool
    ensures { result ≡ exclusive_or a b }
{
    if a { !b } else { b }
}

/// Whether every operand is 1.
#[cycle(value)]
fn all_one(operands: &[Expr], bits: &[bool]) -> bool
    requires { IsTrue (all_over (length bits.now) operands.now) }
    ensures { result ≡ all_of (values_of bits.now operands.now) }
{
    'operands: for operand in operands {
        if !operand.bit(bits) {
            return false;
        }
    }
    true
}

/// Whether some operand is 1.
#[cycle(value)]
fn any_one(operands: &[Expr], bits: &[bool]) -> bool
    requires { IsTrue (all_over (length bits.now) operands.now) }
    ensures { result ≡ any_of (values_of bits.now operands.now) }
{
    'operands: for operand in operands {
        if operand.bit(bits) {
            return true;
        }
    }
    false
}

/// Whether an odd number of operands is 1.
#[cycle(value)]
fn odd_one(operands: &[Expr], bits: &[bool]) -> bool
    requires { IsTrue (all_over (length bits.now) operands.now) }
    ensures { result ≡ odd_of (values_of bits.now operands.now) }
{
    let mut odd = false;
    'operands: for operand in operands {
        odd = differ(odd, operand.bit(bits));
    }
    odd
}

/// Whether variable `k` stands in some operand.
#[cycle(names)]
fn any_operand_names(operands: &[Expr], k: u32) -> bool
    ensures { result ≡ any_names k operands.now }
{
    'operands: for operand in operands {
        if operand.holds(k) {
            return true;
        }
    }
    false
}
