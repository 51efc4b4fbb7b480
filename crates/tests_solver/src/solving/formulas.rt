//! Formulas for the tests.

use dimacs::{Clause, Formula, Lit};
use std::alloc::{AllocError, Global};

/// The clause list of store buffering: an order of four operations, of which the clauses 3 to 10 say that it is transitive.
pub const STORE_BUFFERING: [&[i32]; 14] = [
    &[1],
    &[6],
    &[-1, -4, 2],
    &[1, 4, -2],
    &[-1, -5, 3],
    &[1, 5, -3],
    &[-2, -6, 3],
    &[2, 6, -3],
    &[-4, -6, 5],
    &[4, 6, -5],
    &[7],
    &[-7, 4],
    &[8],
    &[-8, -3],
];

/// Four pigeons do not fit into three holes, of which each has room for one: variable 3p + h + 1 says that pigeon p sits in hole h.
pub const PIGEONHOLE: [&[i32]; 22] = [
    &[1, 2, 3],
    &[4, 5, 6],
    &[7, 8, 9],
    &[10, 11, 12],
    &[-4, -1],
    &[-7, -1],
    &[-7, -4],
    &[-10, -1],
    &[-10, -4],
    &[-10, -7],
    &[-5, -2],
    &[-8, -2],
    &[-8, -5],
    &[-11, -2],
    &[-11, -5],
    &[-11, -8],
    &[-6, -3],
    &[-9, -3],
    &[-9, -6],
    &[-12, -3],
    &[-12, -6],
    &[-12, -9],
];

/// The literals of these numbers.
pub fn literals_of(alloc: Global, numbers: &[i32]) -> Result<Vec<Lit>, AllocError> {
    let mut literals = Vec::new(alloc);
    for number in numbers {
        literals.push(Lit::new(*number).unwrap_or_default())?;
    }
    Ok(literals)
}

/// Adds the clause of these numbers.
pub fn add(alloc: Global, clauses: &mut Vec<Clause>, numbers: &[i32]) -> Result<(), AllocError> {
    let literals = literals_of(alloc, numbers)?;
    clauses.push(Clause::from_slice(alloc, literals.as_slice())?)?;
    Ok(())
}

/// The formula of these clauses, or one without clauses if they are not over this number of variables.
pub fn formula_of(alloc: Global, variables: u32, clauses: Vec<Clause>) -> Formula {
    if Formula::fits(variables, clauses.as_slice()) {
        Formula::new(variables, clauses)
    } else {
        Formula::new(0, Vec::new(alloc))
    }
}

/// The formula of these lists of numbers.
pub fn listed(alloc: Global, variables: u32, lists: &[&[i32]]) -> Result<Formula, AllocError> {
    let mut clauses = Vec::new(alloc);
    for numbers in lists {
        add(alloc, &mut clauses, numbers)?;
    }
    Ok(formula_of(alloc, variables, clauses))
}
