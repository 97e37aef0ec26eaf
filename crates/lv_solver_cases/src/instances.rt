//! Clause sets from words. A shape is a name and numbers:
//!
//! - `set VARS N ..`: clauses, each ended by 0, where `n` is the variable `n - 1` and `-n` its negation;
//! - `chain VARS`: each variable implies the next one, last one first, and then the first variable alone;
//! - `pigeons P H`: each of `P` pigeons sits in one of `H` holes, and no two of them in the same one.

use lv_cnf::{Clause, Clauses, List, Lit, Memory};
use std::alloc::Global;

/// The numbers of a text; none where some word is no number.
pub fn numbers(alloc: Global, text: &str) -> Result<Option<Vec<i32>>, Memory> {
    let mut numbers = Vec::new(alloc);
    for word in text.split_ascii_whitespace() {
        match word.parse::<i32>() {
            Ok(number) => numbers.push(number)?,
            Err(_) => return Ok(None),
        }
    }
    Ok(Some(numbers))
}

/// The literal that a number stands for; none for 0.
pub fn literal(number: i32) -> Option<Lit> {
    let var = number.unsigned_abs().checked_sub(1)?;
    Some(Lit {
        var,
        positive: number > 0,
    })
}

/// The clauses of these numbers, each ended by 0.
pub fn clauses(alloc: Global, numbers: &[i32]) -> Result<Vec<Clause>, Memory> {
    let mut list = Vec::new(alloc);
    let mut lits = Vec::new(alloc);
    for number in numbers {
        match literal(*number) {
            Some(lit) => lits.push(lit)?,
            None => {
                list.push(Clause::of(alloc, lits.as_slice())?)?;
                lits.clear();
            }
        }
    }
    Ok(list)
}

/// The clauses that say of each variable that the next one follows, last one first, and then the first variable.
fn chain(alloc: Global, vars: u32) -> Result<Vec<Clause>, Memory> {
    let mut list = Vec::new(alloc);
    for var in (1..vars).rev() {
        let step = [Lit::negative(var - 1), Lit::positive(var)];
        list.push(Clause::of(alloc, &step)?)?;
    }
    list.push(Clause::of(alloc, &[Lit::positive(0)])?)?;
    Ok(list)
}

/// The variable that says that a pigeon sits in a hole. Numbers past `2 ^ 32` wrap; such sets are refused as out of range.
fn seat(holes: u32, pigeon: u32, hole: u32) -> u32 {
    pigeon.wrapping_mul(holes).wrapping_add(hole)
}

/// The pigeon sits in one of the holes.
fn seats(alloc: Global, holes: u32, pigeon: u32) -> Result<Clause, Memory> {
    let mut lits = Vec::new(alloc);
    for hole in 0..holes {
        lits.push(Lit::positive(seat(holes, pigeon, hole)))?;
    }
    Clause::of(alloc, lits.as_slice())
}

/// The pigeon sits in no hole with one of those before it.
fn push_apart(
    alloc: Global,
    list: &mut Vec<Clause>,
    holes: u32,
    pigeon: u32,
) -> Result<(), Memory> {
    for other in 0..pigeon {
        for hole in 0..holes {
            let pair = [
                Lit::negative(seat(holes, other, hole)),
                Lit::negative(seat(holes, pigeon, hole)),
            ];
            list.push(Clause::of(alloc, &pair)?)?;
        }
    }
    Ok(())
}

/// The clauses of pigeons and holes.
fn pigeons(alloc: Global, count: u32, holes: u32) -> Result<Vec<Clause>, Memory> {
    let mut list = Vec::new(alloc);
    for pigeon in 0..count {
        list.push(seats(alloc, holes, pigeon)?)?;
        push_apart(alloc, &mut list, holes, pigeon)?;
    }
    Ok(list)
}

/// The clause set of a shape; none where there is no such shape.
pub fn instance(alloc: Global, shape: &str, numbers: &[i32]) -> Result<Option<Clauses>, Memory> {
    let (vars, list) = match numbers {
        [vars, lits @ ..] if shape == "set" => (vars.unsigned_abs(), clauses(alloc, lits)?),
        [vars] if shape == "chain" => {
            let vars = vars.unsigned_abs();
            (vars, chain(alloc, vars)?)
        }
        [count, holes] if shape == "pigeons" => {
            let (count, holes) = (count.unsigned_abs(), holes.unsigned_abs());
            (count.wrapping_mul(holes), pigeons(alloc, count, holes)?)
        }
        _ => return Ok(None),
    };
    Ok(Some(Clauses {
        vars,
        list: List::from_vec(list),
    }))
}
