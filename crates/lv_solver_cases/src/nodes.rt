//! The clauses of propositions: `nodes ATOMS WORD .. / N ..`. The words build propositions over variables below `ATOMS`, each
//! behind its parts: a number for a literal, `true`, `false`, and `andN` or `orN` for the `N` propositions before it. What
//! is left are the roots. Behind `/` stand clauses as numbers, each ended by 0. The answer is the number of variables, `:`
//! and the clauses as numbers.

use crate::instances::{clauses, literal, numbers};
use lv_cnf::{
    Clause, Clauses, List, Lit, Memory, Prop, all_in_range, atoms_below, to_clauses, variables,
};
use std::alloc::Global;

/// Takes so many propositions off the end; none where there are fewer.
fn parts(stack: &mut Vec<Prop>, count: &str) -> Result<Option<List<Prop>>, Memory> {
    let Ok(count) = count.parse::<usize>() else {
        return Ok(None);
    };
    match stack.len().checked_sub(count) {
        Some(start) => Ok(Some(List::from_vec(stack.split_off(start)?))),
        None => Ok(None),
    }
}

/// The proposition of a word; none where the word builds none.
fn node(stack: &mut Vec<Prop>, word: &str) -> Result<Option<Prop>, Memory> {
    if let Some(count) = word.strip_prefix("and") {
        return Ok(parts(stack, count)?.map(Prop::And));
    }
    if let Some(count) = word.strip_prefix("or") {
        return Ok(parts(stack, count)?.map(Prop::Or));
    }
    match word {
        "true" => Ok(Some(Prop::True)),
        "false" => Ok(Some(Prop::False)),
        _ => match word.parse::<i32>() {
            Ok(number) => Ok(literal(number).map(Prop::Lit)),
            Err(_) => Ok(None),
        },
    }
}

/// The propositions that the words build; none where some word builds none.
fn propositions(alloc: Global, text: &str) -> Result<Option<Vec<Prop>>, Memory> {
    let mut stack = Vec::new(alloc);
    for word in text.split_ascii_whitespace() {
        match node(&mut stack, word)? {
            Some(prop) => stack.push(prop)?,
            None => return Ok(None),
        }
    }
    Ok(Some(stack))
}

/// Writes a clause as numbers, ended by 0.
fn push_clause(alloc: Global, text: &mut String, clause: &[Lit]) -> Result<(), Memory> {
    for lit in clause {
        let sign = if lit.positive { "" } else { "-" };
        let number = lit.var as u64 + 1;
        text.push_str(format!(in alloc; " {sign}{number}")?.as_str())?;
    }
    text.push_str(" 0")?;
    Ok(())
}

/// Writes the number of variables and the clauses.
fn text_of(alloc: Global, clauses: &Clauses) -> Result<String, Memory> {
    let mut text = format!(in alloc; "{}:", clauses.vars)?;
    for clause in clauses.list.as_slice() {
        push_clause(alloc, &mut text, clause.as_slice())?;
    }
    Ok(text)
}

/// The clauses of these roots and equalities, as a text.
fn converted(
    alloc: Global,
    atoms: u32,
    roots: &[Prop],
    equalities: &[Clause],
) -> Result<String, Memory> {
    if variables(atoms, roots).is_none()
        || !atoms_below(atoms, roots)
        || !all_in_range(atoms, equalities)
    {
        return Ok(String::from_str(alloc, "out of range")?);
    }
    let clauses = to_clauses(alloc, roots, equalities, atoms)?;
    text_of(alloc, &clauses)
}

/// The answer to the words.
pub fn shown(alloc: Global, text: &str) -> Result<String, Memory> {
    if let Some((atoms, rest)) = text.split_once(' ')
        && let Some((words, equalities)) = rest.split_once('/')
        && let Ok(atoms) = atoms.parse::<u32>()
        && let Some(roots) = propositions(alloc, words)?
        && let Some(equalities) = numbers(alloc, equalities)?
    {
        let equalities = clauses(alloc, equalities.as_slice())?;
        return converted(alloc, atoms, roots.as_slice(), equalities.as_slice());
    }
    Ok(String::from_str(alloc, "not a case")?)
}
