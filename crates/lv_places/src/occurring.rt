//! The constants and relations that occur in normal forms.
ghost use Rattle.std.specs.Prelude.{◌≡◌, IfOk};
ghost use Rattle.std.specs.List.{list_any};
ghost use Rattle.lv_places.specs.Forms.{form_of, forms_of, is_term, occurs, occurs_some};
ghost use Rattle.lv_places.specs.Occurring.{constants_in, relations_in};

use lv_formula::{ConShape, Formula, List, Memory, Rc, RelShape, Sym, Term};
use std::alloc::Global;

/// Those of the constants that occur in the normal forms, in order. The error is want of memory.
pub fn occurring_constants(
    alloc: Global,
    forms: &[Formula],
    constants: &[ConShape],
) -> Result<List<ConShape>, Memory>
    ensures { IfOk result (λ cs. cs ≡ constants_in (forms_of forms.now) constants.now) }
{
    let mut all = Vec::new(alloc);
    for shape in constants {
        if occurs_in_any(forms, shape.sym) {
            all.push(ConShape {
                sym: shape.sym,
                sort: shape.sort,
            })?;
        }
    }
    Ok(List::from_vec(all))
}

/// Those of the relations that occur in the normal forms, in order. The error is want of memory.
pub fn occurring_relations(
    alloc: Global,
    forms: &[Formula],
    relations: &[RelShape],
) -> Result<List<RelShape>, Memory>
    ensures { IfOk result (λ rs. rs ≡ relations_in (forms_of forms.now) relations.now) }
{
    let mut all = Vec::new(alloc);
    for shape in relations {
        if occurs_in_any(forms, shape.sym) {
            all.push(copied(alloc, shape)?)?;
        }
    }
    Ok(List::from_vec(all))
}

fn copied(alloc: Global, shape: &RelShape) -> Result<RelShape, Memory>
    ensures { IfOk result (λ r. r ≡ shape.now) }
{
    let sorts = Vec::from_slice(alloc, shape.sorts.as_slice())?;
    Ok(RelShape {
        sym: shape.sym,
        sorts: List::from_vec(sorts),
    })
}

/// Whether the relation or constant occurs in one of the normal forms.
fn occurs_in_any(forms: &[Formula], sym: Sym) -> bool
    ensures { result ≡ occurs_some sym (forms_of forms.now) }
{
    for f in forms {
        if occurs_in(f, sym) {
            return true;
        }
    }
    false
}

#[cycle(occurs)]
#[tactic(auto, using(crate::proofs::Marks::occurs_turned))]
fn occurs_in(f: &Formula, sym: Sym) -> bool
    ensures { result ≡ occurs sym (form_of f.now) }
{
    match f {
        Formula::True | Formula::False => false,
        Formula::Atom(relation, terms) => sym.equals(*relation)
            || has_constant(terms.as_slice(), sym),
        Formula::Same(a, b) => is_constant(a, sym) || is_constant(b, sym),
        Formula::Not(f) | Formula::All(_, f) | Formula::Any(_, f) => occurs_in(f, sym),
        Formula::And(fs) | Formula::Or(fs) => occurs_in_part(fs.as_slice(), sym),
        Formula::Implies(_, _) | Formula::Iff(_, _) => false,
    }
}

#[cycle(occurs)]
fn occurs_in_part(fs: &[Rc<Formula>], sym: Sym) -> bool
    ensures { result ≡ occurs_some sym (forms_of fs.now) }
{
    for f in fs {
        if occurs_in(f, sym) {
            return true;
        }
    }
    false
}

fn has_constant(terms: &[Term], sym: Sym) -> bool
    ensures { result ≡ list_any (is_term sym) terms.now }
{
    for term in terms {
        if is_constant(term, sym) {
            return true;
        }
    }
    false
}

fn is_constant(term: &Term, sym: Sym) -> bool
    ensures { result ≡ is_term sym term.now }
{
    match term {
        Term::Var(_) => false,
        Term::Const(constant) => sym.equals(*constant),
    }
}
