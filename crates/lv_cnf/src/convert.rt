ghost use Rattle.std.specs.Prelude.{◌≡◌, ◌<◌, ◌+◌, ◌^◌, ◌++◌, [], ◌∷◌, map, IfOk, OnOk, ◌↔◌};
ghost use Rattle.std.specs.List.{All};
ghost use Rattle.lv_cnf.specs.Literals.{InRange, IsSatisfiable, negative_literal};
ghost use Rattle.lv_cnf.specs.Nodes.{plain, plains, inner, inners, name, names, node_clauses};
ghost use Rattle.lv_cnf.specs.Nodes.{nodes_clauses, root_clauses, clauses_of, AtomsBelow, AreSatisfiable, pair_with};

use crate::clause::{Clause, Clauses};
use crate::list::List;
use crate::literal::Lit;
use crate::memory::Memory;
use crate::prop::{Prop, inner_nodes};
use std::alloc::Global;

/// The literal that stands for a node: itself, or the node's own variable.
fn name_of(prop: &Prop, var: u32) -> Lit
    ensures { result ≡ name var (plain prop.now) }
{
    match prop {
        Prop::Lit(lit) => *lit,
        _ => Lit::positive(var),
    }
}

/// The names of these nodes, behind the literals that are there; `next` is the first free variable.
fn push_names(lits: &mut Vec<Lit>, props: &[Prop], next: u32) -> Result<(), Memory>
    requires { next + inners (plains props.now) < 2 ^ 32 }
    ensures { OnOk result (lits.new.items ≡ lits.old.items ++ names next (plains props.now)) }
{
    let mut free = next;
    for prop in props {
        lits.push(name_of(prop, free))?;
        free += inner_nodes(prop);
    }
    Ok(())
}

/// The clause of a node that is true only where one of these is.
fn push_choice(
    alloc: Global,
    out: &mut Vec<Clause>,
    node: u32,
    props: &[Prop],
) -> Result<(), Memory>
    requires { node + 1 + inners (plains props.now) < 2 ^ 32 }
    ensures { OnOk result (out.new.items ≡ out.old.items ++ (negative_literal node ∷ names (node + 1) (plains props.now)) ∷ []) }
{
    let mut lits = vec![in alloc; Lit::negative(node)]?;
    push_names(&mut lits, props, node + 1)?;
    out.push(Clause::of(alloc, lits.as_slice())?)?;
    Ok(())
}

/// The clauses of a node that is true only where each of these is: one for each of them.
fn push_pairs(alloc: Global, out: &mut Vec<Clause>, node: u32, props: &[Prop]) -> Result<(), Memory>
    requires { node + 1 + inners (plains props.now) < 2 ^ 32 }
    ensures { OnOk result (out.new.items ≡ out.old.items ++ map (pair_with node) (names (node + 1) (plains props.now))) }
{
    let mut free = node + 1;
    for prop in props {
        let pair = [Lit::negative(node), name_of(prop, free)];
        out.push(Clause::of(alloc, &pair)?)?;
        free += inner_nodes(prop);
    }
    Ok(())
}

/// The clauses of a node and of the nodes below it, in preorder; `next` is its variable, if it has one.
#[cycle(push)]
fn push_node(alloc: Global, out: &mut Vec<Clause>, prop: &Prop, next: u32) -> Result<(), Memory>
    requires { next + inner (plain prop.now) < 2 ^ 32 }
    ensures { OnOk result (out.new.items ≡ out.old.items ++ node_clauses next (plain prop.now)) }
{
    match prop {
        Prop::True => {}
        Prop::Lit(_) => {}
        Prop::False => out.push(Clause::of(alloc, &[Lit::negative(next)])?)?,
        Prop::And(props) => {
            push_pairs(alloc, out, next, props.as_slice())?;
            push_nodes(alloc, out, props.as_slice(), next + 1)?;
        }
        Prop::Or(props) => {
            push_choice(alloc, out, next, props.as_slice())?;
            push_nodes(alloc, out, props.as_slice(), next + 1)?;
        }
    }
    Ok(())
}

/// The clauses of these nodes and of the nodes below them, in preorder.
#[cycle(push)]
fn push_nodes(alloc: Global, out: &mut Vec<Clause>, props: &[Prop], next: u32) -> Result<(), Memory>
    requires { next + inners (plains props.now) < 2 ^ 32 }
    ensures { OnOk result (out.new.items ≡ out.old.items ++ nodes_clauses next (plains props.now)) }
{
    let mut free = next;
    for prop in props {
        push_node(alloc, out, prop, free)?;
        free += inner_nodes(prop);
    }
    Ok(())
}

/// For each root the clauses of its nodes, and then the root alone. Gives the first free variable.
fn push_roots(
    alloc: Global,
    out: &mut Vec<Clause>,
    roots: &[Prop],
    next: u32,
) -> Result<u32, Memory>
    requires { next + inners (plains roots.now) < 2 ^ 32 }
    ensures vars { IfOk result (λ free. free ≡ next + inners (plains roots.now)) }
    ensures list { OnOk result (out.new.items ≡ out.old.items ++ root_clauses next (plains roots.now)) }
{
    let mut free = next;
    for root in roots {
        push_node(alloc, out, root, free)?;
        out.push(Clause::of(alloc, &[name_of(root, free)])?)?;
        free += inner_nodes(root);
    }
    Ok(free)
}

/// Copies of the clauses.
fn push_copies(alloc: Global, out: &mut Vec<Clause>, clauses: &[Clause]) -> Result<(), Memory>
    ensures { OnOk result (out.new.items ≡ out.old.items ++ clauses.now) }
{
    for clause in clauses {
        out.push(Clause::of(alloc, clause.as_slice())?)?;
    }
    Ok(())
}

/// Clauses that say that each root is true, followed by the equalities. The only error is want of memory.
///
/// The variables of the literals are below `atoms`. Each node of a root that is no literal gets a
/// variable of its own, from `atoms` on, root by root and in preorder. The clauses of a node say that
/// where its variable is true, the node is:
///
/// - for `And` and each child: not the node, or the child;
/// - for `Or`: not the node, or one of the children, all of them in order;
/// - for `False`: not the node;
/// - for `True` none.
///
/// Here a child that is a literal stands for itself, and another child is its variable. Root by root come
/// the clauses of its nodes in preorder and then the root alone.
pub fn to_clauses(
    alloc: Global,
    roots: &[Prop],
    equalities: &[Clause],
    atoms: u32,
) -> Result<Clauses, Memory>
    requires roots { AtomsBelow atoms (plains roots.now) }
    requires equalities { All (InRange atoms) equalities.now }
    requires vars { atoms + inners (plains roots.now) < 2 ^ 32 }
    ensures vars { IfOk result (λ c. c.vars ≡ atoms + inners (plains roots.now)) }
    ensures list { IfOk result (λ c. c.list ≡ clauses_of atoms (plains roots.now) equalities.now) }

    // What follows from the two for the caller.
    ensures range { IfOk result (λ c. All (InRange c.vars) c.list) }
    ensures satisfiable { IfOk result (λ c. IsSatisfiable c.list ↔ AreSatisfiable (plains roots.now) equalities.now) }
{
    let mut out = Vec::new(alloc);
    let vars = push_roots(alloc, &mut out, roots, atoms)?;
    push_copies(alloc, &mut out, equalities)?;
    Ok(Clauses {
        vars,
        list: List::from_vec(out),
    })
}
