ghost use Rattle.std.specs.Prelude.{◌≡◌, ◌<◌, ◌≤◌, ◌+◌, ◌^◌, ◌↔◌, IsTrue, IsNone, IfSome};
ghost use Rattle.lv_cnf.specs.Nodes.{plain, plains, inner, inners, AtomBelow, AtomsBelow};

use crate::list::List;
use crate::literal::Lit;

/// A proposition.
#[derive(Debug, Drop)]
pub enum Prop {
    /// What is always true.
    True,
    /// What is never true.
    False,
    /// A variable or its negation.
    Lit(Lit),
    /// True where each of these is, so the empty one is true.
    And(List<Prop>),
    /// True where one of these is, so the empty one is false.
    Or(List<Prop>),
}

/// The number of nodes of the proposition that are no literals, itself among them.
#[cycle(count)]
pub fn inner_nodes(prop: &Prop) -> u32
    requires { inner (plain prop.now) < 2 ^ 32 }
    ensures { result ≡ inner (plain prop.now) }
{
    match prop {
        Prop::Lit(_) => 0,
        Prop::True | Prop::False => 1,
        Prop::And(props) => inner_nodes_of(props.as_slice()) + 1,
        Prop::Or(props) => inner_nodes_of(props.as_slice()) + 1,
    }
}

/// The number of nodes of all these propositions that are no literals.
#[cycle(count)]
fn inner_nodes_of(props: &[Prop]) -> u32
    requires { inners (plains props.now) < 2 ^ 32 }
    ensures { result ≡ inners (plains props.now) }
{
    let mut count: u32 = 0;
    for prop in props {
        count += inner_nodes(prop);
    }
    count
}

/// Whether the variables of the literals are below `atoms`.
#[cycle(atoms)]
fn is_below(atoms: u32, prop: &Prop) -> bool
    ensures { IsTrue result ↔ AtomBelow atoms (plain prop.now) }
{
    match prop {
        Prop::True | Prop::False => true,
        Prop::Lit(lit) => lit.var < atoms,
        Prop::And(props) => atoms_below(atoms, props.as_slice()),
        Prop::Or(props) => atoms_below(atoms, props.as_slice()),
    }
}

/// Whether the variables of the literals of all these propositions are below `atoms`.
#[cycle(atoms)]
pub fn atoms_below(atoms: u32, props: &[Prop]) -> bool
    ensures { IsTrue result ↔ AtomsBelow atoms (plains props.now) }
{
    for prop in props {
        if !is_below(atoms, prop) {
            return false;
        }
    }
    true
}

/// The first free variable behind the nodes of the proposition, if it fits.
#[cycle(free)]
fn behind(free: u32, prop: &Prop) -> Option<u32>
    ensures fits { IfSome result (λ next. next ≡ free + inner (plain prop.now)) }
    ensures large { IsNone result → 2 ^ 32 ≤ free + inner (plain prop.now) }
{
    match prop {
        Prop::Lit(_) => Some(free),
        Prop::True | Prop::False => free.checked_add(1),
        Prop::And(props) => variables(free.checked_add(1)?, props.as_slice()),
        Prop::Or(props) => variables(free.checked_add(1)?, props.as_slice()),
    }
}

/// The number of variables below `free` and of the nodes of these propositions that are no literals.
/// None where it is `2 ^ 32` or more.
#[cycle(free)]
pub fn variables(free: u32, props: &[Prop]) -> Option<u32>
    ensures fits { IfSome result (λ count. count ≡ free + inners (plains props.now)) }
    ensures large { IsNone result → 2 ^ 32 ≤ free + inners (plains props.now) }
{
    let mut count = free;
    for prop in props {
        count = behind(count, prop)?;
    }
    Some(count)
}
