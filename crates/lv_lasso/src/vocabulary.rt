//! The vocabulary of a system's own symbols.
ghost use Rattle.std.specs.Prelude.{◌≡◌, IfOk};
ghost use Rattle.lv_formula.specs.declared.symbols.Sym.TheVariants.{Own};
ghost use Rattle.lv_formula.specs.Vocabulary as vocabularies;
ghost use Rattle.lv_system.specs.Vocabularies.{any_symbol, constants_from, names_from, own_vocabulary, relations_from};

use lv_formula::{ConShape, List, Memory, RelShape, Sym, Vocabulary};
use lv_labels::{copied, number};
use lv_system::{Shape, Symbol, System};
use std::alloc::Global;

/// The relations among the symbols. The error is want of memory.
fn relations(alloc: Global, symbols: &[Symbol]) -> Result<List<RelShape>, Memory>
    ensures { IfOk result (λ rs. rs ≡ relations_from any_symbol Own 0 symbols.now) }
{
    let mut all = Vec::new(alloc);
    for (n, symbol) in symbols.iter().enumerate() {
        if let Shape::Relation(sorts) = &symbol.shape {
            all.push(RelShape {
                sym: Sym::Own(number(n)?),
                sorts: copied(alloc, sorts.as_slice())?,
            })?;
        }
    }
    Ok(List::from_vec(all))
}

/// The constants among the symbols. The error is want of memory.
fn constants(alloc: Global, symbols: &[Symbol]) -> Result<List<ConShape>, Memory>
    ensures { IfOk result (λ cs. cs ≡ constants_from any_symbol Own 0 symbols.now) }
{
    let mut all = Vec::new(alloc);
    for (n, symbol) in symbols.iter().enumerate() {
        if let Shape::Constant(sort) = &symbol.shape {
            all.push(ConShape {
                sym: Sym::Own(number(n)?),
                sort: *sort,
            })?;
        }
    }
    Ok(List::from_vec(all))
}

/// All symbols in order. The error is want of memory.
fn order(alloc: Global, symbols: &[Symbol]) -> Result<List<Sym>, Memory>
    ensures { IfOk result (λ names. names ≡ names_from any_symbol Own 0 symbols.now) }
{
    let mut all = Vec::new(alloc);
    for (n, _) in symbols.iter().enumerate() {
        all.push(Sym::Own(number(n)?))?;
    }
    Ok(List::from_vec(all))
}

/// The system's own symbols. The error is want of memory.
pub(crate) fn own_vocabulary(alloc: Global, system: &System) -> Result<Vocabulary, Memory>
    ensures value { IfOk result (λ voc. voc ≡ own_vocabulary system.now) }
    ensures sound { IfOk result vocabularies.IsSound }
{
    let parts = system.parts();
    let symbols = parts.symbols.as_slice();
    Ok(Vocabulary {
        sorts: number(parts.sorts.as_slice().len())?,
        relations: relations(alloc, symbols)?,
        constants: constants(alloc, symbols)?,
        order: order(alloc, symbols)?,
    })
}
