ghost use Rattle.std.specs.Prelude.{◌≡◌, ◌<◌, ◌↔◌, ℕ, List, IfOk, IsTrue, All, AllPairs, length, true};
ghost use Rattle.std.specs.Option.{ForSome};
ghost use Rattle.lv_formula.specs.Vocabulary as vocabularies;
ghost use Rattle.lv_struct.specs.Changes.{empty_structure, with_tuples, with_element};
ghost use Rattle.lv_struct.specs.Compare.{IsSame, has_vocabulary, tables_eq};
ghost use Rattle.lv_formula.specs.Meaning.{IsStructureOf, in_range};
ghost use Rattle.lv_struct.specs.Tables.{HasVocabulary, IsInRange, IsSound, holds_in, meaning, size_in, size_of, sort_in, sorts_in, value_in};
ghost use Rattle.lv_struct.specs.Tabulation.{tables_of};
ghost use Rattle.lv_formula.specs.Tuples.{has_tuple, tuple_lt, tuples_over};

use crate::changes::{copy_relations, empty_relations, first_elements, put_constant, put_relation};
use crate::compare::pair_up;
use crate::elements::{Elements, Tuple};
use crate::interpretation::Interpretation;
use crate::tables::{Constant, Relation};
use crate::tabulation::{constants, relations, sizes, tuples_of_sorts};
use crate::tuple_list::TupleList;
use crate::tuples::copy;
use lv_formula::{List, Memory, Rc, SortId, Sym, Vocabulary};
use std::alloc::Global;
use std::marker::Model;

/// A finite structure.
///
/// Each sort has at least one element, each relation a set of tuples in the range of its sorts, and each
/// constant an element of its sort. No two symbols are the same.
#[derive(Debug, Drop)]
pub struct Structure {
    sizes: List<u32>,
    relations: List<Relation>,
    constants: List<Constant>,
}

impl Model for Structure {
    ghost use Rattle.lv_struct.specs.Tables.{Tables, IsSound};

    ghost Value = { Tables };

    ghost view = { λ a. record { sizes = a.sizes; relations = a.relations; constants = a.constants } };

    ghost invariant = { λ a. IsSound (record { sizes = a.sizes; relations = a.relations; constants = a.constants }) };
}

impl Structure {
    /// The structure of these sizes in which relations are empty and constants are element 0. The error
    /// is want of memory.
    pub fn new(alloc: Global, voc: &Vocabulary, sizes: &[u32]) -> Result<Structure, Memory>
        requires sound { vocabularies.IsSound voc.now }
        requires sorts { length sizes.now ≡ voc.now.sorts }
        requires elements { All (λ n. 0 < n) sizes.now }
        ensures { IfOk result (λ m. m ≡ empty_structure voc.now sizes.now) }
    {
        let sizes = copy(alloc, sizes)?;
        let relations = empty_relations(alloc, voc.relations.as_slice())?;
        let constants = first_elements(alloc, voc.constants.as_slice())?;
        Ok(Structure {
            sizes,
            relations,
            constants,
        })
    }

    /// The tables over the vocabulary of a structure that is known as functions: they have the vocabulary, and agree
    /// with the structure on what it names. The error is want of memory.
    pub fn tabulate<I: Interpretation>(
        alloc: Global,
        voc: &Vocabulary,
        of: &I,
    ) -> Result<Structure, Memory>
        requires sound { vocabularies.IsSound voc.now }
        requires structure { IsStructureOf voc.now (I.meaning of.now) }
        ensures { IfOk result (λ m. m ≡ tables_of voc.now (I.meaning of.now)) }
    {
        let sizes = sizes(alloc, voc.sorts, of)?;
        let relations = relations(alloc, voc.relations.as_slice(), of)?;
        let constants = constants(alloc, voc.constants.as_slice(), of)?;
        Ok(Structure {
            sizes,
            relations,
            constants,
        })
    }

    /// How many elements the sort has. A sort that is not there counts as having one.
    pub fn size(&self, sort: SortId) -> u32
        ensures value { result ≡ size_in self.now sort }
        // what holds of every structure
        ensures sound { IsSound self.now }
    {
        match self.sizes.as_slice().get(sort.0 as usize) {
            Some(size) => *size,
            None => 1,
        }
    }

    /// The element that the constant is. A constant that is not there is element 0.
    pub fn value(&self, sym: Sym) -> u32
        ensures { result ≡ value_in self.now sym }
    {
        for constant in self.constants.as_slice() {
            if constant.sym.equals(sym) {
                return constant.element;
            }
        }
        0
    }

    /// Whether the relation has the tuple. A relation that is not there has none.
    pub fn has<T: Elements>(&self, sym: Sym, tuple: &T) -> bool
        ensures { result ≡ holds_in self.now sym (T.elements tuple.now) }
    {
        for relation in self.relations.as_slice() {
            if relation.sym.equals(sym) {
                return relation.tuples.has(tuple);
            }
        }
        false
    }

    /// Whether the relation has the tuple. A relation that is not there has none.
    pub fn holds(&self, sym: Sym, tuple: &[u32]) -> bool
        ensures { result ≡ holds_in self.now sym tuple.now }
    {
        self.has(sym, &Tuple { elements: tuple })
    }

    /// Whether the two are one structure: the same sizes, the same symbols in the same order with the same
    /// sorts, the same sets of tuples, and the same elements.
    pub fn equal(&self, other: &Structure) -> bool
        ensures { IsTrue result ↔ IsSame self.now other.now }
    {
        self.has_same_tables(other)
    }

    fn has_same_tables(&self, other: &Structure) -> bool
        ensures { result ≡ tables_eq self.now other.now }
    {
        pair_up(self.sizes.as_slice(), other.sizes.as_slice())
            && pair_up(self.relations.as_slice(), other.relations.as_slice())
            && pair_up(self.constants.as_slice(), other.constants.as_slice())
    }

    /// Whether the sorts are the vocabulary's, and the relations and the constants are those of its lists, in their
    /// order.
    pub fn has_vocabulary(&self, voc: &Vocabulary) -> bool
        ensures same { IsTrue result ↔ HasVocabulary voc.now self.now }
        // what holds of every structure
        ensures sound { IsSound self.now }
    {
        self.has_symbols_of(voc)
    }

    fn has_symbols_of(&self, voc: &Vocabulary) -> bool
        ensures same { result ≡ has_vocabulary voc.now self.now }
        ensures sound { IsSound self.now }
    {
        self.sizes.as_slice().len() == voc.sorts as usize
            && pair_up(self.relations.as_slice(), voc.relations.as_slice())
            && pair_up(self.constants.as_slice(), voc.constants.as_slice())
    }

    /// An equal structure. The error is want of memory.
    pub fn copy(&self, alloc: Global) -> Result<Structure, Memory>
        ensures value { IfOk result (λ m. m ≡ self.now) }
        // what holds of every structure
        ensures sound { IsSound self.now }
    {
        let sizes = copy(alloc, self.sizes.as_slice())?;
        let relations = copy_relations(alloc, self.relations.as_slice())?;
        let constants = copy(alloc, self.constants.as_slice())?;
        Ok(Structure {
            sizes,
            relations,
            constants,
        })
    }

    /// The structure in which the relation has these tuples and no others. The error is want of memory.
    pub fn with_relation(
        &self,
        alloc: Global,
        sym: Sym,
        tuples: &[List<u32>],
    ) -> Result<Structure, Memory>
        requires in_range { ForSome (sorts_in self.now sym) (λ sorts. All (IsInRange self.now.sizes sorts) tuples.now) }
        ensures { IfOk result (λ m. m ≡ with_tuples self.now sym tuples.now) }
    {
        let sizes = copy(alloc, self.sizes.as_slice())?;
        let tuples = Rc::new(alloc, TupleList::from_tuples(alloc, tuples)?)?;
        let relations = put_relation(alloc, self.relations.as_slice(), sym, &tuples)?;
        let constants = copy(alloc, self.constants.as_slice())?;
        Ok(Structure {
            sizes,
            relations,
            constants,
        })
    }

    /// The structure in which the constant is this element. The error is want of memory.
    pub fn with_constant(&self, alloc: Global, sym: Sym, element: u32) -> Result<Structure, Memory>
        requires in_range { ForSome (sort_in self.now sym) (λ sort. element < size_in self.now sort) }
        ensures { IfOk result (λ m. m ≡ with_element self.now sym element) }
    {
        let sizes = copy(alloc, self.sizes.as_slice())?;
        let relations = copy_relations(alloc, self.relations.as_slice())?;
        let constants = put_constant(alloc, self.constants.as_slice(), sym, element)?;
        Ok(Structure {
            sizes,
            relations,
            constants,
        })
    }

    /// All tuples of the sorts, each once, in lexicographic order. No sorts have one tuple, the empty one.
    /// The error is want of memory.
    pub fn tuples(&self, alloc: Global, sorts: &[SortId]) -> Result<List<List<u32>>, Memory>
        ensures value { IfOk result (λ ts. ts ≡ tuples_over (size_in self.now) sorts.now) }
        ensures all { IfOk result (λ ts. (tuple : List ℕ) → has_tuple ts tuple ≡ in_range (meaning self.now) sorts.now tuple) }
        ensures order { IfOk result (λ ts. AllPairs (λ a b. tuple_lt a b ≡ true) ts) }
    {
        self.tuples_over(alloc, sorts)
    }

    fn tuples_over(&self, alloc: Global, sorts: &[SortId]) -> Result<List<List<u32>>, Memory>
        ensures { IfOk result (λ ts. ts ≡ tuples_over (size_in self.now) sorts.now) }
    {
        tuples_of_sorts(alloc, sorts, self)
    }
}

impl Interpretation for Structure {
    ghost use Rattle.lv_struct.specs.Tables.{meaning};

    ghost meaning = { meaning };

    fn size(&self, sort: SortId) -> u32 {
        self.size(sort)
    }

    fn holds(&self, sym: Sym, tuple: &[u32]) -> bool {
        self.holds(sym, tuple)
    }

    fn value(&self, sym: Sym) -> u32 {
        self.value(sym)
    }
}
