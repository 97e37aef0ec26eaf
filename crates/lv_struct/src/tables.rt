use crate::tuple_list::TupleList;
use lv_formula::{List, Rc, SortId, Sym};

/// A relation with its tuples, which count as a set. Structures of which one is a copy of the other share them.
#[derive(Debug, Drop)]
pub struct Relation {
    pub sym: Sym,
    pub sorts: List<SortId>,
    pub tuples: Rc<TupleList>,
}

/// A constant with its element.
#[derive(Clone, Copy, Debug, Drop)]
pub struct Constant {
    pub sym: Sym,
    pub sort: SortId,
    pub element: u32,
}
