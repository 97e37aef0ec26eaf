//! The variables in whose scope a formula stands.
ghost use Rattle.std.specs.Prelude.{◌≡◌, IfOk};
ghost use Rattle.lv_words.specs.Scopes.{found_in, found_within, scope_seen};

use lv_formula::{Memory, SortId};
use lv_system::same_bytes;

/// A variable with its sort, and the place where it is declared.
#[derive(Clone, Copy, Debug, Drop)]
pub struct Parameter<'a> {
    pub at: u32,
    pub name: &'a [u8],
    pub sort: SortId,
}

/// The variables in whose scope a formula stands, in parts, so that it can grow without memory.
#[derive(Drop)]
pub enum Scope<'a> {
    Empty,
    /// Further variables, the innermost last, inside a scope.
    Listed(&'a [Parameter<'a>], &'a Scope<'a>),
    /// One bound variable inside a scope.
    Inner(&'a [u8], SortId, &'a Scope<'a>),
}

impl Scope<'_> {
    /// The number and the sort of the innermost variable with the name. A scope of more variables than a
    /// `u32` numbers has no memory for one more.
    pub fn find(&self, name: &[u8]) -> Result<Option<(u32, SortId)>, Memory>
        ensures { IfOk result (λ found. found ≡ found_in (scope_seen self.now) name.now) }
    {
        match self {
            Scope::Empty => Ok(None),
            Scope::Listed(variables, outer) => {
                let mut found = outer.find(name)?;
                for variable in *variables {
                    found = inside(found, variable.name, variable.sort, name)?;
                }
                Ok(found)
            }
            Scope::Inner(inner, sort, outer) => {
                let found = outer.find(name)?;
                inside(found, inner, *sort, name)
            }
        }
    }
}

/// What is found inside the scope of one variable more.
fn inside(
    found: Option<(u32, SortId)>,
    inner: &[u8],
    sort: SortId,
    name: &[u8],
) -> Result<Option<(u32, SortId)>, Memory>
    ensures { IfOk result (λ within. within ≡ found_within (record { name = inner.now; sort = sort }) found name.now) }
{
    if same_bytes(inner, name) {
        return Ok(Some((0, sort)));
    }
    match found {
        None => Ok(None),
        Some((u32::MAX, _)) => Err(Memory),
        Some((number, sort)) => Ok(Some((number + 1, sort))),
    }
}
