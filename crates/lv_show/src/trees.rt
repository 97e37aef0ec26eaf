//! Trees without places: words, lists, variables, numbers.
ghost use Rattle.std.specs.Prelude.{◌≡◌, ◌∷◌, ◌++◌, [], List, codes, map, IfOk};
ghost use Rattle.lv_grammar.specs.ShownFormulas.{word, list, variable_name};
ghost use Rattle.lv_grammar.specs.ShownStructures.{number};

use itoa::Buffer;
use lv_formula::Memory;
use lv_tree::{List, Tree};
use std::alloc::Global;

/// A word.
pub fn word(alloc: Global, text: &[u8]) -> Result<Tree, Memory>
    ensures { IfOk result (λ t. t ≡ word text.now) }
{
    Ok(Tree::Word {
        at: 0,
        text: List::from_vec(Vec::from_slice(alloc, text)?),
    })
}

/// A list of these items.
pub fn list(items: Vec<Tree>) -> Tree
    ensures { result ≡ list items.items }
{
    Tree::Group {
        at: 0,
        end: 0,
        items: List::from_vec(items),
    }
}

/// The name of a variable in the scope of so many others.
pub(crate) fn variable(alloc: Global, number: u64) -> Result<Tree, Memory>
    ensures { IfOk result (λ t. t ≡ word (variable_name number)) }
{
    let mut buffer = Buffer::new();
    let mut text = Vec::from_slice(alloc, b"X")?;
    text.extend_from_slice(buffer.format(number).as_bytes())?;
    Ok(Tree::Word {
        at: 0,
        text: List::from_vec(text),
    })
}

/// A number.
pub fn number(alloc: Global, n: u32) -> Result<Tree, Memory>
    ensures { IfOk result (λ t. t ≡ number n) }
{
    let mut buffer = Buffer::new();
    word(alloc, buffer.format(n).as_bytes())
}

/// A list of these numbers.
pub fn numbers(alloc: Global, ns: &[u32]) -> Result<Tree, Memory>
    ensures { IfOk result (λ t. t ≡ list (map number ns.now)) }
{
    let mut items = Vec::new(alloc);
    for n in ns {
        items.push(number(alloc, *n)?)?;
    }
    Ok(list(items))
}

/// A list of a word and one more item.
pub(crate) fn pair(alloc: Global, head: &[u8], item: Tree) -> Result<Tree, Memory>
    ensures { IfOk result (λ t. t ≡ list (word head.now ∷ item ∷ [])) }
{
    let mut items = Vec::new(alloc);
    items.push(word(alloc, head)?)?;
    items.push(item)?;
    Ok(list(items))
}

/// A list of a word and two more items.
pub(crate) fn triple(alloc: Global, head: &[u8], a: Tree, b: Tree) -> Result<Tree, Memory>
    ensures { IfOk result (λ t. t ≡ list (word head.now ∷ a ∷ b ∷ [])) }
{
    let mut items = Vec::new(alloc);
    items.push(word(alloc, head)?)?;
    items.push(a)?;
    items.push(b)?;
    Ok(list(items))
}

/// A list of a word and any number of further items.
pub fn many(alloc: Global, head: &[u8], mut items: Vec<Tree>) -> Result<Tree, Memory>
    ensures { IfOk result (λ t. t ≡ list (word head.now ∷ items.items)) }
{
    items.insert(0, word(alloc, head)?)?;
    Ok(list(items))
}

/// `eventually` of the formula of which this is the tree.
pub(crate) fn eventually(alloc: Global, body: Tree) -> Result<Tree, Memory>
    ensures { IfOk result (λ t. t ≡ list (word (codes "eventually") ∷ body ∷ [])) }
{
    pair(alloc, b"eventually", body)
}

/// The word with which an invariant begins.
pub(crate) fn invariant_word(alloc: Global) -> Result<Tree, Memory>
    ensures { IfOk result (λ t. t ≡ word (codes "invariant")) }
{
    word(alloc, b"invariant")
}
