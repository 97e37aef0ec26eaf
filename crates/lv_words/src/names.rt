//! What names name, and new names and variables.
ghost use Rattle.std.specs.Prelude.{◌≡◌};
ghost use Rattle.lv_fault.specs.Given.{Gives};
ghost use Rattle.lv_grammar.specs.ReadWords.{new_name, new_variable, sort_in};
ghost use Rattle.lv_words.specs.Scopes.{scope_seen};

use crate::known::Known;
use crate::scope::Scope;
use crate::words::family_in;
use lv_fault::trees::{refusal, refuse_if, word};
use lv_fault::{Kind, ReadText};
use lv_formula::SortId;
use lv_grammar::reading::{Family, Named};
use lv_tree::Tree;

/// A new name: of the kind of names, not taken, and not too long.
#[tactic(auto, unfolding(lv_grammar::specs::ReadWords::new_name))]
pub fn new_name<'a>(known: &Known, tree: &'a Tree) -> Result<&'a [u8], ReadText>
    ensures { Gives (λ x. x.now) result (new_name known.now tree.now) }
{
    let word = word(tree)?;
    match family_in(word.text) {
        Family::Name => {
            refuse_if(known.named(word.text).is_some(), Kind::TwiceNamed, word.at)?;
            refuse_if(word.text.len() > 48, Kind::TooMany, word.at)?;
            Ok(word.text)
        }
        Family::Frozen | Family::Saved | Family::Dotted | Family::Variable | Family::Other => {
            Err(refusal(Kind::Unexpected, word.at))
        }
    }
}

/// A new variable in the scope of others.
#[tactic(auto, using(crate::proofs::ScopeLemmas::found_some), unfolding(lv_grammar::specs::ReadWords::new_variable))]
pub fn new_variable<'a>(scope: &Scope, tree: &'a Tree) -> Result<&'a [u8], ReadText>
    ensures { Gives (λ x. x.now) result (new_variable (scope_seen scope.now) tree.now) }
{
    let word = word(tree)?;
    match family_in(word.text) {
        Family::Variable => {
            let taken = scope.find(word.text)?.is_some();
            refuse_if(taken, Kind::TwiceNamed, word.at)?;
            refuse_if(word.text.len() > 48, Kind::TooMany, word.at)?;
            Ok(word.text)
        }
        Family::Frozen | Family::Saved | Family::Dotted | Family::Name | Family::Other => {
            Err(refusal(Kind::Unexpected, word.at))
        }
    }
}

/// A declared sort.
#[tactic(auto, unfolding(lv_grammar::specs::ReadWords::sort_in))]
pub fn sort(known: &Known, tree: &Tree) -> Result<SortId, ReadText>
    ensures { Gives (λ x. x) result (sort_in known.now tree.now) }
{
    let word = word(tree)?;
    match family_in(word.text) {
        Family::Name => match known.named(word.text) {
            None => Err(refusal(Kind::UnknownName, word.at)),
            Some(Named::Sort(n)) => Ok(SortId(*n)),
            Some(_) => Err(refusal(Kind::Unexpected, word.at)),
        },
        Family::Frozen | Family::Saved | Family::Dotted | Family::Variable | Family::Other => {
            Err(refusal(Kind::Unexpected, word.at))
        }
    }
}
