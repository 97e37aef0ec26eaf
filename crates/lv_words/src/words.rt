//! What a word is by its bytes alone.
ghost use Rattle.std.specs.Prelude.{◌≡◌, codes};
ghost use Rattle.lv_grammar.specs.Words.{begins_capital};
ghost use Rattle.lv_grammar.specs.WordKinds.{constant_keyword, connective_keyword, keyword_of, has_dot, family_of, behind};
ghost use Rattle.lv_words.specs.Seen.{lent_bytes};

use lv_grammar::reading::{Family, Keyword};
use lv_system::{all_stand_in_names, begins_with_small_letter, is_reserved_word, same_bytes};

/// What follows these bytes, where the text begins with them.
pub fn rest_behind<'a>(prefix: &[u8], text: &'a [u8]) -> Option<&'a [u8]>
    ensures { lent_bytes result ≡ behind prefix.now text.now }
{
    match prefix {
        [] => Some(text),
        [a, prefix @ ..] => match text {
            [] => None,
            [b, text @ ..] => {
                if a == b {
                    rest_behind(prefix, text)
                } else {
                    None
                }
            }
        },
    }
}

#[tactic(auto, unfolding(lv_grammar::specs::WordKinds::constant_keyword))]
fn constant_or_operator(text: &[u8]) -> Option<Keyword>
    ensures { result ≡ constant_keyword text.now }
{
    if same_bytes(text, b"true") {
        Some(Keyword::True)
    } else if same_bytes(text, b"false") {
        Some(Keyword::False)
    } else if same_bytes(text, b"=") {
        Some(Keyword::Equals)
    } else if same_bytes(text, b"always") {
        Some(Keyword::Always)
    } else if same_bytes(text, b"eventually") {
        Some(Keyword::Eventually)
    } else {
        None
    }
}

#[tactic(auto, unfolding(lv_grammar::specs::WordKinds::connective_keyword))]
fn connective(text: &[u8]) -> Option<Keyword>
    ensures { result ≡ connective_keyword text.now }
{
    if same_bytes(text, b"not") {
        Some(Keyword::Not)
    } else if same_bytes(text, b"and") {
        Some(Keyword::And)
    } else if same_bytes(text, b"or") {
        Some(Keyword::Or)
    } else if same_bytes(text, b"implies") {
        Some(Keyword::Implies)
    } else if same_bytes(text, b"iff") {
        Some(Keyword::Iff)
    } else if same_bytes(text, b"all") {
        Some(Keyword::All)
    } else if same_bytes(text, b"some") {
        Some(Keyword::Some)
    } else {
        None
    }
}

/// The keyword of formulas that the bytes are.
pub fn keyword_in(text: &[u8]) -> Option<Keyword>
    ensures { result ≡ keyword_of text.now }
{
    if let Some(keyword) = constant_or_operator(text) {
        return Some(keyword);
    }
    connective(text)
}

fn holds_dot(text: &[u8]) -> bool
    ensures { result ≡ has_dot text.now }
{
    for byte in text {
        if *byte == b'.' {
            return true;
        }
    }
    false
}

fn begins_with_capital(text: &[u8]) -> bool
    ensures { result ≡ begins_capital text.now }
{
    match text {
        [first, ..] => first.is_ascii_uppercase(),
        [] => false,
    }
}

/// The kind of a word, whatever its length.
#[tactic(auto, unfolding(lv_grammar::specs::WordKinds::family_of))]
pub fn family_in(text: &[u8]) -> Family
    ensures { result ≡ family_of text.now }
{
    if holds_dot(text) {
        Family::Dotted
    } else if same_bytes(text, b"frozen") {
        Family::Frozen
    } else if same_bytes(text, b"saved") {
        Family::Saved
    } else if is_reserved_word(text) {
        Family::Other
    } else if begins_with_small_letter(text) && all_stand_in_names(text) {
        Family::Name
    } else if begins_with_capital(text) && all_stand_in_names(text) {
        Family::Variable
    } else {
        Family::Other
    }
}
