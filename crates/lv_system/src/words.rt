//! What a word is by its bytes alone: a reserved word, or of the bytes of names.
ghost use Rattle.std.specs.Prelude.{◌≡◌, codes};
ghost use Rattle.lv_system.specs.Names.{same_text, names_item, names_part, names_connective, names_operator, names_run, is_reserved, is_name_byte, are_name_bytes, begins_small};

/// Whether the two are one text.
pub fn same_bytes(a: &[u8], b: &[u8]) -> bool
    ensures { result ≡ same_text a.now b.now }
{
    a == b
}

#[tactic(auto, unfolding(crate::specs::Names::names_item))]
fn is_item_word(text: &[u8]) -> bool
    ensures { result ≡ names_item text.now }
{
    same_bytes(text, b"sort")
        || same_bytes(text, b"relation")
        || same_bytes(text, b"constant")
        || same_bytes(text, b"function")
        || same_bytes(text, b"axiom")
        || same_bytes(text, b"init")
        || same_bytes(text, b"action")
        || same_bytes(text, b"fair")
}

#[tactic(auto, unfolding(crate::specs::Names::names_part))]
fn is_part_word(text: &[u8]) -> bool
    ensures { result ≡ names_part text.now }
{
    same_bytes(text, b"system")
        || same_bytes(text, b"label")
        || same_bytes(text, b"witness")
        || same_bytes(text, b"property")
        || same_bytes(text, b"invariant")
        || same_bytes(text, b"finite")
        || same_bytes(text, b"fixed")
        || same_bytes(text, b"guard")
}

#[tactic(auto, unfolding(crate::specs::Names::names_connective))]
fn is_connective(text: &[u8]) -> bool
    ensures { result ≡ names_connective text.now }
{
    same_bytes(text, b"true")
        || same_bytes(text, b"false")
        || same_bytes(text, b"not")
        || same_bytes(text, b"and")
        || same_bytes(text, b"or")
        || same_bytes(text, b"implies")
        || same_bytes(text, b"iff")
        || same_bytes(text, b"set")
}

#[tactic(auto, unfolding(crate::specs::Names::names_operator))]
fn is_operator(text: &[u8]) -> bool
    ensures { result ≡ names_operator text.now }
{
    same_bytes(text, b"all")
        || same_bytes(text, b"some")
        || same_bytes(text, b"always")
        || same_bytes(text, b"eventually")
        || same_bytes(text, b"next")
        || same_bytes(text, b"until")
        || same_bytes(text, b"frozen")
        || same_bytes(text, b"saved")
}

#[tactic(auto, unfolding(crate::specs::Names::names_run))]
fn is_run_word(text: &[u8]) -> bool
    ensures { result ≡ names_run text.now }
{
    same_bytes(text, b"structure")
        || same_bytes(text, b"size")
        || same_bytes(text, b"lasso")
        || same_bytes(text, b"stem")
        || same_bytes(text, b"loop")
        || same_bytes(text, b"check")
        || same_bytes(text, b"replay")
}

/// Whether the bytes are a word that no name may be.
pub fn is_reserved_word(text: &[u8]) -> bool
    ensures { result ≡ is_reserved text.now }
{
    is_item_word(text)
        || is_part_word(text)
        || is_connective(text)
        || is_operator(text)
        || is_run_word(text)
}

fn stands_in_names(byte: u8) -> bool
    ensures { result ≡ is_name_byte byte }
{
    byte.is_ascii_alphanumeric() || byte == b'_' || byte == b'-'
}

/// Whether each byte may stand in a name: letters, digits, `_` and `-`.
pub fn all_stand_in_names(text: &[u8]) -> bool
    ensures { result ≡ are_name_bytes text.now }
{
    for byte in text {
        if !stands_in_names(*byte) {
            return false;
        }
    }
    true
}

/// Whether the first byte is a small letter.
pub fn begins_with_small_letter(text: &[u8]) -> bool
    ensures { result ≡ begins_small text.now }
{
    match text {
        [first, ..] => first.is_ascii_lowercase(),
        [] => false,
    }
}
