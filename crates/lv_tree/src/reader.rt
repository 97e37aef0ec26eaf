ghost use Rattle.std.specs.Prelude.{◌≡◌, ℕ, ◌<◌, ◌≤◌, ◌^◌, ◌-◌, ◌&&◌, nat_lt, not, true, false, [], ◌∷◌, ◌++◌, length, IfOk, OnOk, IfErr};
ghost use Rattle.lv_tree.specs.Bytes.{is_word_byte, is_allowed_byte};
ghost use Rattle.lv_tree.specs.Spelling.{SpellsTree, Opens, Closes, Spells, tokens_of, tokens_of_all, fits_in, all_fit_in, is_text};
ghost use Rattle.lv_tree.specs.Reading.{IsFault, IsTreeOrMemory};
ghost use Rattle.lv_tree.specs.Reader.{IsSound, TakesByte, EndsWord, GivesTree, Reads, state_of};
ghost use Rattle.lv_tree.specs.Faults.{is_empty, fault_at, fault_at_end, fault_of};

use crate::fault::TreeFault;
use crate::list::{List, Text};
use crate::tree::Tree;
use std::alloc::Global;
use std::mem;

/// The most bytes that a text may have.
pub const MAX_BYTES: usize = 1_048_576;

/// The most bytes that a word may have.
const MAX_WORD: usize = 64;

/// The most lists that may be open at one place.
const MAX_DEPTH: usize = 64;

/// An open list: the place of its `(`, and what stands before it in the list around it.
#[derive(Drop)]
struct Frame {
    at: u32,
    before: Vec<Tree>,
}

/// What was read so far.
///
/// The open lists stand on a stack of the reader's own, so that no text makes calls nest.
#[derive(Drop)]
struct Reader {
    /// The open lists, the innermost one last.
    outer: Vec<Frame>,
    /// The items of the innermost open list, or the tree if none is open.
    items: Vec<Tree>,
    /// Whether the tree began.
    begun: bool,
    /// The bytes of the word that is being read.
    word: Vec<u8>,
    /// Whether a comment is being read.
    comment: bool,
}

/// Whether the byte may stand in a word.
fn is_word(byte: u8) -> bool
    ensures { result ≡ is_word_byte byte }
{
    byte.is_ascii_alphanumeric() || byte == b'_' || byte == b'-' || byte == b'.' || byte == b'='
}

/// Whether the byte may stand outside a comment.
fn is_allowed(byte: u8) -> bool
    ensures { result ≡ is_allowed_byte byte }
{
    is_word(byte)
        || byte == b' '
        || byte == b'\t'
        || byte == b'\n'
        || byte == b'\r'
        || byte == b'('
        || byte == b')'
        || byte == b';'
}

fn word_at(at: u32, text: Vec<u8>) -> Tree
    ensures tokens { tokens_of result ≡ Spells at text.items ∷ [] }
    ensures fits { (room : ℕ) → fits_in room result ≡ is_text text.items }
{
    Tree::Word {
        at,
        text: Text::from_vec(text),
    }
}

fn group_at(at: u32, end: u32, items: Vec<Tree>) -> Tree
    ensures tokens { tokens_of result ≡ Opens at ∷ tokens_of_all items.items ++ Closes end ∷ [] }
    ensures fits { (room : ℕ) → fits_in room result ≡ nat_lt 0 room && all_fit_in (room - 1) items.items }
{
    Tree::Group {
        at,
        end,
        items: List::from_vec(items),
    }
}

impl Reader {
    fn new(alloc: Global) -> Reader
        ensures outer { result.outer.items ≡ [] }
        ensures items { result.items.items ≡ [] }
        ensures begun { result.begun ≡ false }
        ensures word { result.word.items ≡ [] }
        ensures comment { result.comment ≡ false }
    {
        Reader {
            outer: Vec::new(alloc),
            items: Vec::new(alloc),
            begun: false,
            word: Vec::new(alloc),
            comment: false,
        }
    }

    /// Whether the tree began, and no list is open.
    fn is_past_lists(&self) -> bool
        ensures { result ≡ self.now.begun && is_empty self.now.outer.items }
    {
        self.begun && self.outer.is_empty()
    }

    /// Whether a word reaches this place.
    fn has_word(&self) -> bool
        ensures { result ≡ not (is_empty self.now.word.items) }
    {
        !self.word.is_empty()
    }

    /// Takes the byte at the place `at`.
    fn take(&mut self, alloc: Global, at: u32, byte: u8) -> Result<(), TreeFault>
        requires { IsSound self.old at }
        ensures ok { OnOk result (TakesByte self.old at byte self.new) }
        ensures err { IfErr result (λ e. IsFault e (fault_at (state_of self.old) at byte)) }
    {
        if self.comment {
            self.comment = byte != b'\n';
            return Ok(());
        }
        if !is_allowed(byte) {
            return Err(TreeFault::BadByte { at });
        }
        if is_word(byte) {
            return self.push_word_byte(at, byte);
        }
        self.end_word(alloc, at)?;
        match byte {
            b'(' => self.open(alloc, at),
            b')' => self.close(at),
            b';' => {
                self.comment = true;
                Ok(())
            }
            _ => Ok(()),
        }
    }

    /// Adds a byte to the word that reaches the place `at`, or begins a word there.
    fn push_word_byte(&mut self, at: u32, byte: u8) -> Result<(), TreeFault>
        requires sound { IsSound self.old at }
        requires is_word { is_word_byte byte ≡ true }
        requires outside { self.old.comment ≡ false }
        ensures ok { OnOk result (TakesByte self.old at byte self.new) }
        ensures err { IfErr result (λ e. IsFault e (fault_at (state_of self.old) at byte)) }
    {
        if self.is_past_lists() && !self.has_word() {
            return Err(TreeFault::Extra { at });
        }
        if self.word.len() >= MAX_WORD {
            return Err(TreeFault::LongWord { at });
        }
        self.word.push(byte)?;
        self.begun = true;
        Ok(())
    }

    /// Makes the word that reaches the place `at` an item, if there is one.
    fn end_word(&mut self, alloc: Global, at: u32) -> Result<(), TreeFault>
        requires { IsSound self.old at }
        ensures ok { OnOk result (EndsWord self.old at self.new) }
        ensures err { IfErr result (λ e. e ≡ TreeFault.Memory) }
    {
        if self.has_word() {
            let start = at - self.word.len() as u32;
            let text = mem::replace(&mut self.word, Vec::new(alloc));
            self.items.push(word_at(start, text))?;
        }
        Ok(())
    }

    /// Opens a list at the place `at`.
    fn open(&mut self, alloc: Global, at: u32) -> Result<(), TreeFault>
        requires sound { IsSound self.old at }
        requires between { self.old.word.items ≡ [] }
        requires outside { self.old.comment ≡ false }
        ensures ok { OnOk result (TakesByte self.old at 40 self.new) }
        ensures err { IfErr result (λ e. IsFault e (fault_at (state_of self.old) at 40)) }
    {
        if self.is_past_lists() {
            return Err(TreeFault::Extra { at });
        }
        if self.outer.len() >= MAX_DEPTH {
            return Err(TreeFault::TooDeep { at });
        }
        let before = mem::replace(&mut self.items, Vec::new(alloc));
        self.outer.push(Frame { at, before })?;
        self.begun = true;
        Ok(())
    }

    /// Closes the innermost open list at the place `at`.
    fn close(&mut self, at: u32) -> Result<(), TreeFault>
        requires sound { IsSound self.old at }
        requires between { self.old.word.items ≡ [] }
        requires outside { self.old.comment ≡ false }
        ensures ok { OnOk result (TakesByte self.old at 41 self.new) }
        ensures err { IfErr result (λ e. IsFault e (fault_at (state_of self.old) at 41)) }
    {
        match self.outer.pop() {
            None => Err(TreeFault::Extra { at }),
            Some(frame) => {
                let Frame { at: start, before } = frame;
                let items = mem::replace(&mut self.items, before);
                self.items.push(group_at(start, at, items))?;
                Ok(())
            }
        }
    }

    /// The tree, where the bytes end at the place `at`.
    fn finish(mut self, alloc: Global, at: u32) -> Result<Tree, TreeFault>
        requires { IsSound self at }
        ensures ok { IfOk result (GivesTree self at) }
        ensures err { IfErr result (λ e. IsFault e (fault_at_end (state_of self))) }
    {
        if let Some(frame) = self.outer.pop() {
            return Err(TreeFault::Unclosed { at: frame.at });
        }
        self.end_word(alloc, at)?;
        match self.items.pop() {
            Some(tree) => Ok(tree),
            None => Err(TreeFault::Empty),
        }
    }
}

/// What `read_tree` answers, in the words of the reader.
fn read(alloc: Global, bytes: &[u8]) -> Result<Tree, TreeFault>
    requires { length bytes.now < 2 ^ 32 }
    ensures ok { IfOk result (Reads bytes.now) }
    ensures err { IfErr result (λ e. IsFault e (fault_of bytes.now)) }
{
    let mut reader = Reader::new(alloc);
    for (at, &byte) in bytes.iter().enumerate() {
        reader.take(alloc, at as u32, byte)?;
    }
    reader.finish(alloc, bytes.len() as u32)
}

/// The tree that the bytes spell, or the fault that they have.
///
/// No call nests, and time and memory grow with the length alone. Dropping the tree nests as deep as
/// its lists do.
pub fn read_tree(alloc: Global, bytes: &[u8]) -> Result<Tree, TreeFault>
    requires { length bytes.now ≤ MAX_BYTES }

    // The tree that is answered is spelled.
    ensures found { IfOk result (SpellsTree bytes.now) }

    // A tree that is spelled is answered, unless memory runs out.
    ensures only { (t : Tree) → SpellsTree bytes.now t → IsTreeOrMemory t result }

    // The fault that is answered is the bytes' own, unless memory ran out.
    ensures fault { IfErr result (λ e. IsFault e (fault_of bytes.now)) }
{
    read(alloc, bytes)
}
