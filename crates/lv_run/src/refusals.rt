//! The texts of refusals.
ghost use Rattle.std.specs.Prelude.{◌≡◌, ◌++◌, codes, decimal, OnOk, IfOk};
ghost use Rattle.lv_run.specs.Refusals.{refusal_text, tree_refusal_text, kind_text, syntax_refusal_text};

use itoa::Buffer;
use lv_formula::Memory;
use lv_syntax::{Kind, SyntaxFault};
use lv_tree::TreeFault;
use std::alloc::Global;

fn push_number(text: &mut Vec<u8>, number: u32) -> Result<(), Memory>
    ensures { OnOk result (text.new.items ≡ text.old.items ++ decimal number) }
{
    let mut buffer = Buffer::new();
    text.extend_from_slice(buffer.format(number).as_bytes())?;
    Ok(())
}

/// The place and the kind of a fault.
fn refusal(alloc: Global, at: u32, kind: &str) -> Result<Vec<u8>, Memory>
    ensures { IfOk result (λ text. text.items ≡ refusal_text at kind.now) }
{
    let mut text = Vec::from_slice(alloc, b"text refused at ")?;
    push_number(&mut text, at)?;
    text.extend_from_slice(b": ")?;
    text.extend_from_slice(kind.as_bytes())?;
    text.extend_from_slice(b"\n")?;
    Ok(text)
}

/// What is told of bytes that spell no tree. The error is want of memory.
pub(crate) fn tree_refusal(alloc: Global, fault: &TreeFault) -> Result<Vec<u8>, Memory>
    ensures { IfOk result (λ text. text.items ≡ tree_refusal_text fault.now) }
{
    match fault {
        TreeFault::BadByte { at } => refusal(alloc, *at, "bad byte"),
        TreeFault::Extra { at } => refusal(alloc, *at, "extra"),
        TreeFault::TooDeep { at } => refusal(alloc, *at, "too deep"),
        TreeFault::LongWord { at } => refusal(alloc, *at, "long word"),
        TreeFault::Unclosed { at } => refusal(alloc, *at, "unclosed"),
        TreeFault::Empty => refusal(alloc, 0, "empty"),
        TreeFault::Memory => Ok(Vec::new(alloc)),
    }
}

/// The name of a kind of fault.
fn kind_name(kind: Kind) -> &'static str
    ensures { result.now ≡ kind_text kind }
{
    match kind {
        Kind::Unexpected => "unexpected",
        Kind::Missing => "missing",
        Kind::UnknownName => "unknown name",
        Kind::TwiceNamed => "twice named",
        Kind::WrongSort => "wrong sort",
        Kind::WrongArity => "wrong arity",
        Kind::NotFixed => "not fixed",
        Kind::IsFixed => "is fixed",
        Kind::SetTwice => "set twice",
        Kind::MonitorWord => "monitor word",
        Kind::TooMany => "too many",
        Kind::FreeName => "free name",
    }
}

/// What is told of a tree that spells no system. The error is want of memory.
pub(crate) fn syntax_refusal(alloc: Global, fault: SyntaxFault) -> Result<Vec<u8>, Memory>
    ensures { IfOk result (λ text. text.items ≡ syntax_refusal_text fault) }
{
    refusal(alloc, fault.at, kind_name(fault.kind))
}
