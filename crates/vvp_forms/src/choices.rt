//! The words that say a kind.

ghost use Rattle.std.specs.Prelude.{◌≡◌};
ghost use Rattle.vvp_forms.specs.Choices.{scope_kind, functor_type, resolution, edge_kind, start_kind};

use crate::form::{EdgeKind, Gate, ScopeKind, StartKind};
use four_state::ResKind;

/// The kind of scope that a word says.
#[tactic(auto, unfolding(crate::specs::Choices::scope_kind))]
pub fn scope_kind(word: &[u8]) -> Option<ScopeKind>
    ensures { result ≡ scope_kind word.now }
{
    if word == b"module".as_slice() {
        return Some(ScopeKind::Module);
    }
    if word == b"task".as_slice() {
        return Some(ScopeKind::Task);
    }
    if word == b"begin".as_slice() {
        return Some(ScopeKind::Begin);
    }
    if word == b"fork".as_slice() {
        return Some(ScopeKind::Fork);
    }
    if word == b"generate".as_slice() {
        return Some(ScopeKind::Generate);
    }
    if word == b"package".as_slice() {
        return Some(ScopeKind::Package);
    }
    None
}

/// The gate whose type a word says.
#[tactic(auto, unfolding(crate::specs::Choices::functor_type))]
pub fn functor_type(word: &[u8]) -> Option<Gate>
    ensures { result ≡ functor_type word.now }
{
    if word == b"AND".as_slice() {
        return Some(Gate::And);
    }
    if word == b"OR".as_slice() {
        return Some(Gate::Or);
    }
    if word == b"XOR".as_slice() {
        return Some(Gate::Xor);
    }
    if word == b"NAND".as_slice() {
        return Some(Gate::Nand);
    }
    if word == b"NOR".as_slice() {
        return Some(Gate::Nor);
    }
    if word == b"XNOR".as_slice() {
        return Some(Gate::Xnor);
    }
    if word == b"BUF".as_slice() {
        return Some(Gate::Buf);
    }
    if word == b"NOT".as_slice() {
        return Some(Gate::Not);
    }
    if word == b"BUFZ".as_slice() {
        return Some(Gate::Bufz);
    }
    if word == b"BUFT".as_slice() {
        return Some(Gate::Buft);
    }
    if word == b"MUXZ".as_slice() {
        return Some(Gate::Muxz);
    }
    None
}

/// How the word of a resolver joins its drivers.
#[tactic(auto, unfolding(crate::specs::Choices::resolution))]
pub fn resolution(word: &[u8]) -> Option<ResKind>
    ensures { result ≡ resolution word.now }
{
    if word == b"tri".as_slice() {
        return Some(ResKind::Tri);
    }
    if word == b"tri0".as_slice() {
        return Some(ResKind::Tri0);
    }
    if word == b"tri1".as_slice() {
        return Some(ResKind::Tri1);
    }
    if word == b"triand".as_slice() {
        return Some(ResKind::Triand);
    }
    if word == b"trior".as_slice() {
        return Some(ResKind::Trior);
    }
    None
}

/// The edge that a word says.
#[tactic(auto, unfolding(crate::specs::Choices::edge_kind))]
pub fn edge_kind(word: &[u8]) -> Option<EdgeKind>
    ensures { result ≡ edge_kind word.now }
{
    if word == b"posedge".as_slice() {
        return Some(EdgeKind::Pos);
    }
    if word == b"negedge".as_slice() {
        return Some(EdgeKind::Neg);
    }
    if word == b"edge".as_slice() {
        return Some(EdgeKind::Any);
    }
    if word == b"anyedge".as_slice() {
        return Some(EdgeKind::Any);
    }
    None
}

/// When a thread with this word starts.
#[tactic(auto, unfolding(crate::specs::Choices::start_kind))]
pub fn start_kind(word: &[u8]) -> Option<StartKind>
    ensures { result ≡ start_kind word.now }
{
    if word == b"$push".as_slice() {
        return Some(StartKind::Push);
    }
    if word == b"$init".as_slice() {
        return Some(StartKind::Init);
    }
    None
}
