//! Ports, and the constants that may stand at them.

ghost use Rattle.std.specs.Prelude.{◌≡◌};
ghost use Rattle.vvp_forms.specs.Ports.{between, constant_of, port_at};

use crate::form::Port;
use vvp_lex::{Spanned, Token, bytes_after, bytes_of, span, vector_of};

/// The port of 1 to 128 bits that are written highest first; without bits an unused one.
#[tactic(auto, unfolding(crate::specs::Ports::constant_of))]
fn constant_of(bits: &[u8]) -> Option<Port>
    ensures { result ≡ constant_of bits.now }
{
    if bits.is_empty() {
        return Some(Port::Unused);
    }
    let vector = vector_of(bits)?;
    Some(Port::Fixed(vector))
}

/// What stands between `C4<` and `>`.
fn between(text: &[u8]) -> &[u8]
    ensures { result.now ≡ between text.now }
{
    let rest = bytes_after(text, 3);
    &rest[..rest.len().saturating_sub(1)]
}

/// The port at a place: a symbol or a constant.
#[tactic(auto, unfolding(crate::specs::Ports::port_at))]
pub fn port_at(src: &[u8], tokens: &[Spanned], place: usize) -> Option<Port>
    ensures { result ≡ port_at src.now tokens.now place }
{
    if place < tokens.len() {
        let name = span(tokens[place]);
        match tokens[place].token {
            Token::Word => Some(Port::Sym(name)),
            Token::Const => constant_of(between(bytes_of(src, name))),
            _ => None,
        }
    } else {
        None
    }
}
