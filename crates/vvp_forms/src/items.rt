//! Scopes, variables, nets, arrays, events and threads: what their rows mean.

ghost use Rattle.std.specs.Prelude.{◌≡◌, ◌<◌, IfOk};
ghost use Rattle.std.specs.Option.{option_map};
ghost use Rattle.vvp_forms.specs.Checks.{kind_needed};
ghost use Rattle.vvp_forms.specs.Choices.{scope_kind};
ghost use Rattle.vvp_forms.specs.Forms.{precision, scope, current_scope, time_scale, variable, net, array, within_of, start_of, edge_event, thread};

use crate::checks::{needed, power, range};
use crate::choices::{edge_kind, scope_kind, start_kind};
use crate::form::{Form, ScopeKind, StartKind, VarKind, Within};
use crate::gates::some_used;
use crate::owned::Boxed;
use crate::pieces::Operands;
use std::alloc::{AllocError, Global};
use vvp_lex::{FormKind, Name, bytes_of};

/// The unit of time of a tick.
#[tactic(auto, unfolding(crate::specs::Forms::precision))]
pub fn precision(operands: &Operands) -> Result<Form, FormKind>
    ensures { result ≡ precision operands.now }
{
    let value = power(operands.integers[0])?;
    Ok(Form::Precision { power: value })
}

/// Where a scope stands, if it has a scope above it. The only error is want of memory.
fn within_of(alloc: Global, operands: &Operands) -> Result<Option<Boxed<Within>>, AllocError>
    ensures { IfOk result (λ within. within ≡ option_map (within_of operands.now) operands.now.symbol) }
{
    match operands.symbol {
        Some(scope) => {
            let within = Within {
                file: operands.numbers[2],
                line: operands.numbers[3],
                cell: operands.numbers[4],
                scope,
            };
            Ok(Some(Boxed::new(alloc, within)?))
        }
        None => Ok(None),
    }
}

/// The kind of scope that a word says.
#[tactic(auto, unfolding(crate::specs::Checks::kind_needed))]
fn scope_said(src: &[u8], word: Option<Name>) -> Result<ScopeKind, FormKind>
    ensures { result ≡ kind_needed scope_kind src.now word }
{
    let name = needed(word)?;
    needed(scope_kind(bytes_of(src, name)))
}

/// A declared scope. The outer error is want of memory.
#[tactic(auto, unfolding(crate::specs::Forms::scope))]
pub fn scope(
    alloc: Global,
    src: &[u8],
    operands: Operands,
) -> Result<Result<Form, FormKind>, AllocError>
    ensures { IfOk result (λ read. read ≡ scope src.now operands) }
{
    let kind = match scope_said(src, operands.kind) {
        Ok(kind) => kind,
        Err(kind) => return Ok(Err(kind)),
    };
    let within = within_of(alloc, &operands)?;
    Ok(Ok(Form::Scope {
        kind,
        name: Boxed::new(alloc, operands.text)?,
        module: Boxed::new(alloc, operands.second_text)?,
        file: operands.numbers[0],
        line: operands.numbers[1],
        within,
    }))
}

/// A scope that becomes current.
#[tactic(auto, unfolding(crate::specs::Forms::current_scope))]
pub fn current_scope(operands: &Operands) -> Result<Form, FormKind>
    ensures { result ≡ current_scope operands.now }
{
    let scope = needed(operands.symbol)?;
    Ok(Form::CurrentScope { scope })
}

/// The unit and the precision of a scope.
#[tactic(auto, unfolding(crate::specs::Forms::time_scale))]
pub fn time_scale(operands: &Operands) -> Result<Form, FormKind>
    ensures { result ≡ time_scale operands.now }
{
    let unit = power(operands.integers[0])?;
    let precision = power(operands.integers[1])?;
    Ok(Form::TimeScale { unit, precision })
}

/// A variable.
#[tactic(auto, unfolding(crate::specs::Forms::variable))]
pub fn variable(kind: VarKind, operands: Operands) -> Result<Form, FormKind>
    ensures { result ≡ variable kind operands }
{
    let range = range(operands.integers[0], operands.integers[1])?;
    Ok(Form::Variable {
        kind,
        starred: operands.starred,
        name: operands.text,
        range,
    })
}

/// A net.
#[tactic(auto, unfolding(crate::specs::Forms::net))]
pub fn net(signed: bool, operands: Operands) -> Result<Form, FormKind>
    ensures { result ≡ net signed operands }
{
    let source = needed(operands.symbol)?;
    let range = range(operands.integers[0], operands.integers[1])?;
    Ok(Form::Net {
        signed,
        starred: operands.starred,
        name: operands.text,
        range,
        source,
    })
}

/// An array.
#[tactic(auto, unfolding(crate::specs::Forms::array))]
pub fn array(kind: VarKind, operands: Operands) -> Result<Form, FormKind>
    ensures { result ≡ array kind operands }
{
    let range = range(operands.integers[2], operands.integers[3])?;
    Ok(Form::Array {
        kind,
        name: operands.text,
        first: operands.integers[0],
        last: operands.integers[1],
        range,
    })
}

/// An event with an edge.
#[tactic(auto, unfolding(crate::specs::Forms::edge_event))]
pub fn edge_event(src: &[u8], operands: Operands) -> Result<Form, FormKind>
    ensures { result ≡ edge_event src.now operands }
{
    let word = needed(operands.kind)?;
    let kind = needed(edge_kind(bytes_of(src, word)))?;
    let ports = some_used(operands.ports)?;
    Ok(Form::EdgeEvent { kind, ports })
}

/// When a thread starts, by the word after its symbol.
fn start_of(src: &[u8], word: Option<Name>) -> Result<StartKind, FormKind>
    ensures { result ≡ start_of src.now word }
{
    match word {
        None => Ok(StartKind::Plain),
        Some(name) => needed(start_kind(bytes_of(src, name))),
    }
}

/// A starting thread.
#[tactic(auto, unfolding(crate::specs::Forms::thread))]
pub fn thread(src: &[u8], operands: &Operands) -> Result<Form, FormKind>
    ensures { result ≡ thread src.now operands.now }
{
    let code = needed(operands.symbol)?;
    let start = start_of(src, operands.kind)?;
    Ok(Form::Thread { code, start })
}
