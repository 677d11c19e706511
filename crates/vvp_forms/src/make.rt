//! The form that a row means with its operands.

ghost use Rattle.std.specs.Prelude.{◌≡◌, IfOk};
ghost use Rattle.vvp_forms.specs.Forms.{form_of};

use crate::form::Form;
use crate::gates::{
    arithmetic, compare, concat, delay, extend, functor, part, part_from, part_into, reduce,
    repeat, resolver, room, shift,
};
use crate::items::{
    array, current_scope, edge_event, net, precision, scope, thread, time_scale, variable,
};
use crate::pieces::Operands;
use crate::table::Row;
use std::alloc::{AllocError, Global};
use vvp_lex::FormKind;

/// The form that a row means with its operands. Refused where they are not as the row wants them: `BadOperands` before
/// `VectorTooWide`. The outer error is want of memory.
#[tactic(auto, unfolding(crate::specs::Forms::form_of))]
#[rattlefmt::skip]
pub fn form_of(alloc: Global, src: &[u8], row: Row, operands: Operands) -> Result<Result<Form, FormKind>, AllocError>
    ensures { IfOk result (λ read. read ≡ form_of src.now row operands) }
{
    match row {
        Row::Version | Row::IgnoredText | Row::IgnoredNumber | Row::LoneText => Ok(Ok(Form::Ignored)),
        Row::Parameter => Ok(Ok(Form::Parameter)),
        Row::Precision => Ok(precision(&operands)),
        Row::Scope => scope(alloc, src, operands),
        Row::CurrentScope => Ok(current_scope(&operands)),
        Row::TimeScale => Ok(time_scale(&operands)),
        Row::Variable(kind) => Ok(variable(kind, operands)),
        Row::Net(signed) => Ok(net(signed, operands)),
        Row::Array(kind) => Ok(array(kind, operands)),
        Row::Functor => Ok(functor(src, operands)),
        Row::Resolver => Ok(resolver(src, operands)),
        Row::Part => Ok(part(&operands, room(alloc)?)),
        Row::PartInto => Ok(part_into(&operands, room(alloc)?)),
        Row::PartFrom(signed) => Ok(part_from(signed, &operands, room(alloc)?, room(alloc)?)),
        Row::Concat => Ok(concat(operands)),
        Row::Arithmetic(kind) => Ok(arithmetic(kind, &operands, room(alloc)?, room(alloc)?)),
        Row::Compare(kind) => Ok(compare(kind, &operands, room(alloc)?, room(alloc)?)),
        Row::Shift(kind) => Ok(shift(kind, &operands, room(alloc)?, room(alloc)?)),
        Row::Reduce(kind) => Ok(reduce(kind, &operands, room(alloc)?)),
        Row::Repeat => Ok(repeat(&operands, room(alloc)?)),
        Row::Extend => Ok(extend(&operands, room(alloc)?)),
        Row::Delay => Ok(delay(&operands)),
        Row::EdgeEvent => Ok(edge_event(src, operands)),
        Row::NamedEvent => Ok(Ok(Form::NamedEvent { name: operands.text })),
        Row::EventOr => Ok(Ok(Form::EventOr { events: operands.symbols })),
        Row::Thread => Ok(thread(src, &operands)),
    }
}
