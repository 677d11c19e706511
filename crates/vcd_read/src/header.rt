//! The header of a dump: its time scale, scopes and variables (IEEE 1364-2005, 18.2.3).

ghost use Rattle.std.specs.Prelude.{◌≡◌, ◌<◌, ◌≤◌, ◌^◌, ◌++◌, OnOk, IfOk, None, length, map, slice_index};
ghost use Rattle.vcd_read.specs.Reading.{Takes, need, plain, var_width, leave, command, unit, scale, scope_name, declared, var_code, var_name, start};
ghost use Rattle.vcd_read.specs.Parts.{path_of, net_of};

use crate::bytes::{
    digits_len, is_end, is_number, is_real, is_remark, is_text, number_power, unit_power,
};
use crate::names::{Codes, Names};
use crate::types::{Stop, Vars, VcdKind, VcdVar};
use four_state::{Vec4, Widths};
use std::alloc::{AllocError, Global};
use vvp_lex::{Bytes, number_value};

/// What the next word has to be.
#[derive(Clone, Copy)]
pub(crate) enum Wanted {
    /// The word of a command of the header.
    Command,
    /// Any word of the header, up to the command's `$end`.
    Text,
    /// The `$end` of a command of the header.
    Close,
    /// The number of the time scale, and perhaps its unit.
    Scale,
    /// The unit of the time scale, whose number is 10 to this power.
    ScaleUnit(u8),
    /// The kind of a scope.
    ScopeKind,
    /// Its name.
    ScopeName,
    /// The kind of a variable.
    VarKind,
    /// Its width.
    VarWidth,
    /// Its code. It has this width.
    VarCode(u8),
    /// Its name. It has this net.
    VarName(u32),
    /// The `$end` of `$enddefinitions`.
    Start,
    /// An entry of the body.
    Entry,
    /// Any word of the body, up to the comment's `$end`.
    Remark,
    /// The code of a net that takes these bits.
    Code(Vec4),
}

/// What the header has said so far.
#[derive(Drop)]
pub(crate) struct Header<'a> {
    /// The unit of time is 10 to this power seconds.
    pub(crate) power: i8,
    /// The names of the open scopes, the innermost last.
    pub(crate) scopes: Names<'a>,
    /// The code of each net.
    pub(crate) nets: Codes<'a>,
    /// The width of each net.
    pub(crate) widths: Widths,
    /// The variables.
    pub(crate) vars: Vars,
}

/// What comes after a word that changes nothing of what is known.
pub(crate) fn plain(wanted: Wanted, word: &[u8]) -> Result<Wanted, VcdKind>
    ensures { result ≡ plain wanted word.now }
{
    match wanted {
        Wanted::Text if is_end(word) => Ok(Wanted::Command),
        Wanted::Text => Ok(Wanted::Text),
        Wanted::Close => need(is_end(word), Wanted::Command),
        Wanted::ScopeKind => need(!is_end(word), Wanted::ScopeName),
        Wanted::VarKind => need(!(is_end(word) || is_real(word)), Wanted::VarWidth),
        Wanted::VarWidth => var_width(word),
        Wanted::Start => need(is_end(word), Wanted::Entry),
        Wanted::Remark if is_end(word) => Ok(Wanted::Entry),
        Wanted::Remark => Ok(Wanted::Remark),
        _ => Err(VcdKind::BadWord),
    }
}

/// What comes next where a condition holds, else a bad word.
pub(crate) fn need(condition: bool, next: Wanted) -> Result<Wanted, VcdKind>
    ensures { result ≡ need condition next }
{
    if condition {
        Ok(next)
    } else {
        Err(VcdKind::BadWord)
    }
}

/// The width of a variable.
fn var_width(word: &[u8]) -> Result<Wanted, VcdKind>
    ensures { result ≡ var_width word.now }
{
    if !is_number(word) {
        return Err(VcdKind::BadWord);
    }
    match number_value(word) {
        Some(width) if width <= 128 => need(width != 0, Wanted::VarCode(width as u8)),
        _ => Err(VcdKind::TooWide),
    }
}

/// The names of scopes and a name, joined by `.`.
fn path_of(alloc: Global, scopes: &[&[u8]], name: &[u8]) -> Result<Bytes, AllocError>
    ensures { IfOk result (λ path. path ≡ path_of (map (λ scope. scope.now) scopes.now) name.now) }
{
    let mut path = Bytes::new(alloc);
    for scope in scopes {
        append(&mut path, scope)?;
        path.push(b'.')?;
    }
    append(&mut path, name)?;
    Ok(path)
}

/// Bytes more, at the end.
fn append(path: &mut Bytes, more: &[u8]) -> Result<(), AllocError>
    ensures { OnOk result (path.new ≡ path.old ++ more.now) }
{
    for byte in more {
        path.push(*byte)?;
    }
    Ok(())
}

impl<'a> Header<'a> {
    /// A header that has said nothing.
    pub(crate) fn new(alloc: Global) -> Header<'a>
        ensures { result ≡ start.header }
    {
        Header {
            power: 0,
            scopes: Names::new(alloc),
            nets: Codes::new(alloc),
            widths: Widths::new(alloc),
            vars: Vars::new(alloc),
        }
    }

    /// The time scale, the widths and the variables.
    pub(crate) fn into_parts(self) -> (i8, Widths, Vars)
        ensures { result ≡ (self.entry.power, self.entry.widths, self.entry.vars) }
    {
        let Header {
            power,
            widths,
            vars,
            ..
        } = self;
        (power, widths, vars)
    }

    /// The word of a command.
    #[tactic(auto, unfolding(crate::specs::Reading::command))]
    pub(crate) fn command(&mut self, word: &[u8]) -> Result<Wanted, Stop>
        ensures { Takes result self.new (command self.old word.now) }
    {
        if is_remark(word) {
            Ok(Wanted::Text)
        } else if is_text(word, b"$timescale") {
            Ok(Wanted::Scale)
        } else if is_text(word, b"$scope") {
            Ok(Wanted::ScopeKind)
        } else if is_text(word, b"$upscope") {
            self.leave()
        } else if is_text(word, b"$var") {
            Ok(Wanted::VarKind)
        } else {
            Ok(need(is_text(word, b"$enddefinitions"), Wanted::Start)?)
        }
    }

    /// Closes the innermost scope, where one is open.
    fn leave(&mut self) -> Result<Wanted, Stop>
        ensures { Takes result self.new (leave self.old) }
    {
        if self.scopes.pop() {
            Ok(Wanted::Close)
        } else {
            Err(Stop::Refused(VcdKind::BadWord))
        }
    }

    /// The unit of the time scale.
    #[tactic(auto, unfolding(crate::specs::Reading::unit))]
    pub(crate) fn unit(&mut self, power: u8, word: &[u8]) -> Result<Wanted, Stop>
        requires { power ≤ 2 }
        ensures { Takes result self.new (unit self.old power word.now) }
    {
        match unit_power(word) {
            Some(of_unit) => {
                self.power = power as i8 + of_unit;
                Ok(Wanted::Close)
            }
            None => Err(Stop::Refused(VcdKind::BadWord)),
        }
    }

    /// The number of the time scale, and perhaps its unit.
    #[tactic(auto, unfolding(crate::specs::Reading::scale))]
    pub(crate) fn scale(&mut self, word: &[u8]) -> Result<Wanted, Stop>
        ensures { Takes result self.new (scale self.old word.now) }
    {
        let (number, rest) = word.split_at(digits_len(word));
        match number_power(number) {
            Some(power) if rest.is_empty() => Ok(Wanted::ScaleUnit(power)),
            Some(power) => self.unit(power, rest),
            None => Err(Stop::Refused(VcdKind::BadWord)),
        }
    }

    /// The name of a scope.
    #[tactic(auto, unfolding(crate::specs::Reading::scope_name))]
    pub(crate) fn scope_name(&mut self, word: &'a [u8]) -> Result<Wanted, Stop>
        ensures { Takes result self.new (scope_name self.old word.now) }
    {
        if is_end(word) {
            return Err(Stop::Refused(VcdKind::BadWord));
        }
        self.scopes.push(word)?;
        Ok(Wanted::Close)
    }

    /// The code of a variable of this width.
    #[tactic(auto, unfolding(crate::specs::Reading::var_code))]
    pub(crate) fn var_code(&mut self, width: u8, word: &'a [u8]) -> Result<Wanted, Stop>
        requires same { length self.old.nets ≡ length self.old.widths }
        requires few { length self.old.widths < 2 ^ 32 }
        ensures { Takes result self.new (var_code self.old width word.now) }
    {
        if is_end(word) {
            return Err(Stop::Refused(VcdKind::BadWord));
        }
        match self.nets.find(word) {
            Some(net) => Ok(need(self.width_of(net) == width, Wanted::VarName(net))?),
            None => self.add_net(width, word),
        }
    }

    /// The width of a net, 0 where there is none.
    pub(crate) fn width_of(&self, net: u32) -> u8
        ensures { result ≡ slice_index self.now.widths net }
    {
        match self.widths.as_slice().get(net as usize) {
            Some(width) => *width,
            None => 0,
        }
    }

    /// One net more, with a code that isn't declared.
    fn add_net(&mut self, width: u8, code: &'a [u8]) -> Result<Wanted, Stop>
        requires same { length self.old.nets ≡ length self.old.widths }
        requires few { length self.old.widths < 2 ^ 32 }
        requires fresh { net_of self.old.nets code.now ≡ None }
        ensures { Takes result self.new (declared self.old width code.now None) }
    {
        let net = self.widths.as_slice().len() as u32;
        self.nets.push(code, net)?;
        self.widths.push(width)?;
        Ok(Wanted::VarName(net))
    }

    /// The name of a variable of this net.
    #[tactic(auto, unfolding(crate::specs::Reading::var_name))]
    pub(crate) fn var_name(&mut self, alloc: Global, net: u32, word: &[u8]) -> Result<Wanted, Stop>
        ensures { Takes result self.new (var_name self.old net word.now) }
    {
        if is_end(word) {
            return Err(Stop::Refused(VcdKind::BadWord));
        }
        let path = path_of(alloc, &self.scopes.names, word)?;
        self.vars.push(VcdVar { path, net })?;
        Ok(Wanted::Text)
    }
}
