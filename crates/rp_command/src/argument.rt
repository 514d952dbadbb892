//! The arguments of a command as they are listed, and what clap has of them.
ghost use Rattle.std.specs.Prelude.{◌≡◌, None, IfOk, map};
ghost use Rattle.clap.specs.Words.{rule_of};
ghost use Rattle.rp_command.specs.Commands.{by_flag, by_name_if_any, by_number, by_place_if_any};
ghost use Rattle.rp_command.specs.Listed.{by_form, rule_by};

use clap::{Arg, ArgAction, value_parser};
use std::alloc::{AllocError, Global};

/// An argument of a command.
pub(crate) struct Argument {
    /// What it is called: of an option, the word behind `--`.
    pub(crate) name: &'static str,
    /// What help calls the value of an option that has one; else nothing.
    pub(crate) value: &'static str,
    /// What help tells of it.
    pub(crate) help: &'static str,
    /// What it takes.
    pub(crate) form: Form,
    /// Whether it must be given.
    pub(crate) presence: Presence,
}

/// What an argument takes.
#[derive(Clone, Copy)]
pub(crate) enum Form {
    /// An option with a text.
    Text,
    /// An option with a text, which may be given again and again.
    Texts,
    /// An option with a number from 1 to 4,294,967,295.
    Number,
    /// An option without a value.
    Flag,
    /// A text by its place.
    Place,
    /// Texts by their place, one or more, which stand together.
    Places,
}

/// Whether an argument must be given.
#[derive(Clone, Copy)]
pub(crate) enum Presence {
    /// It must be given.
    Required,
    /// It may be left out.
    Optional,
    /// It may be left out, and is this text then.
    Usual(&'static str),
}

/// The arguments that are listed, as clap has them.
pub(crate) fn new_arguments<'a>(
    alloc: Global,
    listed: &[Argument],
) -> Result<Vec<Arg<'a>>, AllocError>
    ensures { IfOk result (λ arguments. map rule_of arguments.items ≡ map rule_by listed.now) }
{
    let mut arguments = Vec::new(alloc);
    for argument in listed {
        arguments.push(new_argument(alloc, argument))?;
    }
    Ok(arguments)
}

/// The argument that is listed, as clap has it.
fn new_argument<'a>(alloc: Global, listed: &Argument) -> Arg<'a>
    ensures { rule_of result ≡ rule_by listed.now }
{
    let argument = argument_of_form(alloc, listed);
    match listed.presence {
        Presence::Required => argument.required(true),
        Presence::Optional => argument,
        Presence::Usual(text) => argument.default_value(text),
    }
}

/// The argument, as if it needn't be given.
fn argument_of_form<'a>(alloc: Global, listed: &Argument) -> Arg<'a>
    ensures { rule_of result ≡ by_form listed.now.form listed.now.name.now }
{
    match listed.form {
        Form::Text => option(alloc, listed).action(ArgAction::Set),
        Form::Texts => option(alloc, listed).action(ArgAction::Append),
        Form::Number => number(alloc, listed),
        Form::Flag => flag(alloc, listed),
        Form::Place => place(alloc, listed),
        Form::Places => place(alloc, listed).num_args(1..),
    }
}

/// An option with a value, which clap does nothing with yet.
fn option<'a>(alloc: Global, listed: &Argument) -> Arg<'a>
    ensures { rule_of result ≡ record (by_name_if_any listed.now.name.now) { action = None } }
{
    let option = Arg::new(alloc, listed.name).help(listed.help);
    option.long(listed.name).value_name(listed.value)
}

/// An option with a number.
fn number<'a>(alloc: Global, listed: &Argument) -> Arg<'a>
    ensures { rule_of result ≡ by_number listed.now.name.now }
{
    let numbers = value_parser!(u32).range(1..);
    let option = option(alloc, listed).action(ArgAction::Set);
    option.value_parser(numbers)
}

/// An option without a value.
fn flag<'a>(alloc: Global, listed: &Argument) -> Arg<'a>
    ensures { rule_of result ≡ by_flag listed.now.name.now }
{
    let flag = Arg::new(alloc, listed.name).help(listed.help);
    let flag = flag.long(listed.name).action(ArgAction::SetTrue);
    flag.value_parser(value_parser!(bool))
}

/// A text by its place.
fn place<'a>(alloc: Global, listed: &Argument) -> Arg<'a>
    ensures { rule_of result ≡ by_place_if_any listed.now.name.now }
{
    let place = Arg::new(alloc, listed.name).help(listed.help);
    place.action(ArgAction::Set)
}
