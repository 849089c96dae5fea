// The parts that the texts say: owners by number, and lines as instructions.
ghost use Rattle.std.specs.Prelude.{◌≡◌, ◌++◌, Some, true, All, IfOk, IfErr, OnOk, map, option_copied, string_bytes};
ghost use Rattle.std.specs.List.{AllZip};
ghost use Rattle.fr_instr.specs.Lines.{IsLine};
ghost use Rattle.fr_program.specs.View as program;
ghost use Rattle.fr_reader.specs.Meaning.{AreNames, IsOwner, IsOwned, IsCoded, Says, names_in, lists_in};
ghost use Rattle.fr_reader.specs.Faults.{is_memory, Standing};
ghost use Rattle.fr_reader.specs.Stands.{InNames, IsNoOwner, InOwner, InOwners, InLine, InLines, InCode, InSaid, InTexts};
ghost use Rattle.fr_reader.specs.Views.{variable_text, object_text, actor_text, line_text, texts_view};

use crate::actor::ActorText;
use crate::fault::ReadFault;
use crate::key::{Key, TableName};
use crate::object::ObjectText;
use crate::texts::Texts;
use crate::variable::VariableText;
use crate::{names, recent};
use fr_instr::Names;
use fr_program::{Actor, ActorId, Instr, Object, Parts, Variable};
use std::alloc::Global;

/// The actor that a variable's owner names, where it has one.
fn owner_of(
    names: &Names,
    table: TableName,
    owner: Option<&str>,
) -> Result<Option<ActorId>, ReadFault>
    ensures ok { IfOk result (IsOwner names.now.actors (option_copied owner.entry)) }
    ensures err { IfErr result (Standing (IsNoOwner names.now.actors table (option_copied owner.entry))) }
{
    let Some(name) = owner else {
        return Ok(None);
    };
    match names.actor(name) {
        Some(actor) => Ok(Some(actor)),
        None => Err(ReadFault::WrongType(table, Key::Owner)),
    }
}

/// A variable as an application has it.
fn variable_of(
    alloc: Global,
    names: &Names,
    table: TableName,
    text: &VariableText,
) -> Result<Variable, ReadFault>
    ensures ok { IfOk result (λ v. IsOwned names.now.actors (variable_text text.now) (program.variable_of v)) }
    ensures err { IfErr result (Standing (InOwner names.now.actors table (variable_text text.now))) }
{
    Ok(Variable {
        name: String::from_str(alloc, text.name)?,
        lo: text.lo,
        hi: text.hi,
        init: text.init,
        owner: owner_of(names, table, text.owner)?,
    })
}

/// The variables as an application has them.
fn variables_of(
    alloc: Global,
    names: &Names,
    texts: &[VariableText],
) -> Result<Vec<Variable>, ReadFault>
    ensures ok { IfOk result (λ vs. AllZip (IsOwned names.now.actors) (map variable_text texts.now) (map program.variable_of vs.items)) }
    ensures err { IfErr result (Standing (InOwners names.now.actors (map variable_text texts.now))) }
{
    let mut variables = Vec::new(alloc);
    for (index, text) in texts.iter().enumerate() {
        variables.push(variable_of(alloc, names, TableName::Variable(index), text)?)?;
    }
    Ok(variables)
}

/// An object as an application has it.
fn object_of(alloc: Global, text: &ObjectText) -> Result<Object, ReadFault>
    ensures ok { IfOk result (λ o. program.object_of o ≡ object_text text.now) }
    ensures err { IfErr result (λ f. is_memory f ≡ true) }
{
    Ok(Object {
        name: String::from_str(alloc, text.name)?,
        kind: text.kind,
        live: text.live,
    })
}

/// The objects as an application has them.
fn objects_of(alloc: Global, texts: &[ObjectText]) -> Result<Vec<Object>, ReadFault>
    ensures ok { IfOk result (λ os. AllZip (λ text o. o ≡ text) (map object_text texts.now) (map program.object_of os.items)) }
    ensures err { IfErr result (λ f. is_memory f ≡ true) }
{
    let mut objects = Vec::new(alloc);
    for text in texts {
        objects.push(object_of(alloc, text)?)?;
    }
    Ok(objects)
}

/// The instruction of the line with this number in the code of the actor with this name.
fn instr_of(
    alloc: Global,
    names: &Names,
    actor: &str,
    index: usize,
    line: &str,
) -> Result<Instr, ReadFault>
    ensures ok { IfOk result (IsLine names.now line.now) }
    ensures err { IfErr result (Standing (InLine names.now actor.now index line.now)) }
{
    match fr_instr::read_line(alloc, line, names) {
        Ok(instr) => Ok(instr),
        Err(fault) => Err(ReadFault::Line {
            actor: String::from_str(alloc, actor)?,
            index,
            fault,
        }),
    }
}

/// The same, where these lines are remembered with their instructions: a line that is the same as one of them isn't read
/// again, and one that is read is remembered.
fn instr_once<'a>(
    alloc: Global,
    names: &Names,
    actor: &str,
    index: usize,
    line: &'a str,
    recent: &mut Vec<(&'a str, Instr)>,
) -> Result<Instr, ReadFault>
    requires { All (λ e. IsLine names.now e.0.now e.1) recent.old.items }
    ensures ok { IfOk result (IsLine names.now line.now) }
    ensures recent { OnOk result (All (λ e. IsLine names.now e.0.now e.1) recent.new.items) }
    ensures err { IfErr result (Standing (InLine names.now actor.now index line.now)) }
{
    if let Some(instr) = recent::instr_among(recent, line) {
        return Ok(instr);
    }
    let instr = instr_of(alloc, names, actor, index, line)?;
    recent::make_room(recent);
    recent.push((line, instr))?;
    Ok(instr)
}

/// The instructions that the lines of this actor mean.
fn code_of(
    alloc: Global,
    names: &Names,
    actor: &str,
    lines: &[&str],
) -> Result<Vec<Instr>, ReadFault>
    ensures ok { IfOk result (λ code. AllZip (IsLine names.now) (map line_text lines.now) code.items) }
    ensures err { IfErr result (Standing (InLines names.now actor.now (map line_text lines.now))) }
{
    let mut code = Vec::new(alloc);
    let mut recent = Vec::new(alloc);
    for (index, line) in lines.iter().enumerate() {
        code.push(instr_once(alloc, names, actor, index, line, &mut recent)?)?;
    }
    Ok(code)
}

/// An actor as an application has it.
fn actor_of(alloc: Global, names: &Names, text: &ActorText) -> Result<Actor, ReadFault>
    ensures ok { IfOk result (λ a. IsCoded names.now (actor_text text.now) (program.actor_of a)) }
    ensures err { IfErr result (Standing (InLines names.now text.now.name.now (map line_text text.now.lines.items))) }
{
    Ok(Actor {
        name: String::from_str(alloc, text.name)?,
        kind: text.kind,
        code: code_of(alloc, names, text.name, &text.lines)?,
    })
}

/// The actors as an application has them.
fn actors_of(alloc: Global, names: &Names, texts: &[ActorText]) -> Result<Vec<Actor>, ReadFault>
    ensures ok { IfOk result (λ xs. AllZip (IsCoded names.now) (map actor_text texts.now) (map program.actor_of xs.items)) }
    ensures err { IfErr result (Standing (InCode names.now (map actor_text texts.now))) }
{
    let mut actors = Vec::new(alloc);
    for text in texts {
        actors.push(actor_of(alloc, names, text)?)?;
    }
    Ok(actors)
}

/// The parts that the texts say, where these are the names in them. Owners are asked for first, then
/// lines.
fn parts_with(alloc: Global, names: &Names, texts: &Texts) -> Result<Parts, ReadFault>
    requires { names.now ≡ lists_in (texts_view texts.now) }
    ensures ok { IfOk result (λ parts. Says (texts_view texts.now) (program.program_of parts)) }
    ensures err { IfErr result (Standing (InSaid (texts_view texts.now))) }
{
    Ok(Parts {
        variables: variables_of(alloc, names, &texts.variables)?,
        objects: objects_of(alloc, &texts.objects)?,
        actors: actors_of(alloc, names, &texts.actors)?,
    })
}

/// The names in the texts, with which their lines are read.
pub(crate) fn names_of(alloc: Global, texts: &Texts) -> Result<Names, ReadFault>
    ensures names { IfOk result (λ _. AreNames (names_in (texts_view texts.now))) }
    ensures ok { IfOk result (λ names. names ≡ lists_in (texts_view texts.now)) }
    ensures err { IfErr result (Standing (InNames (names_in (texts_view texts.now)))) }
{
    let lists = names::names_of(alloc, texts)?;
    names::check_names(alloc, &lists)?;
    let names = Names::build(alloc, &lists.variables, &lists.objects, &lists.actors)?;
    Ok(names)
}

/// The parts that the texts say. Names are asked for first, then owners, then lines.
pub(crate) fn parts_of(alloc: Global, texts: &Texts) -> Result<Parts, ReadFault>
    ensures names { IfOk result (λ _. AreNames (names_in (texts_view texts.now))) }
    ensures ok { IfOk result (λ parts. Says (texts_view texts.now) (program.program_of parts)) }
    ensures err { IfErr result (Standing (InTexts (texts_view texts.now))) }
{
    let names = names_of(alloc, texts)?;
    parts_with(alloc, &names, texts)
}
