// Writing: the text of a line.
ghost use Rattle.std.specs.Prelude.{◌≡◌, ◌++◌, IfOk, OnOk, map, option_map, string_bytes};
ghost use Rattle.fr_instr.specs.Calls.{row_of, verb_of};
ghost use Rattle.fr_instr.specs.Lines.{IsLine, IsLineIn};
ghost use Rattle.fr_instr.specs.Views.{texts};
ghost use Rattle.fr_program.specs.declared.instr.Instr.TheVariants as line;
ghost use Rattle.fr_instr.specs.WrittenLine.{natural, joined, operand_text, word_text, time_word, place_word, more_text, args_text, into_name, into_text, else_text, operator_text, comparison_text, set_text, if_text, pick_text, call_text, line_text, written_line};

use crate::call::{self, Slot};
use crate::given::{self, Given};
use crate::names::Names;
use fr_program::{BlockTime, Call, Comparison, Instr as Line, Operand, Operator, VarId};
use itoa::Buffer;
use std::alloc::{AllocError, Global};

/// Appends these texts, one behind the other.
fn push_all(out: &mut String, pieces: &[&str]) -> Result<(), AllocError>
    ensures { OnOk result (string_bytes out.new ≡ string_bytes out.old ++ joined (texts pieces.now)) }
{
    for piece in pieces {
        out.push_str(piece)?;
    }
    Ok(())
}

/// The text of an operand. The buffer is for that of a number.
fn operand_text<'a>(names: &'a Names, operand: Operand, buffer: &'a mut Buffer) -> &'a str
    ensures { result.now ≡ operand_text names.now operand }
{
    match operand {
        Operand::Number(n) => buffer.format(n),
        Operand::Variable(x) => names.variable_text(x),
    }
}

/// The text of a block time. The buffer is for that of a number.
fn time_text(time: BlockTime, buffer: &mut Buffer) -> &str
    ensures { result.now ≡ word_text (time_word time) }
{
    match time {
        BlockTime::Ticks(n) => buffer.format(n as u64),
        BlockTime::MaxDelay => "portMAX_DELAY",
    }
}

/// The text of what is given in a place of this kind. The buffer is for that of a number.
fn place_text<'a>(names: &'a Names, place: Slot, given: &Given, buffer: &'a mut Buffer) -> &'a str
    ensures { result.now ≡ word_text (place_word names.now given.now place) }
{
    match place {
        Slot::Object => names.object_text(given.object),
        Slot::Operand => operand_text(names, given.operand, buffer),
        Slot::Variable => names.variable_text(given.variable),
        Slot::Length => buffer.format(given.bytes as u64),
        Slot::Time => time_text(given.time, buffer),
        Slot::Ticks => buffer.format(given.ticks as u64),
        Slot::Null => "NULL",
    }
}

/// Appends what is given in further places, each behind a comma and a space.
fn push_more_places(
    out: &mut String,
    names: &Names,
    places: &[Slot],
    given: &Given,
) -> Result<(), AllocError>
    ensures { OnOk result (string_bytes out.new ≡ string_bytes out.old ++ more_text (map (place_word names.now given.now) places.now)) }
{
    for place in places {
        let mut buffer = Buffer::new();
        let text = place_text(names, *place, given, &mut buffer);
        push_all(out, &[", ", text])?;
    }
    Ok(())
}

/// Appends what is given in these places, with commas between.
#[tactic(auto, using(std::proofs::Common::append_assoc))]
fn push_places(
    out: &mut String,
    names: &Names,
    places: &[Slot],
    given: &Given,
) -> Result<(), AllocError>
    ensures { OnOk result (string_bytes out.new ≡ string_bytes out.old ++ args_text (map (place_word names.now given.now) places.now)) }
{
    let Some((first, rest)) = places.split_first() else {
        return Ok(());
    };
    let mut buffer = Buffer::new();
    out.push_str(place_text(names, *first, given, &mut buffer))?;
    push_more_places(out, names, rest, given)?;
    Ok(())
}

/// The variable of the result and the sign behind it, if there is one.
fn into_texts(names: &Names, into: Option<VarId>) -> (&str, &str)
    ensures { result.0.now ++ result.1.now ≡ into_text (into_name names.now into) }
{
    match into {
        None => ("", ""),
        Some(x) => (names.variable_text(x), " = "),
    }
}

/// Appends an operand.
fn push_operand(out: &mut String, names: &Names, operand: Operand) -> Result<(), AllocError>
    ensures { OnOk result (string_bytes out.new ≡ string_bytes out.old ++ operand_text names.now operand) }
{
    let mut buffer = Buffer::new();
    out.push_str(operand_text(names, operand, &mut buffer))
}

/// Appends a word and the target behind it.
fn push_target(out: &mut String, word: &str, target: usize) -> Result<(), AllocError>
    ensures { OnOk result (string_bytes out.new ≡ string_bytes out.old ++ (word.now ++ natural target)) }
{
    let mut buffer = Buffer::new();
    push_all(out, &[word, buffer.format(target as u64)])
}

/// Appends the target of a failure, if there is one.
fn push_else(out: &mut String, or_else: Option<usize>) -> Result<(), AllocError>
    ensures { OnOk result (string_bytes out.new ≡ string_bytes out.old ++ else_text (option_map natural or_else)) }
{
    match or_else {
        None => Ok(()),
        Some(target) => push_target(out, " else ", target),
    }
}

/// A call with this name and these places.
#[tactic(auto, using(std::proofs::Common::append_assoc))]
fn push_named(
    out: &mut String,
    names: &Names,
    name: &str,
    places: &[Slot],
    given: &Given,
) -> Result<(), AllocError>
    ensures { OnOk result (string_bytes out.new ≡ string_bytes out.old ++ call_text names.now name.now places.now given.now) }
{
    let (variable, sign) = into_texts(names, given.into);
    push_all(out, &[variable, sign, name, "("])?;
    push_places(out, names, places, given)?;
    out.push_str(")")?;
    push_else(out, given.or_else)?;
    Ok(())
}

/// The name and the places in the row of a call, none where it has no row.
fn name_and_places(call: Call) -> (&'static str, &'static [Slot])
    ensures name { result.0.now ≡ (row_of (verb_of call)).name }
    ensures places { result.1.now ≡ (row_of (verb_of call)).places }
{
    match call::row_for(given::verb_of(call)) {
        Some((name, _, places, _)) => (name, places),
        None => ("", &[]),
    }
}

/// Appends a call.
fn push_call(out: &mut String, names: &Names, call: Call) -> Result<(), AllocError>
    ensures { OnOk result (string_bytes out.new ≡ string_bytes out.old ++ line_text names.now (line.Call call)) }
{
    let (name, places) = name_and_places(call);
    let given = given::given_of(call);
    push_named(out, names, name, places, &given)
}

/// The operator with its spaces.
fn operator_text(operator: Operator) -> &'static str
    ensures { result.now ≡ operator_text operator }
{
    match operator {
        Operator::Plus => " + ",
        Operator::Minus => " - ",
        Operator::Times => " * ",
    }
}

/// The comparison with its spaces.
fn comparison_text(comparison: Comparison) -> &'static str
    ensures { result.now ≡ comparison_text comparison }
{
    match comparison {
        Comparison::Less => " < ",
        Comparison::AtMost => " <= ",
        Comparison::Greater => " > ",
        Comparison::AtLeast => " >= ",
        Comparison::Equal => " == ",
        Comparison::NotEqual => " != ",
    }
}

/// Appends a `set`.
#[tactic(auto, using(std::proofs::Common::append_assoc))]
fn push_set(
    out: &mut String,
    names: &Names,
    target: VarId,
    left: Operand,
    operator: Operator,
    right: Operand,
) -> Result<(), AllocError>
    ensures { OnOk result (string_bytes out.new ≡ string_bytes out.old ++ set_text names.now target left operator right) }
{
    push_all(out, &["set ", names.variable_text(target), " = "])?;
    push_operand(out, names, left)?;
    out.push_str(operator_text(operator))?;
    push_operand(out, names, right)?;
    Ok(())
}

/// Appends an `if`.
#[tactic(auto, using(std::proofs::Common::append_assoc))]
fn push_if(
    out: &mut String,
    names: &Names,
    left: Operand,
    comparison: Comparison,
    right: Operand,
    target: usize,
) -> Result<(), AllocError>
    ensures { OnOk result (string_bytes out.new ≡ string_bytes out.old ++ if_text names.now left comparison right target) }
{
    out.push_str("if ")?;
    push_operand(out, names, left)?;
    out.push_str(comparison_text(comparison))?;
    push_operand(out, names, right)?;
    push_target(out, " goto ", target)?;
    Ok(())
}

/// Appends a `pick`.
fn push_pick(
    out: &mut String,
    names: &Names,
    target: VarId,
    lo: i64,
    hi: i64,
) -> Result<(), AllocError>
    ensures { OnOk result (string_bytes out.new ≡ string_bytes out.old ++ pick_text names.now target lo hi) }
{
    let (mut first, mut second) = (Buffer::new(), Buffer::new());
    let target = names.variable_text(target);
    push_all(
        out,
        &[
            "pick ",
            target,
            " ",
            first.format(lo),
            " ",
            second.format(hi),
        ],
    )
}

/// Appends a line.
fn push_line(out: &mut String, names: &Names, line: &Line) -> Result<(), AllocError>
    ensures { OnOk result (string_bytes out.new ≡ string_bytes out.old ++ line_text names.now line.now) }
{
    match *line {
        Line::Set {
            target,
            left,
            operator,
            right,
        } => push_set(out, names, target, left, operator, right),
        Line::If {
            left,
            comparison,
            right,
            target,
        } => push_if(out, names, left, comparison, right, target),
        Line::Goto { target } => push_target(out, "goto ", target),
        Line::Pick { target, lo, hi } => push_pick(out, names, target, lo, hi),
        Line::Call(call) => push_call(out, names, call),
        Line::Return => out.push_str("return"),
    }
}

/// The text of the line, with these names: one space between tokens, except none before or behind
/// `(`, none before `)` and none before `,`; the operator of a `set` is always written. It is read
/// again as the same line.
///
/// The line is one of the grammar: its variables and its object are among the names, and its
/// numbers are within the limits of their places.
///
/// Its error is that an allocation was refused.
pub fn write_line(alloc: Global, line: &Line, names: &Names) -> Result<String, AllocError>
    requires { IsLineIn names.now line.now }
    ensures written { IfOk result (λ s. string_bytes s ≡ written_line names.now line.now) }
    ensures again { IfOk result (λ s. IsLine names.now (string_bytes s) line.now) }
{
    names.recall_names();
    let mut out = String::new(alloc);
    push_line(&mut out, names, line)?;
    Ok(out)
}
