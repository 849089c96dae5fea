// From bytes to an application.
ghost use Rattle.std.specs.Prelude.{◌≡◌, ℕ, List, Bool, false, IfOk, IfErr};
ghost use Rattle.toml.specs.View.{table_view};
ghost use Rattle.fr_program.specs.Program.{Program};
ghost use Rattle.fr_program.specs.View.{program_of};
ghost use Rattle.fr_reader.specs.Texts.{Texts, AreTexts};
ghost use Rattle.fr_reader.specs.Meaning.{IsTableText, Means, Says, lists_in};
ghost use Rattle.fr_reader.specs.Faults.{Standing, is_memory};
ghost use Rattle.fr_reader.specs.Stands.{InBytes, InNamed, InText, Stands};
ghost use Rattle.fr_reader.specs.declared.fault.ReadFault.{ReadFault as Refusal};

use crate::fault::ReadFault;
use crate::{parts, texts};
use fr_instr::Names;
use fr_program::{App, Parts};
use std::alloc::Global;
use toml::Table;

/// How many bytes the text of an application has at the most.
pub const MOST_APPLICATION_BYTES: usize = 1_048_576;

/// The table that the bytes are the text of.
fn table_of(alloc: Global, bytes: &[u8]) -> Result<Table, ReadFault>
    ensures ok { IfOk result (λ table. IsTableText bytes.now (table_view table)) }
    ensures err { IfErr result (Standing (InBytes bytes.now)) }
{
    if bytes.len() > MOST_APPLICATION_BYTES {
        return Err(ReadFault::TooLong);
    }
    match toml::table_from_slice(alloc, bytes) {
        Ok(table) => Ok(table),
        Err(error) => Err(if error.is_memory() {
            ReadFault::Memory
        } else {
            ReadFault::Toml
        }),
    }
}

/// The names in the table of an application's text, with which its lines are read.
///
/// # Errors
///
/// A fault of the table, of what is at its keys, or of its names, that is present; or `Memory`.
pub fn names_in(alloc: Global, table: &Table) -> Result<Names, ReadFault>
    ensures ok { IfOk result (λ names. (texts : Texts) × AreTexts (table_view table.now) texts × (names ≡ lists_in texts)) }
    ensures err { IfErr result (Standing (InNamed (table_view table.now))) }
{
    let texts = texts::texts_of(alloc, table)?;
    parts::names_of(alloc, &texts)
}

/// The parts that the table of an application's text says, which may be no application.
///
/// # Errors
///
/// A fault of the table, of its names, its owners or its lines, that is present; or `Memory`.
pub fn parts_in(alloc: Global, table: &Table) -> Result<Parts, ReadFault>
    ensures ok { IfOk result (λ parts. (texts : Texts) × AreTexts (table_view table.now) texts × Says texts (program_of parts)) }
    ensures err { IfErr result (Standing (InText (table_view table.now))) }
{
    let texts = texts::texts_of(alloc, table)?;
    parts::parts_of(alloc, &texts)
}

/// The application that the bytes mean.
///
/// The bytes are a TOML text, as the crate `toml` reads it, of at most 1,048,576 bytes, with the
/// keys `variable`, `object` and `actor`, each an array of tables; this is this project's profile.
/// Each line of an actor's code is read by `fr_instr::read_line`, and the parts are an application
/// where `App::build` says so.
///
/// Its errors are those of `ReadFault`: one that is present in the bytes, where they mean no
/// application. `Line` comes only where none of the faults before it in `ReadFault` is present, and
/// `Build` only where none before it and no `Line` is. `is_memory` tells the refusal of an allocation
/// from all others.
pub fn read_app(alloc: Global, bytes: &[u8]) -> Result<App, ReadFault>
    ensures ok { IfOk result (Means bytes.now) }
    ensures err { IfErr result (Standing (Stands bytes.now)) }
{
    let table = table_of(alloc, bytes)?;
    let texts = texts::texts_of(alloc, &table)?;
    let parts = parts::parts_of(alloc, &texts)?;
    match App::build(alloc, parts) {
        Ok(app) => Ok(app),
        Err((fault, _)) => Err(ReadFault::Build(fault)),
    }
}

/// Bytes mean one application at the most.
pub fn one_meaning()
    ensures { (bytes : List ℕ) (P Q : Program) → Means bytes P → Means bytes Q → P ≡ Q }
{}

/// Bytes in which a fault is present mean no application, but for a refused allocation.
pub fn no_meaning()
    ensures { (bytes : List ℕ) (f : Refusal) (P : Program) → is_memory f ≡ false → Stands bytes f → Means bytes P → ⊥ }
{}
