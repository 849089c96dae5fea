// Lines of code that are remembered with their instructions: in an actor's code many a line is the same as one close above it.
ghost use Rattle.std.specs.Prelude.{◌≡◌, All, Any, IfSome};
ghost use Rattle.fr_instr.specs.Lines.{IsLine};
ghost use Rattle.fr_instr.specs.Names.{NamesOf};

use fr_program::Instr;

/// The most lines that are remembered at once.
const MOST_RECENT: usize = 8;

/// The instruction of a line with the same text, where one is remembered.
pub(crate) fn instr_among(recent: &[(&str, Instr)], line: &str) -> Option<Instr>
    ensures { IfSome result (λ instr. Any (λ e. (e.0.now ≡ line.now) × (e.1 ≡ instr)) recent.now) }
{
    for (text, instr) in recent {
        if *text == line {
            return Some(*instr);
        }
    }
    None
}

/// Forgets what is remembered, where that is as much as is remembered at once.
pub(crate) fn make_room(recent: &mut Vec<(&str, Instr)>)
    ensures { (N : NamesOf) → All (λ e. IsLine N e.0.now e.1) recent.old.items →
        All (λ e. IsLine N e.0.now e.1) recent.new.items }
{
    if recent.len() >= MOST_RECENT {
        recent.clear();
    }
}
