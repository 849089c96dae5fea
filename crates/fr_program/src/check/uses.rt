// The variables of an instruction: how many are shared, whose they are, and whether they are there.
ghost use Rattle.std.specs.Prelude.{◌≡◌, ◌≤◌, ◌<◌, ◌↔◌, ◌++◌, ◌∷◌, [], IsTrue, IfSome, All, count_by, length};
ghost use Rattle.fr_program.specs.Uses.{variables_of, act_variables, option_list, object_named, given_by};
ghost use Rattle.fr_program.specs.Fault.{is_shared, SharesAtMostOne, MayUse, MayUseAll, NamesThings};
ghost use Rattle.fr_program.specs.InstrFault.{used, InEachPlace, IsVariable};
ghost use Rattle.fr_program.specs.View.{program_of};

use crate::ids::{ActorId, ObjId, VarId};
use crate::instr::{Act, Attempt, Call, Instr};
use crate::parts::Parts;

/// The variables of an instruction: the one that it sets, and those of its two operands. The one that a call names is the last.
#[derive(Clone, Copy)]
pub struct Uses {
    pub target: Option<VarId>,
    pub left: Option<VarId>,
    pub right: Option<VarId>,
}

impl Uses {
    /// These variables, by their places in the line.
    pub fn by_place(self) -> [Option<VarId>; 3]
        ensures { result ≡ self.target ∷ self.left ∷ self.right ∷ [] }
    {
        [self.target, self.left, self.right]
    }
}

impl Instr {
    /// The variables that the instruction names.
    pub fn variables(self) -> Uses
        ensures { used result ≡ variables_of self }
    {
        match self {
            Instr::Set {
                target,
                left,
                operator: _,
                right,
            } => made_of(Some(target), left.variable(), right.variable()),
            Instr::If { left, right, .. } => made_of(None, left.variable(), right.variable()),
            Instr::Pick { target, .. } => made_of(Some(target), None, None),
            Instr::Call(Call::On(call)) => made_of(None, None, act_variable(call.act)),
            _ => made_of(None, None, None),
        }
    }

    /// The object that the instruction names, if it names one.
    pub fn object(self) -> Option<ObjId>
        ensures { result ≡ object_named self }
    {
        match self {
            Instr::Call(call) => call.object(),
            _ => None,
        }
    }

    /// The variable to which the instruction, or the end of its call, gives a number, if there is one. A call that fails
    /// may give it none.
    pub fn written(self) -> Option<VarId>
        ensures { result ≡ given_by self }
    {
        match self {
            Instr::Set { target, .. } | Instr::Pick { target, .. } => Some(target),
            Instr::Call(Call::On(call)) => call.act.written(),
            _ => None,
        }
    }
}

/// These variables as the uses of an instruction.
fn made_of(target: Option<VarId>, left: Option<VarId>, right: Option<VarId>) -> Uses
    ensures target { result.target ≡ target }
    ensures left { result.left ≡ left }
    ensures right { result.right ≡ right }
{
    Uses {
        target,
        left,
        right,
    }
}

/// The variable that an object call names, if it names one.
fn act_variable(act: Act) -> Option<VarId>
    ensures { option_list result ≡ act_variables act }
{
    match act {
        Act::Try {
            attempt: Attempt::QueueSend(value),
            ..
        } => value.variable(),
        _ => act.written(),
    }
}

/// Whether the instruction names shared variables at most once, all its places counted.
pub fn shares_at_most_one(parts: &Parts, instr: Instr) -> bool
    ensures { IsTrue result ↔ SharesAtMostOne (program_of parts.now) instr }
{
    let uses = instr.variables();
    shared_count(parts, uses.target)
        + shared_count(parts, uses.left)
        + shared_count(parts, uses.right)
        <= 1
}

/// 1 where a variable is named and is shared, else 0.
fn shared_count(parts: &Parts, x: Option<VarId>) -> usize
    ensures some { result ≤ 1 }
    ensures count { result ≡ count_by (is_shared (program_of parts.now)) (option_list x) }
{
    match x {
        Some(x) if is_shared(parts, x) => 1,
        _ => 0,
    }
}

/// Whether this is a variable with no owner.
fn is_shared(parts: &Parts, x: VarId) -> bool
    ensures { result ≡ is_shared (program_of parts.now) x }
{
    match parts.variables.get(x.0) {
        Some(variable) => variable.owner.is_none(),
        None => false,
    }
}

/// Whether the actor may use each variable that the instruction names.
pub fn may_use_all(parts: &Parts, actor: ActorId, instr: Instr) -> bool
    ensures { IsTrue result ↔ MayUseAll (program_of parts.now) actor.0 instr }
{
    may_use_places(parts, actor, instr.variables())
}

/// Whether the actor may use each of these variables.
fn may_use_places(parts: &Parts, actor: ActorId, uses: Uses) -> bool
    ensures { IsTrue result ↔ InEachPlace (λ x. MayUse (program_of parts.now) actor.0 x) uses }
{
    may_use(parts, actor, uses.target)
        && may_use(parts, actor, uses.left)
        && may_use(parts, actor, uses.right)
}

/// Whether the actor may use the variable, where one is named: it has no owner, this actor owns it, or
/// its owner is no actor, which is a fault of names alone.
fn may_use(parts: &Parts, actor: ActorId, x: Option<VarId>) -> bool
    ensures { IsTrue result ↔ IfSome x (λ x. MayUse (program_of parts.now) actor.0 x) }
{
    match x {
        Some(x) => match parts.variables.get(x.0) {
            Some(variable) => match variable.owner {
                Some(owner) => owner.0 == actor.0 || parts.actors.len() <= owner.0,
                None => true,
            },
            None => true,
        },
        None => true,
    }
}

/// Whether the application has each variable and the object that the instruction names.
pub fn names_things(parts: &Parts, instr: Instr) -> bool
    ensures { IsTrue result ↔ NamesThings (program_of parts.now) instr }
{
    names_variables(parts, instr) && names_object(parts, instr)
}

/// Whether the application has each variable that the instruction names.
fn names_variables(parts: &Parts, instr: Instr) -> bool
    ensures { IsTrue result
        ↔ All (λ x. IsVariable (program_of parts.now) x) (variables_of instr) }
{
    names_places(parts, instr.variables())
}

/// Whether the application has each of these variables.
fn names_places(parts: &Parts, uses: Uses) -> bool
    ensures { IsTrue result ↔ InEachPlace (λ x. IsVariable (program_of parts.now) x) uses }
{
    names_variable(parts, uses.target)
        && names_variable(parts, uses.left)
        && names_variable(parts, uses.right)
}

/// Whether the application has the variable, where one is named.
fn names_variable(parts: &Parts, x: Option<VarId>) -> bool
    ensures { IsTrue result ↔ IfSome x (λ x. IsVariable (program_of parts.now) x) }
{
    match x {
        Some(x) => x.0 < parts.variables.len(),
        None => true,
    }
}

/// Whether the application has the object that the instruction names, if it names one.
fn names_object(parts: &Parts, instr: Instr) -> bool
    ensures { IsTrue result
        ↔ IfSome (object_named instr) (λ o. o.0 < length (program_of parts.now).objects) }
{
    match instr.object() {
        Some(object) => object.0 < parts.objects.len(),
        None => true,
    }
}
