// The numbers at which a range that grows may rest: those that the code tests, sets, picks or receives.
use crate::lists::{insert, insert_inside, list_at};
use crate::place::{number_of, place_at};
use fr_finder::empty_lists;
use fr_program::{
    Act, App, Attempt, Call, Instr, Kind, ObjectCall, Operand, Operator, Range, VarId,
};
use std::alloc::{AllocError, Global};

/// Which variables are copied, computed or compared with one another: each with the name of its kin,
/// which is one of their numbers.
#[derive(Drop)]
pub struct Kin {
    names: Vec<usize>,
}

impl Kin {
    /// The name of the variable's kin.
    pub fn name(&self, variable: usize) -> usize {
        match self.names.get(variable) {
            Some(name) => *name,
            None => variable,
        }
    }

    /// Makes the kin of both variables one.
    fn join(&mut self, one: VarId, other: VarId) {
        let (kept, gone) = (self.name(one.0), self.name(other.0));
        for name in self.names.iter_mut() {
            if *name == gone {
                *name = kept;
            }
        }
    }
}

/// The variables that become kin by an instruction.
fn relatives(instr: &Instr) -> [Option<VarId>; 3] {
    match instr {
        Instr::Set { .. } => instr.variables().by_place(),
        Instr::If { left, right, .. } => [left.variable(), right.variable(), None],
        _ => [None, None, None],
    }
}

/// Makes the first variable kin with each of the others.
fn join_all(kin: &mut Kin, variables: [Option<VarId>; 3]) {
    let [Some(first), second, third] = variables else {
        return;
    };
    if let Some(second) = second {
        kin.join(first, second);
    }
    if let Some(third) = third {
        kin.join(first, third);
    }
}

/// Which variables of an application are kin.
pub fn kin_of(alloc: Global, app: &App) -> Result<Kin, AllocError> {
    let names = (0..app.variables().len()).collect(alloc)?;
    let mut kin = Kin { names };
    for number in 0..app.points() {
        if let Some(place) = place_at(app, number) {
            join_all(&mut kin, relatives(place.instr));
        }
    }
    Ok(kin)
}

/// Rising lists of numbers, by the name of the variables' kin.
#[derive(Drop)]
struct Gathering<'a> {
    app: &'a App,
    kin: &'a Kin,
    lists: Vec<Vec<i128>>,
}

impl<'a> Gathering<'a> {
    /// Adds a number for the variable's kin.
    fn add(&mut self, variable: VarId, number: i128) -> Result<(), AllocError> {
        let name = self.kin.name(variable.0);
        if let Some(list) = self.lists.get_mut(name) {
            insert(list, number)?;
        }
        Ok(())
    }

    /// Adds two numbers for the variable's kin.
    fn add_both(&mut self, variable: VarId, one: i128, other: i128) -> Result<(), AllocError> {
        self.add(variable, one)?;
        self.add(variable, other)
    }

    /// Adds the number that the operand is, if it is one.
    fn add_operand(&mut self, variable: VarId, operand: Operand) -> Result<(), AllocError> {
        match number_of(operand) {
            Some(number) => self.add(variable, number),
            None => Ok(()),
        }
    }

    /// Adds the variable's declared ends moved inwards by the number, whatever its sign.
    fn add_moved_ends(&mut self, variable: VarId, number: i64) -> Result<(), AllocError> {
        let by = i128::from(number).unsigned_abs();
        let (Some(declared), Ok(by)) = (self.app.variables().get(variable.0), i64::try_from(by))
        else {
            return Ok(());
        };
        let (lo, hi) = (i128::from(declared.lo), i128::from(declared.hi));
        self.add_both(variable, lo + i128::from(by), hi - i128::from(by))
    }

    /// Adds what a `set` tells of its variable.
    fn add_set(
        &mut self,
        target: VarId,
        left: Operand,
        operator: Operator,
        right: Operand,
    ) -> Result<(), AllocError> {
        self.add_operand(target, left)?;
        self.add_operand(target, right)?;
        match (left, operator, right) {
            (Operand::Variable(_), Operator::Plus | Operator::Minus, Operand::Number(number)) => {
                self.add_moved_ends(target, number)
            }
            (Operand::Number(one), Operator::Plus, Operand::Number(other)) => {
                self.add(target, i128::from(one) + i128::from(other))
            }
            (Operand::Number(one), Operator::Minus, Operand::Number(other)) => {
                self.add(target, i128::from(one) - i128::from(other))
            }
            _ => Ok(()),
        }
    }

    /// Adds what a test tells of the variable that an operand is, if it is one.
    fn add_test(&mut self, operand: Operand, other: Operand) -> Result<(), AllocError> {
        match operand.variable() {
            Some(variable) => self.add_operand(variable, other),
            None => Ok(()),
        }
    }

    /// Adds the ends of a queue's values for the variable that is sent to it or receives from it.
    fn add_queue(&mut self, call: &ObjectCall, variable: Option<VarId>) -> Result<(), AllocError> {
        let Some(variable) = variable else {
            return Ok(());
        };
        let Some(object) = self.app.objects().get(call.object.0) else {
            return Ok(());
        };
        match object.kind {
            Kind::Queue { lo, hi, .. } => self.add_both(variable, i128::from(lo), i128::from(hi)),
            _ => Ok(()),
        }
    }

    /// Adds what a call's result can be: nothing, one byte, or all of its length.
    fn add_result(&mut self, variable: VarId, length: u32) -> Result<(), AllocError> {
        self.add_both(variable, 0, 1)?;
        self.add(variable, i128::from(length))
    }

    /// Adds what an object call tells of the variables that it names.
    fn add_call(&mut self, call: &ObjectCall) -> Result<(), AllocError> {
        match call.act {
            Act::Move {
                length,
                result: Some(variable),
                ..
            } => self.add_result(variable, length),
            Act::Try {
                attempt: Attempt::QueueSend(operand),
                ..
            } => self.add_queue(call, operand.variable()),
            Act::Try {
                attempt: Attempt::QueueReceive(variable),
                ..
            } => self.add_queue(call, Some(variable)),
            _ => Ok(()),
        }
    }

    /// Adds what an instruction tells of the variables that it names.
    fn add_instr(&mut self, instr: &Instr) -> Result<(), AllocError> {
        match instr {
            Instr::Set {
                target,
                left,
                operator,
                right,
            } => self.add_set(*target, *left, *operator, *right),
            Instr::If { left, right, .. } => {
                self.add_test(*left, *right)?;
                self.add_test(*right, *left)
            }
            Instr::Pick { target, lo, hi } => {
                self.add_both(*target, i128::from(*lo), i128::from(*hi))
            }
            Instr::Call(Call::On(call)) => self.add_call(call),
            _ => Ok(()),
        }
    }

    /// Adds what all instructions tell.
    fn add_instrs(&mut self) -> Result<(), AllocError> {
        for number in 0..self.app.points() {
            if let Some(place) = place_at(self.app, number) {
                self.add_instr(place.instr)?;
            }
        }
        Ok(())
    }

    /// Adds each variable's first number.
    fn add_starts(&mut self) -> Result<(), AllocError> {
        for (variable, declared) in self.app.variables().iter().enumerate() {
            self.add(VarId(variable), i128::from(declared.init))?;
        }
        Ok(())
    }
}

/// The declared ends, and of the numbers each that lies between them, with the ones beside it.
fn inside(alloc: Global, declared: Range, numbers: &[i128]) -> Result<Vec<i128>, AllocError> {
    let mut thresholds = Vec::new(alloc);
    insert(&mut thresholds, declared.lo)?;
    insert(&mut thresholds, declared.hi)?;
    for number in numbers {
        insert_inside(&mut thresholds, declared, number.saturating_sub(1))?;
        insert_inside(&mut thresholds, declared, *number)?;
        insert_inside(&mut thresholds, declared, number.saturating_add(1))?;
    }
    Ok(thresholds)
}

/// By the name of the variables' kin: the numbers that the application tells of, rising.
fn gathered(alloc: Global, app: &App, kin: &Kin) -> Result<Vec<Vec<i128>>, AllocError> {
    let lists = empty_lists(alloc, app.variables().len())?;
    let mut gathering = Gathering { app, kin, lists };
    gathering.add_starts()?;
    gathering.add_instrs()?;
    Ok(gathering.lists)
}

/// By variable: the numbers at which a range that grows may rest, rising.
pub fn thresholds(alloc: Global, app: &App, kin: &Kin) -> Result<Vec<Vec<i128>>, AllocError> {
    let gathered = gathered(alloc, app, kin)?;
    let variables = app.variables().len();
    let mut thresholds = Vec::with_capacity(alloc, variables)?;
    for variable in 0..variables {
        let numbers = list_at(&gathered, kin.name(variable));
        thresholds.push(inside(alloc, app.range(VarId(variable)), numbers)?)?;
    }
    Ok(thresholds)
}
