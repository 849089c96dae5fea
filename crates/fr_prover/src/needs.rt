// What of each note the rest of an actor's code may need: the variables that it reads and the objects that it names, and
// those by which actors may keep out of each other's way.
use crate::lists::{list_at, mark};
use crate::place::{Placed, changed_life, place_at, read, tested};
use crate::table::TruthTable;
use fr_finder::points_before;
use fr_program::{App, Instr};
use std::alloc::{AllocError, Global};

/// What may be needed of the notes.
#[derive(Drop)]
pub struct Needs {
    /// By point and variable: whether its numbers there may be needed.
    pub variables: TruthTable,
    /// By point and object: whether its life there may be needed.
    pub objects: TruthTable,
}

/// The variable to which an instruction gives another number whatever happens, if there is one.
fn overwritten(instr: &Instr) -> Option<usize> {
    match instr {
        Instr::Set { target, .. } | Instr::Pick { target, .. } => Some(target.0),
        _ => None,
    }
}

/// By point and variable: whether some line tests the variable.
fn tested_somewhere(alloc: Global, app: &App) -> Result<TruthTable, AllocError> {
    let mut list = vec![in alloc; false; app.variables().len()]?;
    for number in 0..app.points() {
        if let Some(place) = place_at(app, number) {
            for variable in tested(place.instr) {
                if let Some(variable) = variable {
                    mark(&mut list, variable.0);
                }
            }
        }
    }
    TruthTable::repeated(alloc, app.points(), &list)
}

/// By point and object: whether some line creates or deletes the object.
fn changed_somewhere(alloc: Global, app: &App) -> Result<TruthTable, AllocError> {
    let mut list = vec![in alloc; false; app.objects().len()]?;
    for number in 0..app.points() {
        if let Some(place) = place_at(app, number) {
            if let Some(object) = changed_life(place.instr) {
                mark(&mut list, object);
            }
        }
    }
    TruthTable::repeated(alloc, app.points(), &list)
}

impl Needs {
    /// Marks what the instruction of the point needs.
    fn mark_own(&mut self, place: Placed, number: usize) {
        for variable in read(place.instr) {
            if let Some(variable) = variable {
                self.variables.mark(number, variable.0);
            }
        }
        if let Some(object) = place.instr.object() {
            self.objects.mark(number, object.0);
        }
    }

    /// Marks at a point what is needed at one that it leads to. Whether anything is new.
    fn hand_back(&mut self, app: &App, source: usize, number: usize) -> bool {
        let Some(place) = place_at(app, source) else {
            return false;
        };
        let variables = self
            .variables
            .take(source, number, overwritten(place.instr));
        let objects = self.objects.take(source, number, None);
        variables || objects
    }

    /// What the instructions need by themselves, and at all points what may keep actors apart.
    fn own(alloc: Global, app: &App) -> Result<Needs, AllocError> {
        let mut needs = Needs {
            variables: tested_somewhere(alloc, app)?,
            objects: changed_somewhere(alloc, app)?,
        };
        for number in 0..app.points() {
            if let Some(place) = place_at(app, number) {
                needs.mark_own(place, number);
            }
        }
        Ok(needs)
    }

    /// Marks at the points that lead to this one what is needed at it. Those at which anything is new wait.
    fn hand_back_to_all(
        &mut self,
        app: &App,
        sources: &[usize],
        number: usize,
        waiting: &mut Vec<usize>,
    ) -> Result<(), AllocError> {
        for source in sources {
            if self.hand_back(app, *source, number) {
                waiting.push(*source)?;
            }
        }
        Ok(())
    }

    /// What may be needed at each point of the application: by its own instruction, or by one that the
    /// actor may come to later.
    pub fn of(alloc: Global, app: &App) -> Result<Needs, AllocError> {
        let mut needs = Needs::own(alloc, app)?;
        let sources = points_before(alloc, app)?;
        let mut waiting: Vec<usize> = (0..app.points()).collect(alloc)?;
        for _ in 0..u64::MAX {
            let Some(number) = waiting.pop() else {
                break;
            };
            needs.hand_back_to_all(app, list_at(&sources, number), number, &mut waiting)?;
        }
        Ok(needs)
    }
}
