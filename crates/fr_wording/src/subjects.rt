// What is told of a state, one thing after the other.
use fr_notes::Subject;
use fr_program::{App, ObjId, VarId};

/// How many things a state has, for one actor: its depths, the objects and the variables.
pub fn subject_count(app: &App) -> usize {
    let things = app.objects().len().saturating_add(app.variables().len());
    things.saturating_add(2)
}

/// The one of these things with this number: the depths come first, and then the objects.
pub fn subject_at(app: &App, number: usize) -> Subject {
    let objects = app.objects().len();
    match number.checked_sub(2) {
        Some(object) if object < objects => Subject::Object(ObjId(object)),
        Some(thing) => Subject::Variable(VarId(thing.saturating_sub(objects))),
        None if number == 0 => Subject::Critical,
        None => Subject::Suspended,
    }
}
