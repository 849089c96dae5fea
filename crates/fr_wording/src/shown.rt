// Points and rules as reports show them.
ghost use Rattle.std.specs.Prelude.{◌≡◌};
ghost use Rattle.fr_program.specs.Lookup.{IsPoint, actor_at, object_at, variable_at};
ghost use Rattle.fr_program.specs.Points.{point_number};
ghost use Rattle.fr_wording.specs.Names.{rule_text};

use fr_calls::Rule;
use fr_program::{ActorId, App, Kind, ObjId, Point, VarId};

/// The number of a point of the application; 0 of another one.
pub fn number_of(app: &App, point: Point) -> usize
    ensures { IsPoint app.now point → result ≡ point_number app.now point }
{
    app.number(point).unwrap_or(0)
}

/// The name of an actor of the application, or no text where there is none.
pub fn actor_name(app: &App, actor: ActorId) -> &str
    ensures { result.now ≡ (actor_at app.now actor.0).name }
{
    match app.actors().get(actor.0) {
        Some(actor) => actor.name.as_str(),
        None => "",
    }
}

/// The name of an object of the application, or no text where there is none.
pub fn object_name(app: &App, object: ObjId) -> &str
    ensures { result.now ≡ (object_at app.now object.0).name }
{
    match app.objects().get(object.0) {
        Some(object) => object.name.as_str(),
        None => "",
    }
}

/// The name of a variable of the application, or no text where there is none.
pub fn variable_name(app: &App, variable: VarId) -> &str
    ensures { result.now ≡ (variable_at app.now variable.0).name }
{
    match app.variables().get(variable.0) {
        Some(variable) => variable.name.as_str(),
        None => "",
    }
}

/// Whether the object is a mutex, plain or recursive.
pub fn is_mutex(app: &App, object: ObjId) -> bool {
    match app.objects().get(object.0) {
        Some(object) => matches!(object.kind, Kind::Mutex | Kind::Recursive),
        None => false,
    }
}

/// What a report says of a breached rule. Rules 1 and 2 are reported as guards, so that nobody reads
/// their two texts.
pub fn rule_text(rule: Rule) -> &'static str
    ensures { result.now ≡ rule_text rule }
{
    match rule {
        Rule::OneWriter => "two actors at the writing end of a buffer",
        Rule::OneReader => "two actors at the reading end of a buffer",
        Rule::GivenByHolder => "mutex given by an actor that does not hold it",
        Rule::AllowedInCritical => "call not allowed in a critical section",
        Rule::AllowedSuspended => "call not allowed while the scheduler is suspended",
        Rule::AllowedInInterrupt => "call not allowed in an interrupt",
        Rule::IsLive => "handle is not live",
        Rule::LifeInOrder => "object deleted in use or created while live",
        Rule::SuitsSemaphore => "call does not suit this kind of semaphore",
        Rule::DepthAboveZero => "depth is already zero",
        Rule::EndsInOrder => "actor ends in the wrong way",
        Rule::InRange => "value out of its declared range",
    }
}
