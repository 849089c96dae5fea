// What is proved of parts, for every application. Each law is a function that does nothing: it is there for its contract.
ghost use Rattle.fr_parts.specs.Laws.{ShareNothing, IsSafeByParts, IsFreeByParts};

/// Instructions of different parts name no common object and no common variable.
pub fn parts_share_nothing()
    ensures { ShareNothing }
{}

/// An application is safe exactly where each of its parts is: where no run in which only the actors of one part move
/// comes to a breach by one of them.
pub fn parts_decide_safety()
    ensures { IsSafeByParts }
{}

/// An application has no deadlock where no run in which only the actors of one part move comes to one.
pub fn parts_decide_deadlocks()
    ensures { IsFreeByParts }
{}
