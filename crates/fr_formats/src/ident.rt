// The rules and parts that can fail: their names, and what a report says of them.
ghost use Rattle.std.specs.Prelude.{◌≡◌, bytes_eq, map};
ghost use Rattle.std.specs.List.{position_from};
ghost use Rattle.fr_formats.specs.Names.{rule_index as index_of, rule_name as name_of_rule, rule_names};

use fr_rules::Rule;

/// A rule or a part that can fail.
#[derive(Clone, Copy)]
pub(crate) struct Ident {
    /// Its name, which never changes.
    pub name: &'static str,
    /// What it says when it fails.
    pub short: &'static str,
    /// What usually causes it, and what to do.
    pub help: &'static str,
}

/// All of them: the twelve rules, the other parts of a verdict, and what else a report can say.
const IDENTS: [Ident; 33] = [
    Ident {
        name: "rule-1",
        short: "Two actors at the writing end of a buffer",
        help: "A stream or message buffer has one writer at a time. Let one task alone write to it, or let all writers hold one mutex or take turns while they write.",
    },
    Ident {
        name: "rule-2",
        short: "Two actors at the reading end of a buffer",
        help: "A stream or message buffer has one reader at a time. Let one task alone read from it, or let all readers hold one mutex or take turns while they read.",
    },
    Ident {
        name: "rule-3",
        short: "Mutex given by an actor that does not hold it",
        help: "A take with a block time can fail. Jump past the give where the take failed.",
    },
    Ident {
        name: "rule-4",
        short: "Call not allowed in a critical section",
        help: "Leave the critical section before the call. Allowed inside are only entering and leaving critical sections, and sends and receives of stream and message buffers with a block time of 0 or in their FromISR forms.",
    },
    Ident {
        name: "rule-5",
        short: "Call not allowed while the scheduler is suspended",
        help: "Resume the scheduler before the call. Allowed inside are only suspending and resuming, and entering and leaving critical sections.",
    },
    Ident {
        name: "rule-6",
        short: "Call not allowed in an interrupt",
        help: "Use the form of the call for interrupts, whose name ends in FromISR or _FROM_ISR.",
    },
    Ident {
        name: "rule-7",
        short: "Handle is not live",
        help: "A create can fail, and another actor can delete the object. Test the create with else, and let nobody delete what others use.",
    },
    Ident {
        name: "rule-8",
        short: "Object deleted in use or created while live",
        help: "Delete an object only where nobody is inside a call on it, and create it only where it is not live.",
    },
    Ident {
        name: "rule-9",
        short: "Call does not suit this kind of semaphore",
        help: "Take and give a recursive mutex by its recursive calls, other semaphores by the plain ones, and no mutex from an interrupt.",
    },
    Ident {
        name: "rule-10",
        short: "Depth is already zero",
        help: "A critical section is left, or the scheduler resumed, that was never entered or suspended. Take the exit out.",
    },
    Ident {
        name: "rule-11",
        short: "Actor ends in the wrong way",
        help: "End a task by vTaskDelete(NULL), without a mutex; let an interrupt return outside critical sections.",
    },
    Ident {
        name: "rule-12",
        short: "Value out of its declared range",
        help: "A variable, an index or a counter leaves the range that the application declares. Test it before, or declare a wider range.",
    },
    Ident {
        name: "entry",
        short: "The first note is not true at the start",
        help: "The note of the actor's first point says more than what is so when the scheduler starts.",
    },
    Ident {
        name: "goes-to",
        short: "A step leads to a point whose note is not true after it",
        help: "The note before the step says too little, or the note after it too much. If the firmware can get there, fix the firmware.",
    },
    Ident {
        name: "guard",
        short: "Nothing keeps others out of this end of a buffer",
        help: "Inside a call on a buffer the note has to show the guard of that end: the one actor, the mutex that is held, or the value of the turn.",
    },
    Ident {
        name: "near",
        short: "Another actor can delete the object of this call",
        help: "While an actor is inside a call on an object, another one can delete it, by what both notes say.",
    },
    Ident {
        name: "spoiled-by",
        short: "A step of another actor makes this note false",
        help: "The note says something that another actor can change. Let the note say less, or keep the other actor out by a critical section, a mutex or a turn.",
    },
    Ident {
        name: "refused",
        short: "A file is refused",
        help: "The application or the certificate cannot be read. The message says what the fault is, and where.",
    },
    Ident {
        name: "states-left",
        short: "No breach was found, and more states are left",
        help: "The search ended before all states were seen. Give it more states, make the application smaller, or ask prove.",
    },
    Ident {
        name: "never-reached",
        short: "Lines of code are never reached",
        help: "By the certificate the actor is never at these lines, and nothing is asked there. A wrong target can be the cause.",
    },
    Ident {
        name: "never-used",
        short: "Variable or object is never used",
        help: "No line of code names it. A line may name another one in its place.",
    },
    Ident {
        name: "no-actors",
        short: "There is no task and no interrupt",
        help: "The application has no code, so nothing in it can break a rule. Add its tasks and interrupts.",
    },
    Ident {
        name: "deadlock",
        short: "Actors wait for one another's mutexes for ever",
        help: "Each of them holds a mutex and waits without limit for the next one's. Let all take these mutexes in one order, or give the takes a block time.",
    },
    Ident {
        name: "may-deadlock",
        short: "No order of the mutexes excludes a deadlock",
        help: "By the certificate, mutexes are taken in different orders; whether a run deadlocks it doesn't say. Let all take them in one order, or give the takes a block time.",
    },
    Ident {
        name: "held-while-waiting",
        short: "A mutex is held while its task waits without limit",
        help: "Whoever takes the mutex waits as long. Give the mutex back before the wait, or give the wait a block time.",
    },
    Ident {
        name: "never-given",
        short: "A mutex is taken where it can be held already",
        help: "On some way back to the take the mutex isn't given, so the task waits for itself. Give it on every way.",
    },
    Ident {
        name: "lost-update",
        short: "An update of a shared variable can be lost",
        help: "A task copies the variable and sets it from the copy, and another one can set it in between. Let both hold one mutex, or be in a critical section.",
    },
    Ident {
        name: "used-one-way",
        short: "Variable is read and never written, or written and never read",
        help: "A wrong name can be the cause. Take the variable out, or name it where it is meant.",
    },
    Ident {
        name: "buffer-in-critical-section",
        short: "A buffer is used in a critical section of a task",
        help: "A kernel with several cores calls vTaskSuspendAll in the call, which asserts that its task isn't in a critical section. Let a mutex guard the buffer.",
    },
    Ident {
        name: "not-followed",
        short: "No run of the application has this event of the trace",
        help: "Run follow with --explain; then fix the application's file or the firmware, whichever is wrong.",
    },
    Ident {
        name: "not-listed",
        short: "The trace has something that the application does not list",
        help: "The firmware has a task, an interrupt, an object or a call that isn't in the application's file. Add it there, or take it out of the firmware.",
    },
    Ident {
        name: "gave-up",
        short: "The search had more states than it may keep",
        help: "There are too many ways to explain the events up to this line. Record more (values, marks, begin and end of handlers), or allow more states with --states.",
    },
    Ident {
        name: "breach",
        short: "The firmware was seen breaking a rule",
        help: "A run of the application has the events up to this line, and breaks the rule there. If the application's file is right, the firmware did so, as far as the search saw: fix it, and then the file.",
    },
];

/// The name of a rule, as `rule-7`, which never changes.
pub fn rule_name(rule: Rule) -> &'static str
    ensures { result.now ≡ name_of_rule rule }
{
    match rule {
        Rule::OneWriter => "rule-1",
        Rule::OneReader => "rule-2",
        Rule::GivenByHolder => "rule-3",
        Rule::AllowedInCritical => "rule-4",
        Rule::AllowedSuspended => "rule-5",
        Rule::AllowedInInterrupt => "rule-6",
        Rule::IsLive => "rule-7",
        Rule::LifeInOrder => "rule-8",
        Rule::SuitsSemaphore => "rule-9",
        Rule::DepthAboveZero => "rule-10",
        Rule::EndsInOrder => "rule-11",
        Rule::InRange => "rule-12",
    }
}

/// All of them, in the order of a report's rules.
pub(crate) fn idents() -> &'static [Ident]
    ensures { map (λ ident. ident.name.now) result.now ≡ rule_names }
{
    &IDENTS
}

/// The index of the name among those of these.
fn index_among(idents: &[Ident], name: &str) -> Option<usize>
    ensures { result ≡ position_from (λ ident. bytes_eq ident.name.now name.now) 0 idents.now }
{
    idents.iter().position(|ident| ident.name == name)
}

/// The index of the name among all; None where it is none of them.
pub(crate) fn rule_index(name: &str) -> Option<usize>
    ensures { result ≡ index_of name.now }
{
    index_among(idents(), name)
}
