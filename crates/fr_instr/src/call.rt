// The calls of the grammar: one table, a row a call.
ghost use Rattle.std.specs.Prelude.{◌≡◌, map, option_map, position};
ghost use Rattle.std.specs.Str.{bytes_eq};
ghost use Rattle.fr_instr.specs.Calls.{row_view, table, row_named, row_for, is_same, may_fail, may_answer};

use fr_program::{BufferKind, CreatedKind, DeletedKind, End, Form, SemaphoreForm};

/// What the slot of an argument takes: an object, an operand, a variable, a length, a block time, ticks,
/// or the word NULL.
#[derive(Clone, Copy)]
pub enum Slot {
    Object,
    Operand,
    Variable,
    Length,
    Time,
    Ticks,
    Null,
}

/// What may be written beside a call: nothing, an `else` behind it, or a `v =` before it.
#[derive(Clone, Copy)]
pub enum Tail {
    Nothing,
    Else,
    Into,
}

impl Tail {
    /// Whether an `else` may follow the call.
    pub(crate) fn may_fail(self) -> bool
        ensures { result ≡ may_fail self }
    {
        matches!(self, Tail::Else)
    }

    /// Whether a `v =` may be before the call.
    pub(crate) fn may_answer(self) -> bool
        ensures { result ≡ may_answer self }
    {
        matches!(self, Tail::Into)
    }
}

/// When an object call answers, without its block time.
#[derive(Clone, Copy, PartialEq, Eq)]
pub enum When {
    Now,
    FromIsr,
    Waits,
}

/// What an object call does, without its arguments.
#[derive(Clone, Copy, PartialEq, Eq)]
pub enum Deed {
    QueueSend,
    QueueReceive,
    Take(SemaphoreForm),
    Give(SemaphoreForm),
    Reset(BufferKind),
    Move(End, BufferKind),
}

/// What a call is, without its arguments.
#[derive(Clone, Copy, PartialEq, Eq)]
pub enum Verb {
    Enter(Form),
    Exit(Form),
    SuspendAll,
    ResumeAll,
    Yield,
    Delay,
    DeleteSelf,
    Create(CreatedKind),
    Delete(DeletedKind),
    On(When, Deed),
}

/// A row of the table: the call's name, what it is, the places of its arguments, and what may be
/// written beside it.
pub type Row = (&'static str, Verb, &'static [Slot], Tail);

/// The rows of a table, a row a line.
macro_rules! rows {
    ($($name:literal $verb:expr, [$($place:ident)*] $tail:ident;)*) => {
        [$(($name, $verb, &[$(Slot::$place),*], Tail::$tail)),*]
    };
}

/// Every call once.
static CALLS: [Row; 40] = rows! {
    "taskENTER_CRITICAL"             Verb::Enter(Form::Task), [] Nothing;
    "taskENTER_CRITICAL_FROM_ISR"    Verb::Enter(Form::FromIsr), [] Nothing;
    "taskEXIT_CRITICAL"              Verb::Exit(Form::Task), [] Nothing;
    "taskEXIT_CRITICAL_FROM_ISR"     Verb::Exit(Form::FromIsr), [] Nothing;
    "vTaskSuspendAll"                Verb::SuspendAll, [] Nothing;
    "xTaskResumeAll"                 Verb::ResumeAll, [] Nothing;
    "taskYIELD"                      Verb::Yield, [] Nothing;
    "vTaskDelay"                     Verb::Delay, [Ticks] Nothing;
    "vTaskDelete"                    Verb::DeleteSelf, [Null] Nothing;
    "xQueueCreate"                   Verb::Create(CreatedKind::Queue), [Object] Else;
    "xSemaphoreCreateBinary"         Verb::Create(CreatedKind::Binary), [Object] Else;
    "xSemaphoreCreateCounting"       Verb::Create(CreatedKind::Counting), [Object] Else;
    "xSemaphoreCreateMutex"          Verb::Create(CreatedKind::Mutex), [Object] Else;
    "xSemaphoreCreateRecursiveMutex" Verb::Create(CreatedKind::Recursive), [Object] Else;
    "xStreamBufferCreate"            Verb::Create(CreatedKind::Stream), [Object] Else;
    "xMessageBufferCreate"           Verb::Create(CreatedKind::Message), [Object] Else;
    "vQueueDelete"                   Verb::Delete(DeletedKind::Queue), [Object] Nothing;
    "vSemaphoreDelete"               Verb::Delete(DeletedKind::Semaphore), [Object] Nothing;
    "vStreamBufferDelete"            Verb::Delete(DeletedKind::Stream), [Object] Nothing;
    "vMessageBufferDelete"           Verb::Delete(DeletedKind::Message), [Object] Nothing;
    "xQueueSend"                     Verb::On(When::Waits, Deed::QueueSend), [Object Operand Time] Else;
    "xQueueSendFromISR"              Verb::On(When::FromIsr, Deed::QueueSend), [Object Operand] Else;
    "xQueueReceive"                  Verb::On(When::Waits, Deed::QueueReceive), [Object Variable Time] Else;
    "xQueueReceiveFromISR"           Verb::On(When::FromIsr, Deed::QueueReceive), [Object Variable] Else;
    "xSemaphoreTake"                 Verb::On(When::Waits, Deed::Take(SemaphoreForm::Plain)), [Object Time] Else;
    "xSemaphoreTakeRecursive"        Verb::On(When::Waits, Deed::Take(SemaphoreForm::Recursive)), [Object Time] Else;
    "xSemaphoreTakeFromISR"          Verb::On(When::FromIsr, Deed::Take(SemaphoreForm::Plain)), [Object] Else;
    "xSemaphoreGive"                 Verb::On(When::Now, Deed::Give(SemaphoreForm::Plain)), [Object] Else;
    "xSemaphoreGiveRecursive"        Verb::On(When::Now, Deed::Give(SemaphoreForm::Recursive)), [Object] Else;
    "xSemaphoreGiveFromISR"          Verb::On(When::FromIsr, Deed::Give(SemaphoreForm::Plain)), [Object] Else;
    "xStreamBufferSend"              Verb::On(When::Waits, Deed::Move(End::Writer, BufferKind::Stream)), [Object Length Time] Into;
    "xStreamBufferSendFromISR"       Verb::On(When::FromIsr, Deed::Move(End::Writer, BufferKind::Stream)), [Object Length] Into;
    "xMessageBufferSend"             Verb::On(When::Waits, Deed::Move(End::Writer, BufferKind::Message)), [Object Length Time] Into;
    "xMessageBufferSendFromISR"      Verb::On(When::FromIsr, Deed::Move(End::Writer, BufferKind::Message)), [Object Length] Into;
    "xStreamBufferReceive"           Verb::On(When::Waits, Deed::Move(End::Reader, BufferKind::Stream)), [Object Length Time] Into;
    "xStreamBufferReceiveFromISR"    Verb::On(When::FromIsr, Deed::Move(End::Reader, BufferKind::Stream)), [Object Length] Into;
    "xMessageBufferReceive"          Verb::On(When::Waits, Deed::Move(End::Reader, BufferKind::Message)), [Object Length Time] Into;
    "xMessageBufferReceiveFromISR"   Verb::On(When::FromIsr, Deed::Move(End::Reader, BufferKind::Message)), [Object Length] Into;
    "xStreamBufferReset"             Verb::On(When::Now, Deed::Reset(BufferKind::Stream)), [Object] Else;
    "xMessageBufferReset"            Verb::On(When::Now, Deed::Reset(BufferKind::Message)), [Object] Else;
};

/// The rows, as the table that clauses speak of.
#[tactic(auto, unfolding(crate::specs::Calls::table))]
pub fn rows() -> &'static [Row]
    ensures { map row_view result.now ≡ table }
{
    &CALLS
}

/// The place of the row with this name.
fn place_by_name(rows: &[Row], name: &[u8]) -> Option<usize>
    ensures { result ≡ position (λ r. bytes_eq r.0.now name.now) rows.now }
{
    rows.iter().position(|row| row.0.as_bytes() == name)
}

/// The place of the row of this verb.
fn place_by_verb(rows: &[Row], verb: Verb) -> Option<usize>
    ensures { result ≡ position (λ r. is_same r.1 verb) rows.now }
{
    rows.iter().position(|row| row.1 == verb)
}

/// The row of the call with this name.
pub fn row_named(name: &[u8]) -> Option<Row>
    ensures { option_map row_view result ≡ row_named name.now }
{
    let rows = rows();
    match place_by_name(rows, name) {
        Some(place) => Some(rows[place]),
        None => None,
    }
}

/// The row of the call that is this.
pub(crate) fn row_for(verb: Verb) -> Option<Row>
    ensures { option_map row_view result ≡ row_for verb }
{
    let rows = rows();
    match place_by_verb(rows, verb) {
        Some(place) => Some(rows[place]),
        None => None,
    }
}
