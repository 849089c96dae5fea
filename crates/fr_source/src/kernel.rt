// The calls of the kernel that a source may make: one table, a row a call. And the words that no name may be.
ghost use Rattle.std.specs.Prelude.{◌≡◌, codes};
ghost use Rattle.std.specs.Str.{bytes_eq};
ghost use Rattle.fr_source.specs.Steps.{deletes};

use crate::near::is_near;
use crate::program::ObjectKind;
use crate::texts::{Word, filled};
use std::alloc::{AllocError, Global};

/// What the slot of an argument takes.
#[derive(Clone, Copy)]
pub(crate) enum Slot {
    Object,
    Operand,
    Variable,
    Length,
    Ticks,
    Time,
    Null,
}

impl Slot {
    /// What a message calls it.
    pub(crate) fn text(self) -> &'static str {
        match self {
            Slot::Object => "an object",
            Slot::Operand => "a number or variable",
            Slot::Variable => "a variable",
            Slot::Length => "a length in bytes",
            Slot::Ticks => "ticks",
            Slot::Time => "a block time",
            Slot::Null => "NULL",
        }
    }
}

/// What a call answers: nothing, whether it worked, the same as a handle that may be NULL, or a number of bytes.
#[derive(Clone, Copy)]
pub(crate) enum Answer {
    Nothing,
    Success,
    Handle,
    Bytes,
}

/// The calls of the kernel, one for each row of the table below.
#[derive(Clone, Copy)]
pub(crate) enum KernelCall {
    EnterCritical,
    EnterCriticalFromIsr,
    ExitCritical,
    ExitCriticalFromIsr,
    SuspendAll,
    ResumeAll,
    Yield,
    Delay,
    DeleteTask,
    CreateQueue,
    CreateBinary,
    CreateCounting,
    CreateMutex,
    CreateRecursive,
    CreateStream,
    CreateMessage,
    DeleteQueue,
    DeleteSemaphore,
    DeleteStream,
    DeleteMessage,
    SendToQueue,
    SendToQueueFromIsr,
    ReceiveFromQueue,
    ReceiveFromQueueFromIsr,
    Take,
    TakeRecursive,
    TakeFromIsr,
    Give,
    GiveRecursive,
    GiveFromIsr,
    SendToStream,
    SendToStreamFromIsr,
    ReceiveFromStream,
    ReceiveFromStreamFromIsr,
    ResetStream,
    SendMessage,
    SendMessageFromIsr,
    ReceiveMessage,
    ReceiveMessageFromIsr,
    ResetMessage,
}

impl KernelCall {
    /// The row of the call, which the table has in the order of the enum.
    pub(crate) fn row(self) -> &'static Kernel
        ensures call { result.now.call ≡ self }
        ensures named { bytes_eq result.now.name.now (codes "vTaskDelete") ≡ deletes self }
    {
        &CALLS[self as usize]
    }
}

/// A call of the kernel: its name, what its arguments are, the kinds that its object may have, and what it answers.
#[derive(Clone, Copy)]
pub(crate) struct Kernel {
    pub(crate) call: KernelCall,
    pub(crate) name: &'static str,
    pub(crate) slots: &'static [Slot],
    pub(crate) kinds: &'static [ObjectKind],
    pub(crate) answer: Answer,
}

impl Kernel {
    /// Whether the call answers if it worked.
    pub(crate) fn may_fail(&self) -> bool {
        matches!(self.answer, Answer::Success | Answer::Handle)
    }

    /// Whether the call is for objects of this kind.
    pub(crate) fn is_for(&self, kind: ObjectKind) -> bool {
        for one in self.kinds {
            if one.text() == kind.text() {
                return true;
            }
        }
        false
    }

    /// The kinds of objects that the call is for: one, or those of all semaphores.
    pub(crate) fn kinds_text(&self) -> &'static str {
        match self.kinds {
            [kind] => kind.text(),
            _ => "binary, counting, mutex, recursive",
        }
    }

    /// What the argument in this place is.
    fn slot_text(&self, place: usize) -> Word<'static> {
        match self.slots.get(place) {
            Some(slot) => Word::Text(slot.text()),
            None => Word::Text(""),
        }
    }

    /// The call's name, with what its arguments are.
    pub(crate) fn shape(&self, alloc: Global) -> Result<String, AllocError> {
        let (first, second) = (self.slot_text(0), self.slot_text(1));
        let words = &[Word::Text(self.name), first, second, self.slot_text(2)];
        let form = match self.slots.len() {
            0 | 1 => "%(%)",
            2 => "%(%, %)",
            _ => "%(%, %, %)",
        };
        filled(alloc, form, words)
    }

    /// Whether the call is for interrupts alone.
    pub(crate) fn is_of_interrupts(&self) -> bool {
        self.name.ends_with("FromISR") || self.name.ends_with("_FROM_ISR")
    }
}

/// The rows of a table, a row a line.
macro_rules! rows {
    ($($call:ident $name:literal [$($place:ident)*] [$($kind:ident)*] $answer:ident;)*) => {
        [$(Kernel {
            call: KernelCall::$call,
            name: $name,
            slots: &[$(Slot::$place),*],
            kinds: &[$(ObjectKind::$kind),*],
            answer: Answer::$answer,
        }),*]
    };
}

/// Every call once.
static CALLS: [Kernel; 40] = rows! {
    EnterCritical            "taskENTER_CRITICAL"             [] [] Nothing;
    EnterCriticalFromIsr     "taskENTER_CRITICAL_FROM_ISR"    [] [] Nothing;
    ExitCritical             "taskEXIT_CRITICAL"              [] [] Nothing;
    ExitCriticalFromIsr      "taskEXIT_CRITICAL_FROM_ISR"     [] [] Nothing;
    SuspendAll               "vTaskSuspendAll"                [] [] Nothing;
    ResumeAll                "xTaskResumeAll"                 [] [] Nothing;
    Yield                    "taskYIELD"                      [] [] Nothing;
    Delay                    "vTaskDelay"                     [Ticks] [] Nothing;
    DeleteTask               "vTaskDelete"                    [Null] [] Nothing;
    CreateQueue              "xQueueCreate"                   [Object] [Queue] Handle;
    CreateBinary             "xSemaphoreCreateBinary"         [Object] [Binary] Handle;
    CreateCounting           "xSemaphoreCreateCounting"       [Object] [Counting] Handle;
    CreateMutex              "xSemaphoreCreateMutex"          [Object] [Mutex] Handle;
    CreateRecursive          "xSemaphoreCreateRecursiveMutex" [Object] [Recursive] Handle;
    CreateStream             "xStreamBufferCreate"            [Object] [Stream] Handle;
    CreateMessage            "xMessageBufferCreate"           [Object] [Message] Handle;
    DeleteQueue              "vQueueDelete"                   [Object] [Queue] Nothing;
    DeleteSemaphore          "vSemaphoreDelete"               [Object] [Binary Counting Mutex Recursive] Nothing;
    DeleteStream             "vStreamBufferDelete"            [Object] [Stream] Nothing;
    DeleteMessage            "vMessageBufferDelete"           [Object] [Message] Nothing;
    SendToQueue              "xQueueSend"                     [Object Operand Time] [Queue] Success;
    SendToQueueFromIsr       "xQueueSendFromISR"              [Object Operand] [Queue] Success;
    ReceiveFromQueue         "xQueueReceive"                  [Object Variable Time] [Queue] Success;
    ReceiveFromQueueFromIsr  "xQueueReceiveFromISR"           [Object Variable] [Queue] Success;
    Take                     "xSemaphoreTake"                 [Object Time] [Binary Counting Mutex Recursive] Success;
    TakeRecursive            "xSemaphoreTakeRecursive"        [Object Time] [Binary Counting Mutex Recursive] Success;
    TakeFromIsr              "xSemaphoreTakeFromISR"          [Object] [Binary Counting Mutex Recursive] Success;
    Give                     "xSemaphoreGive"                 [Object] [Binary Counting Mutex Recursive] Success;
    GiveRecursive            "xSemaphoreGiveRecursive"        [Object] [Binary Counting Mutex Recursive] Success;
    GiveFromIsr              "xSemaphoreGiveFromISR"          [Object] [Binary Counting Mutex Recursive] Success;
    SendToStream             "xStreamBufferSend"              [Object Length Time] [Stream] Bytes;
    SendToStreamFromIsr      "xStreamBufferSendFromISR"       [Object Length] [Stream] Bytes;
    ReceiveFromStream        "xStreamBufferReceive"           [Object Length Time] [Stream] Bytes;
    ReceiveFromStreamFromIsr "xStreamBufferReceiveFromISR"    [Object Length] [Stream] Bytes;
    ResetStream              "xStreamBufferReset"             [Object] [Stream] Success;
    SendMessage              "xMessageBufferSend"             [Object Length Time] [Message] Bytes;
    SendMessageFromIsr       "xMessageBufferSendFromISR"      [Object Length] [Message] Bytes;
    ReceiveMessage           "xMessageBufferReceive"          [Object Length Time] [Message] Bytes;
    ReceiveMessageFromIsr    "xMessageBufferReceiveFromISR"   [Object Length] [Message] Bytes;
    ResetMessage             "xMessageBufferReset"            [Object] [Message] Success;
};

fn calls() -> &'static [Kernel] {
    &CALLS
}

/// The call of the kernel with this name.
pub(crate) fn kernel_named(name: &str) -> Option<&'static Kernel> {
    for row in calls() {
        if row.name == name {
            return Some(row);
        }
    }
    None
}

/// The name of a call of the kernel that a word is near to.
pub(crate) fn kernel_near(word: &str) -> Option<Word<'static>> {
    for row in calls() {
        if is_near(word, row.name) {
            return Some(Word::Text(row.name));
        }
    }
    None
}

/// A table of words, several on a line.
macro_rules! words {
    ($($word:literal)*) => {
        [$($word),*]
    };
}

/// The words of statements, and those that a line of the application has: no name may be one.
static WORDS: [&str; 21] = words! {
    "if" "else" "while" "for" "do" "switch" "case" "default" "break" "continue" "goto" "return" "var" "static"
    "any" "set" "pick" "NULL" "portMAX_DELAY" "pdMS_TO_TICKS" "configASSERT"
};

/// Whether the text is one of some words.
pub(crate) fn is_among(text: &str, words: &[&str]) -> bool {
    for word in words {
        if *word == text {
            return true;
        }
    }
    false
}

/// Whether the text is a word of statements, or one of the kernel's numbers.
pub(crate) fn is_reserved(text: &str) -> bool {
    is_among(text, &WORDS) || value_of(text).is_some()
}

/// The number that the kernel's headers give this word.
pub(crate) fn value_of(text: &str) -> Option<i64> {
    match text {
        "pdTRUE" | "pdPASS" | "true" => Some(1),
        "pdFALSE" | "pdFAIL" | "false" | "errQUEUE_FULL" | "errQUEUE_EMPTY" => Some(0),
        _ => None,
    }
}

/// The types of C that a reader may expect.
pub(crate) static TYPES: [&str; 20] = words! {
    "int" "uint" "unsigned" "signed" "char" "short" "long" "bool" "size_t" "float" "double" "int8_t" "int16_t"
    "int32_t" "int64_t" "uint8_t" "uint16_t" "uint32_t" "BaseType_t" "UBaseType_t"
};

/// The words that begin a declaration.
pub(crate) static DECLARATIONS: [&str; 12] = words! {
    "const" "shared" "task" "interrupt" "function" "queue" "binary" "counting" "mutex" "recursive" "stream" "message"
};
