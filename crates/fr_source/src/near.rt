// What to write in place of a word that means nothing.

/// The byte in this place of a text, counted from its front or from its back.
fn byte_at(text: &[u8], place: usize, is_from_back: bool) -> Option<&u8> {
    if is_from_back {
        text.get(text.len().checked_sub(place)?.checked_sub(1)?)
    } else {
        text.get(place)
    }
}

/// How many bytes two texts share at the front, or else at the back.
fn shared(word: &[u8], name: &[u8], is_from_back: bool) -> usize {
    for count in 0..word.len() {
        if byte_at(word, count, is_from_back) != byte_at(name, count, is_from_back) {
            return count;
        }
    }
    word.len()
}

/// Whether a word differs from a name in at most two characters in a row, and has at least half of it.
pub(crate) fn is_near(word: &str, name: &str) -> bool {
    let (word, name) = (word.as_bytes(), name.as_bytes());
    let shared = shared(word, name, false).saturating_add(shared(word, name, true));
    let longest = word.len().max(name.len());
    longest <= shared.saturating_add(2) && longest <= shared.saturating_mul(2)
}

/// The first of some words that a word is near to.
pub(crate) fn near_among(words: &[&'static str], word: &str) -> Option<&'static str> {
    for one in words {
        if is_near(word, one) {
            return Some(*one);
        }
    }
    None
}

/// Pairs of a word and what to write in place of it: a hint and its words a line.
macro_rules! hints {
    ($($hint:literal: $($word:literal)*;)*) => {
        [$($(($word, $hint),)*)*]
    };
}

/// Words that begin a declaration of C.
pub(crate) static OF_C: [(&str, &str); 23] = hints! {
    ": write 'shared n in 0..8;' for what several use":
        "volatile" "static" "unsigned" "int" "bool" "uint8_t" "uint16_t" "uint32_t" "BaseType_t" "UBaseType_t"
        "TickType_t";
    ": write a variable for each field": "struct";
    ": leave it out, and write 'const N = 3;' for each name of an enum": "typedef" "enum";
    ": write 'stream s[64];'": "StreamBufferHandle_t";
    ": write 'message m[64];'": "MessageBufferHandle_t";
    ": write 'queue q[8] of 0..9;'": "QueueHandle_t";
    ": write 'mutex m;', 'binary b;' or 'counting c[8] first 0;'": "SemaphoreHandle_t";
    ": leave it out": "TaskHandle_t";
    ": write 'task t {', 'interrupt i {' or 'function f() {'": "void";
    ": write 'shared n in 0..8;' here, or put it into a task": "var";
    ": write 'interrupt i {'": "isr" "ISR";
};

/// Calls that no source has. A hint begins with the quote behind the call's name.
pub(crate) static OF_CALLS: [(&str, &str); 18] = hints! {
    "': leave it out": "portYIELD_FROM_ISR" "portEND_SWITCHING_ISR";
    "': write configASSERT": "assert";
    "': write taskENTER_CRITICAL()": "portENTER_CRITICAL";
    "': write taskEXIT_CRITICAL()": "portEXIT_CRITICAL";
    "': write taskENTER_CRITICAL() or taskENTER_CRITICAL_FROM_ISR() in its place":
        "taskDISABLE_INTERRUPTS" "portDISABLE_INTERRUPTS" "portSET_INTERRUPT_MASK_FROM_ISR";
    "': write taskEXIT_CRITICAL() or taskEXIT_CRITICAL_FROM_ISR() in its place":
        "taskENABLE_INTERRUPTS" "portENABLE_INTERRUPTS" "portCLEAR_INTERRUPT_MASK_FROM_ISR";
    "': write taskYIELD()": "portYIELD";
    "': leave it out: all tasks run from the start": "vTaskStartScheduler";
    "': write any(..), as in 'n = any(0, 4);'":
        "uxQueueMessagesWaiting" "uxQueueMessagesWaitingFromISR" "uxQueueSpacesAvailable" "uxSemaphoreGetCount"
        "xTaskGetTickCount";
};

/// What to write in place of a word, if it is one of these.
pub(crate) fn hint_for(pairs: &[(&'static str, &'static str)], word: &str) -> Option<&'static str> {
    for (text, hint) in pairs {
        if *text == word {
            return Some(*hint);
        }
    }
    None
}
