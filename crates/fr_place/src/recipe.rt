// Calls that no line of code has, and what to write in place of them.

/// What to write in place of the calls whose names begin so.
#[derive(Clone, Copy)]
struct Recipe {
    calls: &'static str,
    instead: &'static str,
}

/// The rows of a table, a row a line.
macro_rules! recipes {
    ($($calls:literal $instead:expr;)*) => {
        [$(Recipe { calls: $calls, instead: $instead }),*]
    };
}

const NOTIFICATIONS: &str = "see \"Task notifications\" in docs/APPLICATION.md";

const EVENTS: &str = "see \"Event groups\" in docs/APPLICATION.md";

const TIMERS: &str = "see \"Software timers\" in docs/APPLICATION.md";

const QUEUES: &str = "see \"Peek, overwrite and send to front\" in docs/APPLICATION.md";

/// Of two beginnings, the longer one stands first.
static RECIPES: [Recipe; 17] = recipes! {
    "xTaskNotify" NOTIFICATIONS;
    "xTaskGenericNotify" NOTIFICATIONS;
    "vTaskNotify" NOTIFICATIONS;
    "vTaskGenericNotify" NOTIFICATIONS;
    "ulTaskNotify" NOTIFICATIONS;
    "xEventGroup" EVENTS;
    "vEventGroup" EVENTS;
    "xTimer" TIMERS;
    "vTimer" TIMERS;
    "xQueuePeek" QUEUES;
    "xQueueOverwrite" QUEUES;
    "xQueueSendToFront" QUEUES;
    "xQueueSendToBackFromISR" "write xQueueSendFromISR, which sends to the back";
    "xQueueSendToBack" "write xQueueSend, which sends to the back";
    "xTaskDelayUntil" "write vTaskDelay";
    "vTaskDelayUntil" "write vTaskDelay";
    "xTaskCreate" "see \"A task that is created late\" in docs/APPLICATION.md";
};

/// The same for what a source has, and a line hasn't.
static LINE_RECIPES: [Recipe; 2] = recipes! {
    "pdMS_TO_TICKS" "write the ticks, milliseconds times configTICK_RATE_HZ divided by 1000";
    "configASSERT" "see \"How to write what has no line\" in docs/APPLICATION.md";
};

/// What to write in place of a call, by the first of these recipes for it.
fn recipe_among(recipes: &[Recipe], call: &str) -> Option<&'static str> {
    let mut found = recipes.iter();
    Some(found.find(|recipe| call.starts_with(recipe.calls))?.instead)
}

/// What to write in place of a call that no line has: where the recipe for it is; None where there is none.
pub(crate) fn recipe_for(call: &str) -> Option<&'static str> {
    recipe_among(&RECIPES, call).or(recipe_among(&LINE_RECIPES, call))
}

/// The same of a call that no source has, which begins at this column of a line of a source, from 1; None where no call begins there.
pub fn recipe_at(line: &str, column: usize) -> Option<&'static str> {
    let (_, call) = line.split_at_checked(column.checked_sub(1)?)?;
    let behind = call.trim_start_matches(|at: char| at.is_ascii_alphanumeric() || at == '_');
    behind.trim_start_matches(' ').strip_prefix('(')?;
    recipe_among(&RECIPES, call)
}
