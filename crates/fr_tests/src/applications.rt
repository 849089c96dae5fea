// Small applications and their certificates, for the tests.

/// A task that sends to a stream buffer and one that receives from it.
pub const STREAM: &[u8] = br#"variable = [{name="n", lo=0, hi=16, init=0, owner="rx"}]
object = [{name="sb", kind="stream", size=64, live=true}]
actor = [
 {name="tx", kind="task", code=["xStreamBufferSend(sb, 8, 10)", "goto 0"]},
 {name="rx", kind="task", code=["n = xStreamBufferReceive(sb, 16, portMAX_DELAY)", "goto 0"]},
]
"#;

pub const STREAM_NOTES: &[u8] =
    br#"{"version":1,"ends":[{"buffer":"sb","end":"writer","guard":{"sole":"tx"}},{"buffer":"sb","end":"reader","guard":{"sole":"rx"}}],
"notes":[{"live":["sb"]},{"live":["sb"]},{"live":["sb"]},{"live":["sb"]},{"live":["sb"]},{"live":["sb"]}]}"#;

/// A task that sends to a queue.
pub const QUEUE: &[u8] = br#"object = [{name="q", kind="queue", size=4, lo=0, hi=9, live=true}]
actor = [{name="t", kind="task", code=["xQueueSend(q, 1, 0)", "goto 0"]}]
"#;

pub const QUEUE_NOTES: &[u8] =
    br#"{"version":1,"ends":[],"notes":[{"live":["q"]},{"live":["q"]},{"live":["q"]}]}"#;

/// A task that sends to a message buffer.
pub const MESSAGE: &[u8] = br#"object = [{name="mb", kind="message", size=64, live=true}]
actor = [{name="t", kind="task", code=["xMessageBufferSend(mb, 3, 0)", "goto 0"]}]
"#;

pub const MESSAGE_NOTES: &[u8] =
    br#"{"version":1,"ends":[{"buffer":"mb","end":"writer","guard":{"sole":"t"}}],
"notes":[{"live":["mb"]},{"live":["mb"]},{"live":["mb"]}]}"#;

/// Two tasks that write one stream buffer, each in critical sections.
pub const CRITICAL: &[u8] = br#"object = [{name="sb", kind="stream", size=64, live=true}]
actor = [
 {name="tx", kind="task", code=["taskENTER_CRITICAL()", "xStreamBufferSend(sb, 8, 0)", "taskEXIT_CRITICAL()", "goto 0"]},
 {name="ty", kind="task", code=["taskENTER_CRITICAL()", "xStreamBufferSend(sb, 8, 0)", "taskEXIT_CRITICAL()", "goto 0"]},
]
"#;

pub const CRITICAL_NOTES: &[u8] =
    br#"{"version":1,"ends":[{"buffer":"sb","end":"writer","guard":"critical"}],"notes":[
{"live":["sb"]},{"crit":1,"live":["sb"]},{"crit":1,"live":["sb"]},{"crit":1,"live":["sb"]},{"live":["sb"]},
{"live":["sb"]},{"crit":1,"live":["sb"]},{"crit":1,"live":["sb"]},{"crit":1,"live":["sb"]},{"live":["sb"]}]}"#;

/// Notes by which one of them alone may write.
pub const SOLE_NOTES: &[u8] =
    br#"{"version":1,"ends":[{"buffer":"sb","end":"writer","guard":{"sole":"tx"}}],"notes":[
{"live":["sb"]},{"crit":1,"live":["sb"]},{"crit":1,"live":["sb"]},{"crit":1,"live":["sb"]},{"live":["sb"]},
{"live":["sb"]},{"crit":1,"live":["sb"]},{"crit":1,"live":["sb"]},{"crit":1,"live":["sb"]},{"live":["sb"]}]}"#;

/// A task that sends and then lets another one delete the buffer.
pub const DELETED: &[u8] = br#"variable = [{name="phase", lo=1, hi=2, init=1}]
object = [{name="sb", kind="stream", size=64, live=true}]
actor = [
 {name="u", kind="task", code=["xStreamBufferSend(sb, 8, 10)", "set phase = 2", "vTaskDelete(NULL)"]},
 {name="k", kind="task", code=["if phase != 2 goto 0", "vStreamBufferDelete(sb)", "vTaskDelete(NULL)"]},
]
"#;

pub const DELETED_NOTES: &[u8] =
    br#"{"version":1,"ends":[{"buffer":"sb","end":"writer","guard":{"sole":"u"}}],"notes":[
{"live":["sb"],"range":{"phase":[1,1]}},{"live":["sb"],"range":{"phase":[1,1]}},{"live":["sb"],"range":{"phase":[1,1]}},{},
{"live":["sb"]},{"live":["sb"],"range":{"phase":[2,2]}},{}]}"#;

/// A task that sends while a variable says that the buffer is there, and one that clears the variable and deletes the buffer,
/// both under a mutex.
pub const LIFE: &[u8] = br#"variable = [{name="up", lo=0, hi=1, init=1}]
object = [{name="sb", kind="stream", size=64, live=true}, {name="m", kind="mutex", live=true}]
actor = [
 {name="u", kind="task", code=["xSemaphoreTake(m, portMAX_DELAY)", "if up == 0 goto 3", "xStreamBufferSend(sb, 8, 0)", "xSemaphoreGive(m)", "goto 0"]},
 {name="k", kind="task", code=["xSemaphoreTake(m, portMAX_DELAY)", "if up == 0 goto 4", "set up = 0", "vStreamBufferDelete(sb)", "xSemaphoreGive(m)", "goto 0"]},
]
"#;

/// Notes with alternatives.
pub const LIFE_NOTES: &[u8] =
    br#"{"ends":[{"buffer":"sb","end":"writer","guard":{"sole":"u"}}],"notes":[
[{"live":["sb","m"],"range":{"up":[1,1]}},{"live":["m"],"range":{"up":[0,0]}}],
[{"live":["sb","m"],"range":{"up":[1,1]}},{"live":["m"],"range":{"up":[0,0]}}],
[{"held":{"m":1},"live":["sb"],"range":{"up":[1,1]}},{"held":{"m":1},"range":{"up":[0,0]}}],
{"held":{"m":1},"live":["sb"],"range":{"up":[1,1]}},{"held":{"m":1},"live":["sb"],"range":{"up":[1,1]}},
[{"held":{"m":1},"live":["sb"],"range":{"up":[1,1]}},{"held":{"m":1},"range":{"up":[0,0]}}],
[{"held":{"m":1},"live":["sb"],"range":{"up":[1,1]}},{"held":{"m":1},"range":{"up":[0,0]}}],
[{"live":["sb","m"],"range":{"up":[1,1]}},{"live":["m"],"range":{"up":[0,0]}}],
[{"live":["sb","m"],"range":{"up":[1,1]}},{"live":["m"],"range":{"up":[0,0]}}],
[{"live":["sb","m"],"range":{"up":[1,1]}},{"live":["m"],"range":{"up":[0,0]}}],
[{"held":{"m":1},"live":["sb"],"range":{"up":[1,1]}},{"held":{"m":1},"range":{"up":[0,0]}}],
{"held":{"m":1},"live":["sb"],"range":{"up":[1,1]}},{"held":{"m":1},"live":["sb"],"range":{"up":[0,0]}},
{"held":{"m":1},"range":{"up":[0,0]}},{"held":{"m":1},"range":{"up":[0,0]}},{"live":["m"],"range":{"up":[0,0]}}],"version":2}"#;
