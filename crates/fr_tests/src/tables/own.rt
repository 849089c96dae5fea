// What a task or an interrupt owes at a point.
use crate::table::Table;

pub const TABLES: [Table; 16] = [
    // What an interrupt owes that gives a semaphore and delays.
    Table {
        app: r#"object = [{name="s", kind="binary", live=true}]
actor = [{name="i", kind="interrupt", code=["xSemaphoreGiveFromISR(s)", "vTaskDelay(1)", "return"]}]
"#,
        certificate: r#"{"version":2,"ends":[],"notes":[?]}
"#,
        cases: r#"0 | {"live":["s"]},{"live":["s"]},{"live":["s"]},{"live":["s"]} | yes
1 | {"live":["s"]},{"live":["s"]},{"live":["s"]},{"live":["s"]} | yes
2 | {"live":["s"]},{"live":["s"]},{"live":["s"]},{"live":["s"]} | no: point 2 (i 1 before): rule 6: call not allowed in an interrupt
3 | {"live":["s"]},{"live":["s"]},{"live":["s"]},{"live":["s"]} | yes
"#,
    },
    // What a task owes that counts up to the end of its range.
    Table {
        app: r#"variable = [{name="x", lo=-2147483648, hi=2147483647, init=0, owner="t"}]
actor = [{name="t", kind="task", code=["if x < 2147483647 goto 2", "goto 0", "set x = x + 1", "goto 0"]}]
"#,
        certificate: r#"{"version":2,"ends":[],"notes":[?]}
"#,
        cases: r#"0 | {},{},{"range":{"x":[-2147483648,2147483646]}},{} | yes
2 | {},{},{"range":{"x":[-2147483648,2147483646]}},{} | yes
0 | {},{},{"range":{"x":[-2147483648,2147483645]}},{} | no: point 0 (t 0 before): goes to point 2 (t 2 before)
2 | {},{},{},{} | no: point 2 (t 2 before): rule 12: value out of its declared range
"#,
    },
    // What a task owes that creates and deletes a mutex.
    Table {
        app: r#"object = [{name="m", kind="mutex", live=false}]
actor = [{name="t", kind="task", code=["xSemaphoreCreateMutex(m) else 2", "vSemaphoreDelete(m)", "goto 0"]}]
"#,
        certificate: r#"{"version":2,"ends":[],"notes":[?]}
"#,
        cases: r#"0 | {"dead":["m"]},{"live":["m"]},{"dead":["m"]} | yes
1 | {"dead":["m"]},{"live":["m"]},{"dead":["m"]} | yes
2 | {"dead":["m"]},{"live":["m"]},{"dead":["m"]} | yes
# A create that fails leaves the object dead, as a delete does.
0 | {"dead":["m"]},{"live":["m"]},{"live":["m"]} | no: point 0 (t 0 before): goes to point 2 (t 2 before)
0 | {"dead":["m"]},{"live":["m"]},"never" | no: point 0 (t 0 before): goes to point 2 (t 2 before)
1 | {"dead":["m"]},{"live":["m"]},{"live":["m"]} | no: point 1 (t 1 before): goes to point 2 (t 2 before)
0 | {"dead":["m"]},{"dead":["m"]},{} | no: point 0 (t 0 before): goes to point 1 (t 1 before)
0 | {"live":["m"]},{"live":["m"]},{} | no: point 0 (t 0 before): entry
0 | {},{"live":["m"]},{"dead":["m"]} | no: point 0 (t 0 before): rule 8: object deleted in use or created while live
1 | {"dead":["m"]},{},{"dead":["m"]} | no: point 1 (t 1 before): rule 7: handle is not live
2 | {"dead":["m"]},{"live":["m"]},{} | no: point 2 (t 2 before): goes to point 0 (t 0 before)
"#,
    },
    // What a task owes that sets a variable in the critical section.
    Table {
        app: r#"variable = [{name="x", lo=0, hi=1, init=0}]
actor = [{name="t", kind="task", code=["taskENTER_CRITICAL()", "set x = 1", "taskEXIT_CRITICAL()", "vTaskDelay(1)", "goto 0"]}]
"#,
        certificate: r#"{"version":2,"ends":[],"notes":[?]}
"#,
        cases: r#"0 | {},{"crit":1},{"crit":1},{},{} | yes
1 | {},{"crit":1},{"crit":1},{},{} | yes
2 | {},{"crit":1},{"crit":1},{},{} | yes
3 | {},{"crit":1},{"crit":1},{},{} | yes
4 | {},{"crit":1},{"crit":1},{},{} | yes
0 | {"crit":1},{"crit":1},{"crit":1},{},{} | no: point 0 (t 0 before): entry
0 | {},{},{"crit":1},{},{} | no: point 0 (t 0 before): goes to point 1 (t 1 before)
1 | {},{"crit":1},{"crit":1,"range":{"x":[0,0]}},{},{} | no: point 1 (t 1 before): goes to point 2 (t 2 before)
"#,
    },
    // A delay while the scheduler is suspended.
    Table {
        app: r#"actor = [{name="t", kind="task", code=["vTaskSuspendAll()", "vTaskDelay(1)", "xTaskResumeAll()", "goto 0"]}]
"#,
        certificate: r#"{"version":2,"ends":[],"notes":[?]}
"#,
        cases: r#"0 | {},{"susp":1},{"susp":1},{} | yes
1 | {},{"susp":1},{"susp":1},{} | no: point 1 (t 1 before): rule 5: call not allowed while the scheduler is suspended
2 | {},{"susp":1},{"susp":1},{} | yes
"#,
    },
    // What a task owes whose give may be refused.
    Table {
        app: r#"object = [{name="s", kind="counting", size=2, first=0, live=true}]
actor = [{name="t", kind="task", code=["xSemaphoreGive(s) else 2", "goto 0", "goto 0"]}]
"#,
        certificate: r#"{"version":2,"ends":[],"notes":[?]}
"#,
        cases: r#"1 | {},{"live":["s"]},{"live":["s"]},{"live":["s"]} | yes
1 | {},{"live":["s"]},{"live":["s"]},"never" | no: point 1 (t 0 inside): goes to point 3 (t 2 before)
"#,
    },
    // What a task owes that takes and gives a mutex.
    Table {
        app: r#"object = [{name="m", kind="mutex", live=true}]
actor = [{name="t", kind="task", code=["xSemaphoreTake(m, 10) else 3", "xSemaphoreGive(m)", "goto 0", "vTaskDelay(1)", "goto 0"]}]
"#,
        certificate: r#"{"version":2,"ends":[],"notes":[?]}
"#,
        cases: r#"# Takes of a mutex.
0 | {"live":["m"]},{"live":["m"]},{"held":{"m":1}},{"held":{"m":1}},{"live":["m"]},{},{"live":["m"]} | yes
1 | {"live":["m"]},{"live":["m"]},{"held":{"m":1}},{"held":{"m":1}},{"live":["m"]},{},{"live":["m"]} | yes
2 | {"live":["m"]},{"live":["m"]},{"held":{"m":1}},{"held":{"m":1}},{"live":["m"]},{},{"live":["m"]} | yes
3 | {"live":["m"]},{"live":["m"]},{"held":{"m":1}},{"held":{"m":1}},{"live":["m"]},{},{"live":["m"]} | yes
4 | {"live":["m"]},{"live":["m"]},{"held":{"m":1}},{"held":{"m":1}},{"live":["m"]},{},{"live":["m"]} | yes
# The begin keeps what is known.
0 | {"live":["m"]},{"live":["m"],"crit":1},{},{},{},{},{} | no: point 0 (t 0 before): goes to point 1 (t 0 inside)
# A take that times out leaves the mutex with whoever has it.
1 | {},{"live":["m"]},{"held":{"m":1}},{},{},{"held":{"m":1}},{} | no: point 1 (t 0 inside): goes to point 5 (t 3 before)
1 | {},{"live":["m"]},{"held":{"m":1}},{},{},"never",{} | no: point 1 (t 0 inside): goes to point 5 (t 3 before)
1 | {},{"live":["m"]},{"live":["m"]},{},{},{},{} | no: point 1 (t 0 inside): goes to point 2 (t 1 before)

# Gives of a mutex.
# A give frees the mutex, and its actor has to hold it.
3 | {},{},{},{"held":{"m":1}},{"held":{"m":1}},{},{} | no: point 3 (t 1 inside): goes to point 4 (t 2 before)
3 | {},{},{},{"held":{"m":1}},{"dead":["m"]},{},{} | no: point 3 (t 1 inside): goes to point 4 (t 2 before)
2 | {},{},{"live":["m"]},{},{},{},{} | no: point 2 (t 1 before): rule 3: mutex given by an actor that does not hold it
3 | {},{},{},{"live":["m"]},{},{},{} | no: point 3 (t 1 inside): rule 3: mutex given by an actor that does not hold it

# Calls on a mutex that may be dead.
# The mutex has to be live, before its call and inside it.
0 | {},{},{},{},{},{},{} | no: point 0 (t 0 before): rule 7: handle is not live
1 | {},{},{},{},{},{},{} | no: point 1 (t 0 inside): rule 7: handle is not live
0 | {"dead":["m"]},{},{},{},{},{},{} | no: point 0 (t 0 before): entry
0 | {"held":{"m":1}},{},{},{},{},{},{} | no: point 0 (t 0 before): entry

# Each alternative owes the rules.
2 | {},{},[{"held":{"m":1}},{"live":["m"]}],{},{},{},{} | no: point 2 (t 1 before): rule 3: mutex given by an actor that does not hold it
2 | {},{},[{"live":["m"]},{"held":{"m":1}}],{},{},{},{} | no: point 2 (t 1 before): rule 3: mutex given by an actor that does not hold it
# Of the rules of all alternatives the least is named.
2 | {},{},[{"held":{"m":1},"susp":1},{"live":["m"]}],{},{},{},{} | no: point 2 (t 1 before): rule 3: mutex given by an actor that does not hold it
0 | [{"held":{"m":1}},{"live":["m"]}],[{"live":["m"]},{"held":{"m":1}}],{},{},{},{},{} | yes
0 | [{"held":{"m":1}},{"live":["m"]}],{"live":["m"]},{},{},{},{},{} | no: point 0 (t 0 before): goes to point 1 (t 0 inside)
"#,
    },
    // What a task owes whose calls on a mutex never fail.
    Table {
        app: r#"object = [{name="m", kind="mutex", live=true}]
actor = [{name="t", kind="task", code=["xSemaphoreTake(m, portMAX_DELAY) else 3", "xSemaphoreGive(m) else 3", "goto 0", "goto 0"]}]
"#,
        certificate: r#"{"version":2,"ends":[],"notes":[?]}
"#,
        cases: r#"1 | {},{"live":["m"]},{"held":{"m":1}},{},{},"never" | yes
# A plain mutex that the task already holds is never taken again.
1 | {},{"held":{"m":1}},"never",{},{},"never" | yes
3 | {},{},{},{"held":{"m":1}},{"live":["m"]},"never" | yes
"#,
    },
    // A plain take of a recursive mutex.
    Table {
        app: r#"object = [{name="r", kind="recursive", live=true}]
actor = [{name="t", kind="task", code=["xSemaphoreTake(r, 10)", "goto 0"]}]
"#,
        certificate: r#"{"version":2,"ends":[],"notes":[?]}
"#,
        cases: r#"0 | {"live":["r"]},{},{} | no: point 0 (t 0 before): rule 9: call does not suit this kind of semaphore
"#,
    },
    // What a task owes that receives into a variable.
    Table {
        app: r#"variable = [{name="x", lo=0, hi=9, init=0}]
object = [{name="q", kind="queue", size=2, lo=0, hi=5, live=true}]
actor = [{name="t", kind="task", code=["xQueueReceive(q, x, 10) else 2", "goto 0", "goto 0"]}]
"#,
        certificate: r#"{"version":2,"ends":[],"notes":[?]}
"#,
        cases: r#"# The variable gets any value that the queue can hold, and keeps its own where nothing came.
1 | {},{"live":["q"],"range":{"x":[0,0]}},{"range":{"x":[0,5]}},{"range":{"x":[0,0]}} | yes
1 | {},{"live":["q"],"range":{"x":[0,0]}},{"range":{"x":[0,0]}},{} | no: point 1 (t 0 inside): goes to point 2 (t 1 before)
1 | {},{"live":["q"],"range":{"x":[0,0]}},{"range":{"x":[0,4]}},{} | no: point 1 (t 0 inside): goes to point 2 (t 1 before)
1 | {},{"live":["q"],"range":{"x":[0,0]}},{},{"range":{"x":[1,1]}} | no: point 1 (t 0 inside): goes to point 3 (t 2 before)
"#,
    },
    // What a task owes that sends a variable.
    Table {
        app: r#"variable = [{name="x", lo=0, hi=9, init=0}]
object = [{name="q", kind="queue", size=2, lo=0, hi=5, live=true}]
actor = [{name="t", kind="task", code=["xQueueSend(q, x, 0)", "goto 0"]}]
"#,
        certificate: r#"{"version":2,"ends":[],"notes":[?]}
"#,
        cases: r#"1 | {},{"live":["q"],"range":{"x":[0,5]}},{"range":{"x":[0,5]}} | yes
1 | {},{"live":["q"]},{} | no: point 1 (t 0 inside): rule 12: value out of its declared range
1 | {},{"live":["q"],"range":{"x":[5,6]}},{} | no: point 1 (t 0 inside): rule 12: value out of its declared range
0 | {"live":["q"]},{"live":["q"],"range":{"x":[0,5]}},{} | no: point 0 (t 0 before): goes to point 1 (t 0 inside)
"#,
    },
    // A queue is never used in a critical section, whatever the block time.
    Table {
        app: r#"object = [{name="q", kind="queue", size=2, lo=0, hi=5, live=true}]
actor = [{name="t", kind="task", code=["taskENTER_CRITICAL()", "xQueueSend(q, 3, 0)", "taskEXIT_CRITICAL()", "goto 0"]}]
"#,
        certificate: r#"{"version":2,"ends":[],"notes":[?]}
"#,
        cases: r#"1 | {"live":["q"]},{"live":["q"],"crit":1},{},{},{} | no: point 1 (t 1 before): rule 4: call not allowed in a critical section
"#,
    },
    // What a task owes that takes a recursive mutex twice and gives it twice.
    Table {
        app: r#"object = [{name="r", kind="recursive", live=true}]
actor = [{name="t", kind="task", code=["xSemaphoreTakeRecursive(r, portMAX_DELAY)", "xSemaphoreTakeRecursive(r, portMAX_DELAY)", "xSemaphoreGiveRecursive(r)", "xSemaphoreGiveRecursive(r)", "goto 0"]}]
"#,
        certificate: r#"{"version":2,"ends":[],"notes":[?]}
"#,
        cases: r#"0 | {"live":["r"]},{"live":["r"]},{"held":{"r":1}},{"held":{"r":1}},{"held":{"r":2}},{"held":{"r":2}},{"held":{"r":1}},{"held":{"r":1}},{"live":["r"]} | yes
1 | {"live":["r"]},{"live":["r"]},{"held":{"r":1}},{"held":{"r":1}},{"held":{"r":2}},{"held":{"r":2}},{"held":{"r":1}},{"held":{"r":1}},{"live":["r"]} | yes
2 | {"live":["r"]},{"live":["r"]},{"held":{"r":1}},{"held":{"r":1}},{"held":{"r":2}},{"held":{"r":2}},{"held":{"r":1}},{"held":{"r":1}},{"live":["r"]} | yes
3 | {"live":["r"]},{"live":["r"]},{"held":{"r":1}},{"held":{"r":1}},{"held":{"r":2}},{"held":{"r":2}},{"held":{"r":1}},{"held":{"r":1}},{"live":["r"]} | yes
4 | {"live":["r"]},{"live":["r"]},{"held":{"r":1}},{"held":{"r":1}},{"held":{"r":2}},{"held":{"r":2}},{"held":{"r":1}},{"held":{"r":1}},{"live":["r"]} | yes
5 | {"live":["r"]},{"live":["r"]},{"held":{"r":1}},{"held":{"r":1}},{"held":{"r":2}},{"held":{"r":2}},{"held":{"r":1}},{"held":{"r":1}},{"live":["r"]} | yes
6 | {"live":["r"]},{"live":["r"]},{"held":{"r":1}},{"held":{"r":1}},{"held":{"r":2}},{"held":{"r":2}},{"held":{"r":1}},{"held":{"r":1}},{"live":["r"]} | yes
7 | {"live":["r"]},{"live":["r"]},{"held":{"r":1}},{"held":{"r":1}},{"held":{"r":2}},{"held":{"r":2}},{"held":{"r":1}},{"held":{"r":1}},{"live":["r"]} | yes
8 | {"live":["r"]},{"live":["r"]},{"held":{"r":1}},{"held":{"r":1}},{"held":{"r":2}},{"held":{"r":2}},{"held":{"r":1}},{"held":{"r":1}},{"live":["r"]} | yes
3 | {},{},{},{"held":{"r":1}},{"held":{"r":1}},{},{},{},{} | no: point 3 (t 1 inside): goes to point 4 (t 2 before)
5 | {},{},{},{},{},{"held":{"r":2}},{"live":["r"]},{},{} | no: point 5 (t 2 inside): goes to point 6 (t 3 before)
7 | {},{},{},{},{},{},{},{"held":{"r":1}},{"held":{"r":1}} | no: point 7 (t 3 inside): goes to point 8 (t 4 before)
"#,
    },
    // What the result of a call on a buffer of 4 bytes can be.
    Table {
        app: r#"variable = [{name="r", lo=0, hi=8, init=0}]
object = [{name="b", kind="?", size=4, live=true}]
actor = [{name="t", kind="task", code=["?", "goto 0"]}]
"#,
        certificate: r#"{"version":2,"ends":[],"notes":[?]}
"#,
        cases: r#"# Buffers of kind stream.
# As many bytes as there can be, or fewer.
1 | stream | r = xStreamBufferReceive(b, 8, 0) | {},{"live":["b"]},{"range":{"r":[0,4]}} | yes
1 | stream | r = xStreamBufferReceive(b, 8, 0) | {},{"live":["b"]},{"range":{"r":[0,3]}} | no: point 1 (t 0 inside): goes to point 2 (t 1 before)
1 | stream | r = xStreamBufferSend(b, 3, 0) | {},{"live":["b"]},{"range":{"r":[0,3]}} | yes
1 | stream | r = xStreamBufferSend(b, 3, 0) | {},{"live":["b"]},{"range":{"r":[1,3]}} | no: point 1 (t 0 inside): goes to point 2 (t 1 before)
# One row of the step table, so one alternative has to hold after all of its steps.
1 | stream | r = xStreamBufferSend(b, 1, 0) | {},{"live":["b"]},{"range":{"r":[0,1]}} | yes
1 | stream | r = xStreamBufferSend(b, 1, 0) | {},{"live":["b"]},[{"range":{"r":[0,0]}},{"range":{"r":[1,1]}}] | no: point 1 (t 0 inside): goes to point 2 (t 1 before)

# Buffers of kind message.
# A whole message or nothing; one that is longer than the buffer is never sent.
1 | message | r = xMessageBufferSend(b, 3, 0) | {},{"live":["b"]},{"range":{"r":[0,3]}} | yes
1 | message | r = xMessageBufferSend(b, 3, 0) | {},{"live":["b"]},{"range":{"r":[0,2]}} | no: point 1 (t 0 inside): goes to point 2 (t 1 before)
1 | message | r = xMessageBufferSend(b, 5, 0) | {},{"live":["b"]},{"range":{"r":[0,0]}} | yes
1 | message | r = xMessageBufferSend(b, 5, 0) | {},{"live":["b"]},{"range":{"r":[1,8]}} | no: point 1 (t 0 inside): goes to point 2 (t 1 before)
1 | message | r = xMessageBufferReceive(b, 8, 0) | {},{"live":["b"]},{"range":{"r":[0,4]}} | yes
1 | message | r = xMessageBufferReceive(b, 8, 0) | {},{"live":["b"]},{"range":{"r":[0,3]}} | no: point 1 (t 0 inside): goes to point 2 (t 1 before)
# Nothing and a message are two rows of the step table: each may have an alternative of its own.
1 | message | r = xMessageBufferSend(b, 3, 0) | {},{"live":["b"]},[{"range":{"r":[0,0]}},{"range":{"r":[3,3]}}] | yes
1 | message | r = xMessageBufferSend(b, 3, 0) | {},{"live":["b"]},[{"range":{"r":[0,0]}},{"range":{"r":[1,2]}}] | no: point 1 (t 0 inside): goes to point 2 (t 1 before)
"#,
    },
    // A buffer may be used in a critical section with block time 0.
    Table {
        app: r#"object = [{name="b", kind="stream", size=4, live=true}]
actor = [{name="t", kind="task", code=["taskENTER_CRITICAL()", "xStreamBufferSend(b, 3, 0)", "xStreamBufferSend(b, 3, 1)", "taskEXIT_CRITICAL()", "goto 0"]}]
"#,
        certificate: r#"{"version":2,"ends":[],"notes":[?]}
"#,
        cases: r#"1 | {},{"live":["b"],"crit":1},{"live":["b"],"crit":1},{"live":["b"],"crit":1},{},{},{} | yes
3 | {},{"live":["b"],"crit":1},{"live":["b"],"crit":1},{"live":["b"],"crit":1},{},{},{} | no: point 3 (t 2 before): rule 4: call not allowed in a critical section
"#,
    },
    // What a task owes that returns, and one that never comes to its return.
    Table {
        app: r#"actor = [{name="t", kind="task", code=["goto 0", "return"]}]
"#,
        certificate: r#"{"version":2,"ends":[],"notes":[?]}
"#,
        cases: r#"1 | {},{} | no: point 1 (t 1 before): rule 11: actor ends in the wrong way
0 | {},"never" | yes
1 | {},"never" | yes
"#,
    },
];
