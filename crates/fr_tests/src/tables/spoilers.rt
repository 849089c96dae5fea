// The first point that disturbs a note.
use crate::table::Table;

pub const TABLES: [Table; 4] = [
    // The first point that disturbs the note of task t, beside a task u that goes round with one line.
    Table {
        app: r#"variable = [{name="x", lo=0, hi=3, init=0}, {name="y", lo=0, hi=3, init=0, owner="u"}]
object = [
 {name="m", kind="mutex", live=true},
 {name="q", kind="queue", size=2, lo=1, hi=2, live=true},
 {name="sb", kind="stream", size=8, live=true},
]
actor = [
 {name="t", kind="task", code=["goto 0"]},
 {name="u", kind="task", code=["?", "goto 0"]},
]
"#,
        certificate: r#"{"version":2,"ends":[],"notes":[?]}
"#,
        cases: r#"# Sets disturb ranges.
0 | set x = 3 | {},{},{} | yes
0 | set x = 4 | {},{},{} | no: point 0 (t 0 before): spoiled by point 1 (u 0 before)
0 | set x = 2 | {"range":{"x":[0,2]}},{},{} | yes
0 | set x = 2 | {"range":{"x":[0,1]}},{},{} | no: point 0 (t 0 before): spoiled by point 1 (u 0 before)
0 | set x = y + 1 | {},{},{} | no: point 0 (t 0 before): spoiled by point 1 (u 0 before)
0 | set x = y + 1 | {},{"range":{"y":[0,2]}},{} | yes
0 | set x = y + 1 | {"range":{"x":[1,3]}},{"range":{"y":[0,2]}},{} | yes
0 | set x = y + 1 | {"range":{"x":[2,3]}},{"range":{"y":[0,2]}},{} | no: point 0 (t 0 before): spoiled by point 1 (u 0 before)
0 | set x = y + 1 | {"range":{"y":[2,2]}},{},{} | yes
0 | vTaskDelay(1) | {"range":{"x":[0,0]}},{},{} | yes

# Picks and results disturb ranges.
0 | pick x 1 2 | {"range":{"x":[1,2]}},{},{} | yes
0 | pick x 1 2 | {"range":{"x":[1,1]}},{},{} | no: point 0 (t 0 before): spoiled by point 1 (u 0 before)
0 | xQueueReceive(q, x, 10) | {"range":{"x":[1,2]}},{},{},{} | yes
0 | xQueueReceive(q, x, 10) | {"range":{"x":[0,1]}},{},{},{} | no: point 0 (t 0 before): spoiled by point 2 (u 0 inside)
0 | x = xStreamBufferSend(sb, 2, 10) | {"range":{"x":[0,2]}},{},{},{} | yes
0 | x = xStreamBufferSend(sb, 2, 10) | {"range":{"x":[0,1]}},{},{},{} | no: point 0 (t 0 before): spoiled by point 2 (u 0 inside)
0 | xStreamBufferSend(sb, 2, 10) | {"range":{"x":[0,0]}},{},{},{} | yes

# Creates and deletes disturb what is said of lives.
0 | xStreamBufferCreate(sb) | {"dead":["sb"]},{},{} | no: point 0 (t 0 before): spoiled by point 1 (u 0 before)
0 | xStreamBufferCreate(sb) | {},{},{} | yes
0 | xStreamBufferCreate(sb) | {"live":["sb"]},{},{} | yes
0 | vStreamBufferDelete(sb) | {"live":["sb"]},{},{} | no: point 0 (t 0 before): spoiled by point 1 (u 0 before)
0 | vStreamBufferDelete(sb) | {"live":["q"]},{},{} | yes
0 | vStreamBufferDelete(sb) | {"dead":["sb"]},{},{} | yes
0 | vStreamBufferDelete(sb) | {"live":["sb"]},{"dead":["sb"]},{} | yes
0 | xStreamBufferReset(sb) | {"live":["sb"]},{},{},{} | yes

# Only deletes disturb what is said of a mutex.
0 | vSemaphoreDelete(m) | {"held":{"m":1}},{},{} | no: point 0 (t 0 before): spoiled by point 1 (u 0 before)
0 | vSemaphoreDelete(m) | {},{},{} | yes
0 | vSemaphoreDelete(m) | {"held":{"m":1}},{"held":{"m":1}},{} | yes
0 | xSemaphoreTake(m, 10) | {"held":{"m":1}},{},{},{} | yes
0 | xSemaphoreTake(m, 10) | {"live":["m"]},{},{},{} | yes
0 | xSemaphoreGive(m) | {"held":{"m":1}},{},{},{} | yes
0 | xSemaphoreGive(m) | {"live":["m"]},{"held":{"m":1}},{"held":{"m":1}},{} | yes

# Depths decide and are never disturbed.
0 | taskENTER_CRITICAL() | {"crit":1},{},{} | yes
0 | vTaskSuspendAll() | {"susp":1},{},{} | yes
0 | set x = 1 | {"crit":1,"range":{"x":[0,0]}},{"crit":1},{} | yes
0 | set x = 1 | {"crit":1,"range":{"x":[0,0]}},{},{} | no: point 0 (t 0 before): spoiled by point 1 (u 0 before)
0 | set x = 1 | {"susp":1,"range":{"x":[0,0]}},{"susp":1},{} | no: point 0 (t 0 before): spoiled by point 1 (u 0 before)

# Notes that no state has together disturb nothing.
0 | set x = 1 | {"held":{"m":1},"range":{"x":[0,0]}},{"held":{"m":1}},{} | yes
0 | set x = 1 | {"range":{"x":[0,0]}},{"range":{"x":[1,1]}},{} | yes
0 | set x = 1 | {"range":{"x":[0,0]}},"never",{} | yes
0 | set x = 4 | "never",{},{} | yes

# Alternatives decide.
0 | set x = 1 | [{"range":{"x":[0,0]}},{"range":{"x":[1,1]}}],{},{} | yes
0 | set x = 2 | [{"range":{"x":[0,0]}},{"range":{"x":[1,1]}}],{},{} | no: point 0 (t 0 before): spoiled by point 1 (u 0 before)
0 | pick x 0 1 | [{"range":{"x":[0,0]}},{"range":{"x":[1,1]}}],{},{} | no: point 0 (t 0 before): spoiled by point 1 (u 0 before)
0 | pick x 0 1 | {"range":{"x":[0,1]}},{},{} | yes
0 | set x = y + 0 | {"range":{"x":[0,2]}},[{"range":{"y":[0,0]}},{"range":{"y":[2,2]}}],{} | yes
0 | set x = y + 0 | {"range":{"x":[0,0]}},[{"range":{"y":[0,0]}},{"range":{"y":[2,2]}}],{} | no: point 0 (t 0 before): spoiled by point 1 (u 0 before)
0 | xQueueReceive(q, x, portMAX_DELAY) | [{"range":{"x":[0,0]}},{"live":["q"],"range":{"x":[1,2]}}],{},{},{} | yes
"#,
    },
    // The least point that disturbs notes on a mutex: its delete.
    Table {
        app: r#"object = [{name="m", kind="mutex", live=true}]
actor = [
 {name="t", kind="task", code=["xSemaphoreTake(m, portMAX_DELAY)", "xSemaphoreGive(m)", "goto 0"]},
 {name="k", kind="task", code=["vSemaphoreDelete(m)", "vTaskDelete(NULL)"]},
]
"#,
        certificate: r#"{"version":2,"ends":[],"notes":[?]}
"#,
        cases: r#"0 | {"live":["m"]},{"live":["m"]},{"held":{"m":1}},{"held":{"m":1}},{"live":["m"]},{"live":["m"]},{} | no: point 0 (t 0 before): spoiled by point 5 (k 0 before)
1 | {"live":["m"]},{"live":["m"]},{"held":{"m":1}},{"held":{"m":1}},{"live":["m"]},{"live":["m"]},{} | no: point 1 (t 0 inside): spoiled by point 5 (k 0 before)
2 | {"live":["m"]},{"live":["m"]},{"held":{"m":1}},{"held":{"m":1}},{"live":["m"]},{"live":["m"]},{} | no: point 2 (t 1 before): spoiled by point 5 (k 0 before)
3 | {"live":["m"]},{"live":["m"]},{"held":{"m":1}},{"held":{"m":1}},{"live":["m"]},{"live":["m"]},{} | no: point 3 (t 1 inside): spoiled by point 5 (k 0 before)
4 | {"live":["m"]},{"live":["m"]},{"held":{"m":1}},{"held":{"m":1}},{"live":["m"]},{"live":["m"]},{} | no: point 4 (t 2 before): spoiled by point 5 (k 0 before)
5 | {"live":["m"]},{"live":["m"]},{"held":{"m":1}},{"held":{"m":1}},{"live":["m"]},{"live":["m"]},{} | yes
6 | {"live":["m"]},{"live":["m"]},{"held":{"m":1}},{"held":{"m":1}},{"live":["m"]},{"live":["m"]},{} | yes
"#,
    },
    // The least point that disturbs a note: a set out of the declared range.
    Table {
        app: r#"variable = [{name="x", lo=0, hi=1, init=0}]
actor = [{name="t", kind="task", code=["goto 0"]}, {name="u", kind="task", code=["set x = 2", "goto 0"]}]
"#,
        certificate: r#"{"version":2,"ends":[],"notes":[?]}
"#,
        cases: r#"0 | {},{},{} | no: point 0 (t 0 before): spoiled by point 1 (u 0 before)
1 | {},{},{} | yes
2 | {},{},{} | yes
"#,
    },
    // The least point that disturbs a range: a set by an interrupt.
    Table {
        app: r#"variable = [{name="x", lo=0, hi=1, init=0}]
actor = [{name="t", kind="task", code=["set x = 0", "goto 0"]}, {name="i", kind="interrupt", code=["set x = 1", "return"]}]
"#,
        certificate: r#"{"version":2,"ends":[],"notes":[?]}
"#,
        cases: r#"0 | {"range":{"x":[0,0]}},{"range":{"x":[0,0]}},{},{} | no: point 0 (t 0 before): spoiled by point 2 (i 0 before)
1 | {"range":{"x":[0,0]}},{"range":{"x":[0,0]}},{},{} | no: point 1 (t 1 before): spoiled by point 2 (i 0 before)
2 | {"range":{"x":[0,0]}},{"range":{"x":[0,0]}},{},{} | yes
3 | {"range":{"x":[0,0]}},{"range":{"x":[0,0]}},{},{} | yes
"#,
    },
];
