// Deletes that are a danger to a call.
use crate::table::Table;

pub const TABLES: [Table; 1] = [
    // Whether a delete at point 3, by task k, is a danger to task u.
    Table {
        app: r#"object = [{name="q", kind="queue", size=4, lo=0, hi=9, live=true},
 {name="s", kind="binary", live=true}, {name="sb", kind="stream", size=64, live=true},
 {name="mb", kind="message", size=64, live=true}, {name="m", kind="mutex", live=true}]
actor = [{name="u", kind="task", code=["?", "goto 0"]}, {name="k", kind="task", code=["?", "goto 0"]}]
"#,
        certificate: r#"{"version":2,"ends":[],"notes":[?]}
"#,
        cases: r#"# Each call with a delete of its object: inside the call, before it, where the delete is never reached, and between points
# of one actor.
1 3 | xQueueSend(q, 1, 10) | vQueueDelete(q) | {},{},{},{},{} | no: point 1 (u 0 inside): near point 3 (k 0 before)
0 3 | xQueueSend(q, 1, 10) | vQueueDelete(q) | {},{},{},{},{} | yes
1 3 | xQueueSend(q, 1, 10) | vQueueDelete(q) | {},{},{},"never",{} | yes
3 3 | xQueueSend(q, 1, 10) | vQueueDelete(q) | {},{},{},{},{} | yes
1 3 | xSemaphoreTake(s, 10) | vSemaphoreDelete(s) | {},{},{},{},{} | no: point 1 (u 0 inside): near point 3 (k 0 before)
0 3 | xSemaphoreTake(s, 10) | vSemaphoreDelete(s) | {},{},{},{},{} | yes
1 3 | xSemaphoreTake(s, 10) | vSemaphoreDelete(s) | {},{},{},"never",{} | yes
3 3 | xSemaphoreTake(s, 10) | vSemaphoreDelete(s) | {},{},{},{},{} | yes
1 3 | xSemaphoreGive(s) | vSemaphoreDelete(s) | {},{},{},{},{} | no: point 1 (u 0 inside): near point 3 (k 0 before)
0 3 | xSemaphoreGive(s) | vSemaphoreDelete(s) | {},{},{},{},{} | yes
1 3 | xSemaphoreGive(s) | vSemaphoreDelete(s) | {},{},{},"never",{} | yes
3 3 | xSemaphoreGive(s) | vSemaphoreDelete(s) | {},{},{},{},{} | yes
1 3 | xStreamBufferSend(sb, 8, 10) | vStreamBufferDelete(sb) | {},{},{},{},{} | no: point 1 (u 0 inside): near point 3 (k 0 before)
0 3 | xStreamBufferSend(sb, 8, 10) | vStreamBufferDelete(sb) | {},{},{},{},{} | yes
1 3 | xStreamBufferSend(sb, 8, 10) | vStreamBufferDelete(sb) | {},{},{},"never",{} | yes
3 3 | xStreamBufferSend(sb, 8, 10) | vStreamBufferDelete(sb) | {},{},{},{},{} | yes
1 3 | xStreamBufferReset(sb) | vStreamBufferDelete(sb) | {},{},{},{},{} | no: point 1 (u 0 inside): near point 3 (k 0 before)
0 3 | xStreamBufferReset(sb) | vStreamBufferDelete(sb) | {},{},{},{},{} | yes
1 3 | xStreamBufferReset(sb) | vStreamBufferDelete(sb) | {},{},{},"never",{} | yes
3 3 | xStreamBufferReset(sb) | vStreamBufferDelete(sb) | {},{},{},{},{} | yes
1 3 | xMessageBufferReceive(mb, 8, 10) | vMessageBufferDelete(mb) | {},{},{},{},{} | no: point 1 (u 0 inside): near point 3 (k 0 before)
0 3 | xMessageBufferReceive(mb, 8, 10) | vMessageBufferDelete(mb) | {},{},{},{},{} | yes
1 3 | xMessageBufferReceive(mb, 8, 10) | vMessageBufferDelete(mb) | {},{},{},"never",{} | yes
3 3 | xMessageBufferReceive(mb, 8, 10) | vMessageBufferDelete(mb) | {},{},{},{},{} | yes

# A delete of another object.
1 3 | xSemaphoreTake(s, 10) | vSemaphoreDelete(m) | {},{},{},{},{} | yes

# Deletes that notes keep away.
1 3 | xStreamBufferSend(sb, 8, 10) | vStreamBufferDelete(sb) | {"crit":1},{"crit":1},{},{"crit":2},{} | yes
1 3 | xStreamBufferSend(sb, 8, 10) | vStreamBufferDelete(sb) | {"susp":1},{"susp":1},{},{"susp":1},{} | no: point 1 (u 0 inside): near point 3 (k 0 before)
1 3 | xStreamBufferSend(sb, 8, 10) | vStreamBufferDelete(sb) | {"held":{"m":1}},{"held":{"m":1}},{},{"held":{"m":1}},{} | yes
1 3 | xStreamBufferSend(sb, 8, 10) | vStreamBufferDelete(sb) | {"held":{"m":1}},{"held":{"m":1}},{},{"live":["m"]},{} | no: point 1 (u 0 inside): near point 3 (k 0 before)
1 3 | xStreamBufferSend(sb, 8, 10) | vStreamBufferDelete(sb) | {"live":["q"]},{"live":["q"]},{},{"dead":["q"]},{} | yes
1 3 | xStreamBufferSend(sb, 8, 10) | vStreamBufferDelete(sb) | [{"crit":1},{"live":["q"]}],[{"crit":1},{"live":["q"]}],{},{"crit":1},{} | no: point 1 (u 0 inside): near point 3 (k 0 before)
1 3 | xStreamBufferSend(sb, 8, 10) | vStreamBufferDelete(sb) | [{"crit":1},{"live":["q"]}],[{"crit":1},{"live":["q"]}],{},[{"crit":1,"dead":["q"]}],{} | yes
"#,
    },
];
