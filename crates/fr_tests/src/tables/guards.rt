// The ends of buffers that a point owes.
use crate::table::Table;

pub const TABLES: [Table; 1] = [
    // Which end of a buffer a point owes whose guard its note does not imply. Task a is inside a send at point 1, a receive at
    // 3, a reset at 5 and a take at 7; task b inside a send at 10.
    Table {
        app: r#"variable = [{name="turn", lo=1, hi=2, init=1}]
object = [{name="sb", kind="stream", size=64, live=true}, {name="m", kind="mutex", live=true},
 {name="q", kind="queue", size=4, lo=0, hi=9, live=true}, {name="s", kind="binary", live=true}]
actor = [
 {name="a", kind="task", code=["xStreamBufferSend(sb, 8, 10)", "xStreamBufferReceive(sb, 8, 10)", "xStreamBufferReset(sb)", "xSemaphoreTake(m, 10)", "goto 0"]},
 {name="b", kind="task", code=["xStreamBufferSend(sb, 8, 10)", "goto 0"]},
]
"#,
        certificate: r#"{"version":2,"ends":[?],"notes":[?]}
"#,
        cases: r#"# Ends that a point owes.
# Without a guard: the writer's end at a send, the reader's at a receive, both at a reset.
0 |  | {},{},{},{},{},{},{},{},{},{},{},{} | yes
1 |  | {},{},{},{},{},{},{},{},{},{},{},{} | no: point 1 (a 0 inside): guard sb writer
3 |  | {},{},{},{},{},{},{},{},{},{},{},{} | no: point 3 (a 1 inside): guard sb reader
5 |  | {},{},{},{},{},{},{},{},{},{},{},{} | no: point 5 (a 2 inside): guard sb writer
7 |  | {},{},{},{},{},{},{},{},{},{},{},{} | yes
8 |  | {},{},{},{},{},{},{},{},{},{},{},{} | yes
1 | {"buffer":"sb","end":"writer","guard":{"sole":"a"}} | {},{},{},{},{},{},{},{},{},{},{},{} | yes
3 | {"buffer":"sb","end":"writer","guard":{"sole":"a"}} | {},{},{},{},{},{},{},{},{},{},{},{} | no: point 3 (a 1 inside): guard sb reader
5 | {"buffer":"sb","end":"writer","guard":{"sole":"a"}} | {},{},{},{},{},{},{},{},{},{},{},{} | no: point 5 (a 2 inside): guard sb reader
5 | {"buffer":"sb","end":"reader","guard":{"sole":"a"}} | {},{},{},{},{},{},{},{},{},{},{},{} | no: point 5 (a 2 inside): guard sb writer
3 | {"buffer":"sb","end":"writer","guard":{"sole":"a"}},{"buffer":"sb","end":"reader","guard":{"sole":"a"}} | {},{},{},{},{},{},{},{},{},{},{},{} | yes
5 | {"buffer":"sb","end":"writer","guard":{"sole":"a"}},{"buffer":"sb","end":"reader","guard":{"sole":"a"}} | {},{},{},{},{},{},{},{},{},{},{},{} | yes
9 | {"buffer":"sb","end":"writer","guard":{"sole":"a"}},{"buffer":"sb","end":"reader","guard":{"sole":"a"}} | {},{},{},{},{},{},{},{},{},{},{},{} | yes
10 | {"buffer":"sb","end":"writer","guard":{"sole":"a"}},{"buffer":"sb","end":"reader","guard":{"sole":"a"}} | {},{},{},{},{},{},{},{},{},{},{},{} | no: point 10 (b 0 inside): guard sb writer

# Guards that a note implies.
# No note implies the guard of an end that isn't listed; never implies each other one.
1 |  | {},"never",{},{},{},{},{},{},{},{},{},{} | no: point 1 (a 0 inside): guard sb writer
1 | {"buffer":"sb","end":"writer","guard":"critical"} | {},"never",{},{},{},{},{},{},{},{},{},{} | yes
10 | {"buffer":"sb","end":"writer","guard":{"sole":"a"}} | {},{},{},{},{},{},{},{},{},{},"never",{} | yes
1 | {"buffer":"sb","end":"writer","guard":{"mutex":"m"}} | {},{},{},{},{},{},{},{},{},{},{},{} | no: point 1 (a 0 inside): guard sb writer
1 | {"buffer":"sb","end":"writer","guard":{"mutex":"m"}} | {},{"live":["m"]},{},{},{},{},{},{},{},{},{},{} | no: point 1 (a 0 inside): guard sb writer
1 | {"buffer":"sb","end":"writer","guard":{"mutex":"m"}} | {},{"held":{"m":1}},{},{},{},{},{},{},{},{},{},{} | yes
1 | {"buffer":"sb","end":"writer","guard":{"mutex":"m"}} | {},[{"held":{"m":1}},{}],{},{},{},{},{},{},{},{},{},{} | no: point 1 (a 0 inside): guard sb writer
1 | {"buffer":"sb","end":"writer","guard":"critical"} | {},{},{},{},{},{},{},{},{},{},{},{} | no: point 1 (a 0 inside): guard sb writer
1 | {"buffer":"sb","end":"writer","guard":"critical"} | {},{"crit":1},{},{},{},{},{},{},{},{},{},{} | yes
1 | {"buffer":"sb","end":"writer","guard":"critical"} | {},[{"crit":1},{"crit":2}],{},{},{},{},{},{},{},{},{},{} | yes
1 | {"buffer":"sb","end":"writer","guard":"critical"} | {},[{"crit":1},{"susp":1}],{},{},{},{},{},{},{},{},{},{} | no: point 1 (a 0 inside): guard sb writer
1 | {"buffer":"sb","end":"writer","guard":{"turn":"turn","values":{"a":1,"b":2}}} | {},{},{},{},{},{},{},{},{},{},{},{} | no: point 1 (a 0 inside): guard sb writer
1 | {"buffer":"sb","end":"writer","guard":{"turn":"turn","values":{"a":1,"b":2}}} | {},{"range":{"turn":[1,1]}},{},{},{},{},{},{},{},{},{},{} | yes
1 | {"buffer":"sb","end":"writer","guard":{"turn":"turn","values":{"a":1,"b":2}}} | {},{"range":{"turn":[2,2]}},{},{},{},{},{},{},{},{},{},{} | no: point 1 (a 0 inside): guard sb writer
10 | {"buffer":"sb","end":"writer","guard":{"turn":"turn","values":{"a":1,"b":2}}} | {},{},{},{},{},{},{},{},{},{},{"range":{"turn":[1,1]}},{} | no: point 10 (b 0 inside): guard sb writer
10 | {"buffer":"sb","end":"writer","guard":{"turn":"turn","values":{"a":1,"b":2}}} | {},{},{},{},{},{},{},{},{},{},{"range":{"turn":[2,2]}},{} | yes
# An actor that isn't listed never has its turn.
1 | {"buffer":"sb","end":"writer","guard":{"turn":"turn","values":{"b":2}}} | {},{"range":{"turn":[1,1]}},{},{},{},{},{},{},{},{},{},{} | no: point 1 (a 0 inside): guard sb writer
1 | {"buffer":"sb","end":"writer","guard":{"turn":"turn","values":{"b":2}}} | {},{"range":{"turn":[2,2]}},{},{},{},{},{},{},{},{},{},{} | no: point 1 (a 0 inside): guard sb writer
10 | {"buffer":"sb","end":"writer","guard":{"turn":"turn","values":{"b":2}}} | {},{},{},{},{},{},{},{},{},{},{"range":{"turn":[2,2]}},{} | yes
"#,
    },
];
