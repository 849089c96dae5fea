// What is written for certificates, and why they are refused.
use crate::table::Table;

pub const TABLES: [Table; 4] = [
    // What is written for certificates of a loop with two variables, and where a value of a wrong shape is.
    Table {
        app: r#"variable = [{name="b", lo=0, hi=9, init=0}, {name="a", lo=-5, hi=5, init=0}]
actor = [{name="t", kind="task", code=["goto 0"]}]
"#,
        certificate: "?",
        cases: r#"# Certificates that are written.
 { "notes" : [ "never" ] , "ends" : [ ] , "version" : 1 }  | {"ends":[],"notes":["never"],"version":1}
{"version":1,"ends":[],"notes":[{"crit":0,"range":{"b":[0,9],"a":[-5,5]}}]} | {"ends":[],"notes":[{}],"version":1}
{"version":1,"ends":[],"notes":[{"range":{"b":[1,9],"a":[-5,-1]},"crit":255}]} | {"ends":[],"notes":[{"crit":255,"range":{"a":[-5,-1],"b":[1,9]}}],"version":1}

# Where a value of a wrong shape is.
[] | 3 Shape at /
{"version":1,"notes":[{}]} | 3 Shape at /ends
{"version":1,"ends":[],"notes":[{"held":1}]} | 3 Shape at /notes/0/held
{"version":1,"ends":[],"notes":[{"crit":"1"}]} | 3 Shape at /notes/0/crit
{"version":1,"ends":[],"notes":[{"range":{"b":[1,"2"]}}]} | 3 Shape at /notes/0/range/b/1
"#,
    },
    // What is written for the certificate of an empty application.
    Table {
        app: "",
        certificate: "?",
        cases: r#"{"version":1,"ends":[],"notes":[]} | {"ends":[],"notes":[],"version":1}
"#,
    },
    // What is written for a certificate of one task.
    Table {
        app: r#"variable = [{name="x", lo=0, hi=1, init=0}]
actor = [{name="t", kind="task", code=["taskENTER_CRITICAL()", "set x = 1", "taskEXIT_CRITICAL()", "vTaskDelay(1)", "goto 0"]}]
"#,
        certificate: "?",
        cases: r#"{"version":1,"ends":[],"notes":[{},{"crit":1},{"crit":1},{},{}]} | {"ends":[],"notes":[{},{"crit":1},{"crit":1},{},{}],"version":1}
"#,
    },
    // Certificates with guards, objects and alternatives: what is written for them, and why others are refused.
    Table {
        app: r#"variable = [{name="turn", lo=0, hi=3, init=0}]
object = [
 {name="m", kind="mutex", live=true},
 {name="r", kind="recursive", live=true},
 {name="sb", kind="stream", size=16, live=true},
 {name="mb", kind="message", size=16, live=false},
]
actor = [
 {name="b", kind="task", code=["goto 0"]},
 {name="a", kind="task", code=["goto 0"]},
]
"#,
        certificate: "?",
        cases: r#"# Guards that are written.
{"version":1,"ends":[{"buffer":"sb","end":"writer","guard":{"turn":"turn","values":{"b":1,"a":-2}}},{"buffer":"sb","end":"reader","guard":"critical"},{"buffer":"mb","end":"writer","guard":{"mutex":"m"}},{"buffer":"mb","end":"reader","guard":{"sole":"a"}}],"notes":[{},{}]} | {"ends":[{"buffer":"sb","end":"writer","guard":{"turn":"turn","values":{"a":-2,"b":1}}},{"buffer":"sb","end":"reader","guard":"critical"},{"buffer":"mb","end":"writer","guard":{"mutex":"m"}},{"buffer":"mb","end":"reader","guard":{"sole":"a"}}],"notes":[{},{}],"version":1}

# Notes that are written.
{"version":1,"ends":[],"notes":[{"susp":1,"range":{"turn":[1,3]},"live":["sb","m"],"held":{"r":2,"m":1},"dead":["mb"],"crit":2},{}]} | {"ends":[],"notes":[{"crit":2,"dead":["mb"],"held":{"m":1,"r":2},"live":["sb"],"range":{"turn":[1,3]},"susp":1},{}],"version":1}
{"version":1,"ends":[],"notes":[{"susp":0,"live":[]},{"crit":0,"dead":[],"held":{},"range":{"turn":[0,3]}}]} | {"ends":[],"notes":[{},{}],"version":1}
{"version":1,"ends":[],"notes":[{"live":["sb","r","m"]},{}]} | {"ends":[],"notes":[{"live":["m","r","sb"]},{}],"version":1}
{"version":2,"ends":[],"notes":[[{}],"never"]} | {"ends":[],"notes":[{},"never"],"version":1}
{"version":2,"ends":[],"notes":[[{"live":["m"],"range":{"turn":[0,0]}},{"range":{"turn":[1,1]},"held":{"m":1}}],{}]} | {"ends":[],"notes":[[{"live":["m"],"range":{"turn":[0,0]}},{"held":{"m":1},"range":{"turn":[1,1]}}],{}],"version":2}
{"version":2,"ends":[],"notes":["never",[{"crit":1},{},{"susp":1},{"crit":255}]]} | {"ends":[],"notes":["never",[{"crit":1},{},{"susp":1},{"crit":255}]],"version":2}

# Lists of notes that are refused.
{"version":1,"ends":[],"notes":[[{}],{}]} | 3 Shape at /notes/0
{"version":2,"ends":[],"notes":[["never"],{}]} | 3 Shape at /notes/0/0
{"version":3,"ends":[],"notes":[{},{}]} | 4 Version
{"version":1,"ends":[],"notes":[{}]} | 5 PointCount
{"version":2,"ends":[],"notes":[{},[]]} | 10 Alternatives at /notes/1
{"version":2,"ends":[],"notes":[[{},{},{},{},{}],{}]} | 10 Alternatives at /notes/0

# Notes that are refused.
{"version":1,"ends":[],"notes":[{"depth":1},{}]} | 3 Shape at /notes/0/depth
{"version":1,"ends":[],"notes":[{"live":"m"},{}]} | 3 Shape at /notes/0/live
{"version":1,"ends":[],"notes":[{},{"live":["x"]}]} | 6 UnknownName at /notes/1/live/0
{"version":1,"ends":[],"notes":[{"crit":256},{}]} | 7 Note at /notes/0/crit
{"version":1,"ends":[],"notes":[{"held":{"m":2}},{}]} | 7 Note at /notes/0
{"version":1,"ends":[],"notes":[{"live":["m"],"dead":["m"]},{}]} | 7 Note at /notes/0
{"version":1,"ends":[],"notes":[{"live":["m","m"]},{}]} | 7 Note at /notes/0/live/1

# Guards that are refused.
{"version":1,"ends":[{"buffer":"sb","end":"writer","guard":{"turn":"turn","values":{"a":1,"b":1}}}],"notes":[{},{}]} | 8 Guard at /ends/0
{"version":1,"ends":[{"buffer":"sb","end":"writer","guard":{"turn":"turn","values":{"a":9223372036854775808}}}],"notes":[{},{}]} | 8 Guard at /ends/0/guard/values/a
{"version":1,"ends":[{"buffer":"m","end":"writer","guard":"critical"}],"notes":[{},{}]} | 8 Guard at /ends/0
{"version":1,"ends":[{"buffer":"sb","end":"writer","guard":{"mutex":"mb"}}],"notes":[{},{}]} | 8 Guard at /ends/0
{"version":1,"ends":[{"buffer":"sb","end":"reader","guard":"critical"},{"buffer":"sb","end":"reader","guard":{"sole":"a"}}],"notes":[{},{}]} | 9 EndTwice at /ends/1
{"version":1,"ends":[{"buffer":"sb","end":"both","guard":"critical"}],"notes":[{},{}]} | 3 Shape at /ends/0/end
{"version":1,"ends":[{"buffer":"sb","end":"reader","guard":{"sole":"c"}}],"notes":[{},{}]} | 6 UnknownName at /ends/0/guard/sole
"#,
    },
];
