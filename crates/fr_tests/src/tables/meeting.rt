// Notes that two actors can have at once.
use crate::table::Table;

pub const TABLES: [Table; 1] = [
    // Whether task a can have the first note while task b has the second one.
    Table {
        app: r#"variable = [{name="x", lo=0, hi=2, init=0}]
object = [{name="m", kind="mutex", live=true}, {name="r", kind="recursive", live=true}, {name="q", kind="queue", size=4, lo=0, hi=9, live=true}, {name="sb", kind="stream", size=8, live=true}]
actor = [{name="a", kind="task", code=["goto 0"]}, {name="b", kind="task", code=["goto 0"]}]
"#,
        certificate: r#"{"version":2,"ends":[],"notes":[?,?]}
"#,
        cases: r#"# Suspending the scheduler excludes nobody; a critical section does.
0 1 | {"susp":1} | {"susp":1} | yes
0 1 | {"crit":1} | {"crit":2} | no
0 1 | {"crit":1} | {} | yes
0 1 | {"held":{"m":1}} | {"held":{"m":1}} | no
0 1 | {"held":{"m":1}} | {"live":["m"]} | yes
0 1 | {"live":["sb"]} | {"dead":["sb"]} | no
0 1 | {"dead":["sb"]} | {"live":["sb"]} | no
0 1 | {"held":{"m":1}} | {"dead":["m"]} | no
0 1 | {"dead":["m"]} | {"held":{"m":1}} | no
0 1 | {"range":{"x":[0,1]}} | {"range":{"x":[1,2]}} | yes
0 1 | {"range":{"x":[0,0]}} | {"range":{"x":[1,2]}} | no
0 1 | "never" | {} | no
0 1 | {} | "never" | no
"#,
    },
];
