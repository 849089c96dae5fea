// Notes that imply others.
use crate::table::Table;

pub const TABLES: [Table; 2] = [
    // Which of four plain notes implies which other.
    Table {
        app: r#"variable = [{name="x", lo=0, hi=3, init=0}]
actor = [{name="t", kind="task", code=["goto 1", "goto 2", "goto 3", "goto 0"]}]
"#,
        certificate: r#"{"version":1,"ends":[],"notes":["never",{"range":{"x":[1,1]}},{"range":{"x":[0,1]}},{"crit":1}]}
"#,
        cases: r#"# Never implies any note.
0 0 | yes
0 1 | yes
0 3 | yes
1 1 | yes
1 2 | yes
3 3 | yes
1 0 | no
3 0 | no
2 1 | no
1 3 | no
3 1 | no
"#,
    },
    // Whether the first note implies the second one.
    Table {
        app: r#"variable = [{name="x", lo=0, hi=2, init=0}]
object = [{name="m", kind="mutex", live=true}, {name="r", kind="recursive", live=true}, {name="q", kind="queue", size=4, lo=0, hi=9, live=true}, {name="sb", kind="stream", size=8, live=true}]
actor = [{name="a", kind="task", code=["goto 0"]}, {name="b", kind="task", code=["goto 0"]}]
"#,
        certificate: r#"{"version":2,"ends":[],"notes":[?,?]}
"#,
        cases: r#"0 1 | {"live":["sb"],"range":{"x":[1,1]}} | {"range":{"x":[0,1]}} | yes
0 1 | {"range":{"x":[0,1]}} | {"live":["sb"],"range":{"x":[1,1]}} | no
0 1 | "never" | {"live":["sb"],"range":{"x":[1,1]}} | yes
0 1 | {"live":["sb"],"range":{"x":[1,1]}} | "never" | no
0 1 | "never" | "never" | yes
# Who holds a mutex isn't among those who don't.
0 1 | {"held":{"m":1}} | {} | no
0 1 | {"held":{"r":2}} | {"held":{"r":1}} | no
0 1 | {"dead":["m"]} | {} | yes
"#,
    },
];
