// The lists of an application's index.
use crate::table::Table;

pub const TABLES: [Table; 3] = [
    // The lists of an index: of a mutex its delete, and no other.
    Table {
        app: r#"object = [{name="m", kind="mutex", live=true}]
actor = [
 {name="t", kind="task", code=["xSemaphoreTake(m, portMAX_DELAY)", "xSemaphoreGive(m)", "goto 0"]},
 {name="k", kind="task", code=["vSemaphoreDelete(m)", "vTaskDelete(NULL)"]},
]
"#,
        certificate: "",
        cases: r#"lives 0 | 5
lives 1 | none
leavers | none
writers 0 | none
"#,
    },
    // The lists of an index: a `set` that leaves its variable's declared range.
    Table {
        app: r#"variable = [{name="x", lo=0, hi=1, init=0}]
actor = [{name="t", kind="task", code=["goto 0"]}, {name="u", kind="task", code=["set x = 2", "goto 0"]}]
"#,
        certificate: "",
        cases: r#"writers 0 | 1
writers 1 | none
leavers | 1
lives 0 | none
"#,
    },
    // The lists of an index: what a `set`, a `pick`, a receive, a call that moves bytes, a create and a delete change.
    Table {
        app: r#"variable = [
 {name="x", lo=0, hi=9, init=0},
 {name="y", lo=0, hi=9, init=0},
 {name="z", lo=0, hi=9, init=0, owner="t"},
]
object = [
 {name="q", kind="queue", size=2, lo=0, hi=3, live=false},
 {name="s", kind="stream", size=4, live=true},
]
actor = [
 {name="t", kind="task", code=["set x = 9", "set x = 10", "set x = z + 1", "set x = z - 0", "pick x 0 9", "goto 0"]},
 {name="u", kind="task", code=["xQueueCreate(q) else 0", "xQueueReceive(q, y, 0) else 2", "y = xStreamBufferReceive(s, 4, 0)", "vQueueDelete(q)", "goto 0"]},
]
"#,
        certificate: "",
        cases: r#"writers 0 | 0 1 2 3 4
writers 1 | 8 10
writers 2 | none
lives 0 | 6 11
lives 1 | none
leavers | 1 2
"#,
    },
];
