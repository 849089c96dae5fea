// What steps lead to.
use crate::table::Table;

pub const TABLES: [Table; 1] = [
    // Steps by each row of the table of steps, and choices by which there is no step. Line 0 of task t is the case's; next is line 1,
    // and else is line 2.
    Table {
        app: r#"variable = [
  {name="x", lo=0, hi=9, init=3, owner="t"},
  {name="y", lo=0, hi=9, init=3, owner="t"},
]
object = [
  {name="m", kind="mutex", live=true},
  {name="r", kind="recursive", live=true},
  {name="b", kind="binary", live=true},
  {name="c", kind="counting", size=3, first=1, live=true},
  {name="q", kind="queue", size=2, lo=0, hi=5, live=true},
  {name="s", kind="stream", size=8, live=true},
  {name="g", kind="message", size=8, live=true},
  {name="d", kind="mutex", live=false},
]
actor = [
  {name="t", kind="task", code=["?", "goto 0", "goto 0"]},
  {name="u", kind="task", code=["vTaskDelay(1)", "goto 0"]},
  {name="i", kind="interrupt", code=["xSemaphoreTakeFromISR(b) else 3", "taskENTER_CRITICAL_FROM_ISR()", "taskEXIT_CRITICAL_FROM_ISR()", "return"]},
]
"#,
        certificate: "",
        cases: r#"# A set.
set x = x + 4 | start | t 0 | actor t 1 before; value x 7
set x = y - 3 | value y 8 | t 0 | actor t 1 before; value x 5; value y 8
set x = x * 2 | value x 4 | t 0 | actor t 1 before; value x 8
set x = 0 | start | t 1 | no step
# The step is there, but it breaches rule 12.
set x = x + 7 | start | t 0 | out of range
set x = x - 4 | start | t 0 | out of range

# An if: where the comparison is true to the target, else to the next line.
if x < 4 goto 2 | start | t 0 | actor t 2 before
if x < 3 goto 2 | start | t 0 | actor t 1 before
if x <= 3 goto 2 | start | t 0 | actor t 2 before
if x <= 2 goto 2 | start | t 0 | actor t 1 before
if x > y goto 2 | value y 2 | t 0 | actor t 2 before; value y 2
if x > y goto 2 | start | t 0 | actor t 1 before
if x >= y goto 2 | start | t 0 | actor t 2 before
if x >= y goto 2 | value x 2 | t 0 | actor t 1 before; value x 2
if x == y goto 2 | start | t 0 | actor t 2 before
if x == y goto 2 | value y 4 | t 0 | actor t 1 before; value y 4
if x != y goto 2 | value y 4 | t 0 | actor t 2 before; value y 4
if x != y goto 2 | start | t 0 | actor t 1 before
if x != y goto 2 | start | t 1 | no step

goto 2 | start | t 0 | actor t 2 before
goto 2 | start | t 2 | no step

# A pick: each number from its lower to its upper bound.
pick x 1 5 | start | t 1 | actor t 1 before; value x 1
pick x 1 5 | start | t 3 | actor t 1 before
pick x 1 5 | start | t 5 | actor t 1 before; value x 5
pick x 1 5 | start | t 0 | no step
pick x 1 5 | start | t 6 | no step

# A return: of an interrupt to its line 0, outside the critical section.
goto 1 | actor i 3 before | i 0 | start
goto 1 | actor i 3 before; critical i 1 | i 0 | no step
return | start | t 0 | no step

# Into a critical section, where no other actor is in it.
taskENTER_CRITICAL() | start | t 0 | actor t 1 before; critical t 1
taskENTER_CRITICAL() | critical t 1 | t 0 | actor t 1 before; critical t 2
taskENTER_CRITICAL() | critical u 1 | t 0 | no step
taskENTER_CRITICAL() | start | t 1 | no step
goto 1 | actor i 1 before | i 0 | actor i 2 before; critical i 1
goto 1 | actor i 1 before; critical t 1 | i 0 | no step
# A run takes no step of an actor that is in it more than 255 deep.
taskENTER_CRITICAL() | critical t 255 | t 0 | actor t 1 before; critical t 256
taskENTER_CRITICAL() | critical t 256 | t 0 | too deep

# Out of it.
taskEXIT_CRITICAL() | critical t 2 | t 0 | actor t 1 before; critical t 1
taskEXIT_CRITICAL() | critical t 1 | t 0 | actor t 1 before
taskEXIT_CRITICAL() | start | t 0 | no step
taskEXIT_CRITICAL() | critical u 1 | t 0 | no step
goto 1 | actor i 2 before; critical i 1 | i 0 | actor i 3 before

# The scheduler is suspended and resumed: by each actor for itself.
vTaskSuspendAll() | start | t 0 | actor t 1 before; suspended t 1
vTaskSuspendAll() | suspended t 2; suspended u 1 | t 0 | actor t 1 before; suspended t 3; suspended u 1
xTaskResumeAll() | suspended t 2 | t 0 | actor t 1 before; suspended t 1
xTaskResumeAll() | suspended t 1 | t 0 | actor t 1 before
xTaskResumeAll() | suspended u 1 | t 0 | no step

# Yield and delay change nothing.
taskYIELD() | start | t 0 | actor t 1 before
vTaskDelay(10) | start | t 0 | actor t 1 before
vTaskDelay(10) | critical u 1; suspended u 1 | t 0 | actor t 1 before; critical u 1; suspended u 1
vTaskDelay(10) | critical t 1 | t 0 | no step
vTaskDelay(10) | suspended t 1 | t 0 | no step
vTaskDelay(10) | actor u 1 before | u 0 | start

# The end of a task.
vTaskDelete(NULL) | start | t 0 | actor t done
vTaskDelete(NULL) | object m held u 1 | t 0 | actor t done; object m held u 1
vTaskDelete(NULL) | object m held t 1 | t 0 | no step
goto 2 | actor t done | t 0 | no step
goto 2 | actor t done | u 0 | actor t done; actor u 1 before

# A create of an object that isn't live: it works, or it fails.
xSemaphoreCreateMutex(d) else 2 | start | t 1 | actor t 1 before; object d free
xSemaphoreCreateMutex(d) else 2 | start | t 0 | actor t 2 before
xSemaphoreCreateMutex(d) | start | t 0 | actor t 1 before
xSemaphoreCreateMutex(d) else 2 | start | t 2 | no step
xSemaphoreCreateMutex(d) else 2 | object d free | t 1 | no step
xSemaphoreCreateMutex(d) else 2 | object d free | t 0 | no step
# What is created is new, as these are at the start.
xSemaphoreCreateRecursiveMutex(r) | object r dead | t 1 | actor t 1 before
xSemaphoreCreateBinary(b) | object b dead | t 1 | actor t 1 before
xSemaphoreCreateCounting(c) | object c dead | t 1 | actor t 1 before
xQueueCreate(q) | object q dead | t 1 | actor t 1 before
xStreamBufferCreate(s) | object s dead | t 1 | actor t 1 before
xMessageBufferCreate(g) | object g dead | t 1 | actor t 1 before
xMessageBufferCreate(g) | object g dead | t 0 | actor t 1 before; object g dead

# A delete of an object that is live.
vSemaphoreDelete(m) | object m held u 1 | t 0 | actor t 1 before; object m dead
vSemaphoreDelete(c) | start | t 0 | actor t 1 before; object c dead
vQueueDelete(q) | object q values 4 5 | t 0 | actor t 1 before; object q dead
vStreamBufferDelete(s) | object s bytes 3 | t 0 | actor t 1 before; object s dead
vMessageBufferDelete(g) | object g messages 4 2 | t 0 | actor t 1 before; object g dead
vSemaphoreDelete(d) | start | t 0 | no step

# The begin of a call of two steps.
xSemaphoreTake(m, 10) else 2 | start | t 0 | actor t 0 inside
xSemaphoreTake(m, 10) else 2 | object m held u 1 | t 0 | actor t 0 inside; object m held u 1
xSemaphoreTake(m, 10) else 2 | start | t 1 | no step
xSemaphoreTake(m, 10) else 2 | object m dead | t 0 | no step
xSemaphoreTake(r, 10) else 2 | start | t 0 | no step
xSemaphoreGive(m) | start | t 0 | no step
xSemaphoreGive(m) | object m held t 1 | t 0 | actor t 0 inside; object m held t 1

# A take of a mutex works where it is free, and fails where its block time has an end.
xSemaphoreTake(m, 10) else 2 | actor t 0 inside | t 1 | actor t 1 before; object m held t 1
xSemaphoreTake(m, 10) else 2 | actor t 0 inside; object m held u 1 | t 1 | no step
xSemaphoreTake(m, 10) else 2 | actor t 0 inside; object m held t 1 | t 1 | no step
xSemaphoreTake(m, 10) else 2 | actor t 0 inside | t 0 | actor t 2 before
xSemaphoreTake(m, 10) | actor t 0 inside | t 0 | actor t 1 before
xSemaphoreTake(m, 10) else 2 | actor t 0 inside | t 2 | no step
xSemaphoreTake(m, portMAX_DELAY) | actor t 0 inside | t 0 | no step
xSemaphoreTake(m, portMAX_DELAY) | actor t 0 inside | t 1 | actor t 1 before; object m held t 1
xSemaphoreTake(d, 10) | actor t 0 inside | t 0 | no step

# A recursive take.
xSemaphoreTakeRecursive(r, 10) else 2 | actor t 0 inside | t 1 | actor t 1 before; object r held t 1
xSemaphoreTakeRecursive(r, 10) else 2 | actor t 0 inside; object r held t 2 | t 1 | actor t 1 before; object r held t 3
xSemaphoreTakeRecursive(r, 10) else 2 | actor t 0 inside; object r held u 1 | t 1 | no step
xSemaphoreTakeRecursive(r, 10) else 2 | actor t 0 inside; object r held u 1 | t 0 | actor t 2 before; object r held u 1
xSemaphoreTakeRecursive(r, 10) else 2 | actor t 0 inside; object r held t 256 | t 1 | too deep
xSemaphoreTakeRecursive(m, 10) else 2 | actor t 0 inside | t 1 | no step

# A take of a semaphore.
xSemaphoreTake(b, 0) else 2 | actor t 0 inside; object b count 1 | t 1 | actor t 1 before
xSemaphoreTake(b, 0) else 2 | actor t 0 inside | t 1 | no step
xSemaphoreTake(b, 0) else 2 | actor t 0 inside; object b count 1 | t 0 | actor t 2 before; object b count 1
xSemaphoreTake(c, 0) else 2 | actor t 0 inside | t 1 | actor t 1 before; object c count 0
xSemaphoreTake(c, 0) else 2 | actor t 0 inside; object c count 3 | t 1 | actor t 1 before; object c count 2
xSemaphoreTake(c, 0) else 2 | actor t 0 inside; object c count 0 | t 1 | no step
goto 1 | actor i 0 inside; object b count 1 | i 1 | actor i 1 before
goto 1 | actor i 0 inside; object b count 1 | i 0 | actor i 3 before; object b count 1

# A give of a mutex always works.
xSemaphoreGive(m) | actor t 0 inside; object m held t 1 | t 1 | actor t 1 before
xSemaphoreGive(m) | actor t 0 inside; object m held t 1 | t 0 | no step
xSemaphoreGive(m) | actor t 0 inside; object m held u 1 | t 1 | no step
xSemaphoreGive(m) | actor t 0 inside | t 1 | no step
xSemaphoreGiveRecursive(r) | actor t 0 inside; object r held t 2 | t 1 | actor t 1 before; object r held t 1
xSemaphoreGiveRecursive(r) | actor t 0 inside; object r held t 1 | t 1 | actor t 1 before
xSemaphoreGiveRecursive(r) | actor t 0 inside; object r held t 1 | t 0 | no step

# A give of a semaphore works below its greatest number, and fails there.
xSemaphoreGive(b) else 2 | actor t 0 inside | t 1 | actor t 1 before; object b count 1
xSemaphoreGive(b) else 2 | actor t 0 inside | t 0 | no step
xSemaphoreGive(b) else 2 | actor t 0 inside; object b count 1 | t 1 | no step
xSemaphoreGive(b) else 2 | actor t 0 inside; object b count 1 | t 0 | actor t 2 before; object b count 1
xSemaphoreGive(c) else 2 | actor t 0 inside; object c count 2 | t 1 | actor t 1 before; object c count 3
xSemaphoreGive(c) else 2 | actor t 0 inside; object c count 2 | t 0 | no step
xSemaphoreGive(c) else 2 | actor t 0 inside; object c count 3 | t 1 | no step
xSemaphoreGive(c) else 2 | actor t 0 inside; object c count 3 | t 0 | actor t 2 before; object c count 3

# A queue send: the value now is put last.
xQueueSend(q, x, 10) else 2 | actor t 0 inside; object q values 5 | t 1 | actor t 1 before; object q values 5 3
xQueueSend(q, 0, 10) else 2 | actor t 0 inside | t 1 | actor t 1 before; object q values 0
xQueueSend(q, x, 10) else 2 | actor t 0 inside; object q values 4 5 | t 1 | no step
xQueueSend(q, x, 10) else 2 | actor t 0 inside; object q values 4 5 | t 0 | actor t 2 before; object q values 4 5
xQueueSend(q, x, 10) else 2 | actor t 0 inside | t 0 | actor t 2 before
xQueueSend(q, x, portMAX_DELAY) | actor t 0 inside; object q values 4 5 | t 0 | no step
xQueueSend(q, x, 10) else 2 | actor t 0 inside; value x 6 | t 1 | out of range

# A queue receive: the first value goes to the variable.
xQueueReceive(q, x, 10) else 2 | actor t 0 inside; object q values 4 5 | t 1 | actor t 1 before; value x 4; object q values 5
xQueueReceive(q, x, 10) else 2 | actor t 0 inside; object q values 3 | t 1 | actor t 1 before
xQueueReceive(q, x, 10) else 2 | actor t 0 inside | t 1 | no step
xQueueReceive(q, x, 10) else 2 | actor t 0 inside; object q values 4 5 | t 0 | actor t 2 before; object q values 4 5
xQueueReceive(q, x, portMAX_DELAY) | actor t 0 inside; object q values 4 | t 0 | no step

# A stream send: as many bytes as are free, at most its length, or fewer.
x = xStreamBufferSend(s, 4, 10) | actor t 0 inside | t 4 | actor t 1 before; value x 4; object s bytes 4
x = xStreamBufferSend(s, 4, 10) | actor t 0 inside | t 5 | no step
x = xStreamBufferSend(s, 4, 10) | actor t 0 inside; object s bytes 5 | t 2 | actor t 1 before; value x 2; object s bytes 7
x = xStreamBufferSend(s, 4, 10) | actor t 0 inside; object s bytes 5 | t 3 | actor t 1 before; object s bytes 8
x = xStreamBufferSend(s, 4, 10) | actor t 0 inside; object s bytes 5 | t 4 | no step
x = xStreamBufferSend(s, 4, portMAX_DELAY) | actor t 0 inside | t 0 | actor t 1 before; value x 0
x = xStreamBufferSend(s, 4, 10) | actor t 0 inside | t -1 | no step
xStreamBufferSend(s, 4, 10) | actor t 0 inside | t 4 | actor t 1 before; object s bytes 4

# A stream receive: as many bytes as there are, at most its length, or fewer.
x = xStreamBufferReceive(s, 4, 10) | actor t 0 inside; object s bytes 8 | t 4 | actor t 1 before; value x 4; object s bytes 4
x = xStreamBufferReceive(s, 4, 10) | actor t 0 inside; object s bytes 8 | t 5 | no step
x = xStreamBufferReceive(s, 4, 10) | actor t 0 inside; object s bytes 2 | t 1 | actor t 1 before; value x 1; object s bytes 1
x = xStreamBufferReceive(s, 4, 10) | actor t 0 inside; object s bytes 2 | t 3 | no step
x = xStreamBufferReceive(s, 4, portMAX_DELAY) | actor t 0 inside | t 0 | actor t 1 before; value x 0

# A message send: the whole message or nothing.
x = xMessageBufferSend(g, 4, 10) | actor t 0 inside; object g messages 2 | t 4 | actor t 1 before; value x 4; object g messages 2 4
x = xMessageBufferSend(g, 4, 10) | actor t 0 inside; object g messages 4 | t 4 | actor t 1 before; value x 4; object g messages 4 4
x = xMessageBufferSend(g, 4, 10) | actor t 0 inside; object g messages 2 3 | t 4 | no step
x = xMessageBufferSend(g, 4, 10) | actor t 0 inside; object g messages 2 | t 0 | actor t 1 before; value x 0; object g messages 2
x = xMessageBufferSend(g, 4, 10) | actor t 0 inside | t 3 | no step

# A message receive: the whole first message or nothing.
x = xMessageBufferReceive(g, 4, 10) | actor t 0 inside; object g messages 4 2 | t 4 | actor t 1 before; value x 4; object g messages 2
x = xMessageBufferReceive(g, 4, 10) | actor t 0 inside; object g messages 3 | t 3 | actor t 1 before
x = xMessageBufferReceive(g, 4, 10) | actor t 0 inside; object g messages 4 2 | t 2 | no step
x = xMessageBufferReceive(g, 4, 10) | actor t 0 inside; object g messages 5 2 | t 5 | no step
x = xMessageBufferReceive(g, 4, 10) | actor t 0 inside; object g messages 5 2 | t 0 | actor t 1 before; value x 0; object g messages 5 2
x = xMessageBufferReceive(g, 4, 10) | actor t 0 inside | t 4 | no step

# A reset: the buffer is emptied, or it fails.
xStreamBufferReset(s) else 2 | actor t 0 inside; object s bytes 3 | t 1 | actor t 1 before
xStreamBufferReset(s) else 2 | actor t 0 inside; object s bytes 3 | t 0 | actor t 2 before; object s bytes 3
xMessageBufferReset(g) else 2 | actor t 0 inside; object g messages 4 2 | t 1 | actor t 1 before
xMessageBufferReset(g) else 2 | actor t 0 inside; object g messages 4 2 | t 0 | actor t 2 before; object g messages 4 2
"#,
    },
];
