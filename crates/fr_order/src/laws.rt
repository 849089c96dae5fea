// What is proved of orders, for every application and every certificate. The law is a function that does nothing: it is there for
// its contract.
ghost use Rattle.fr_order.specs.Order.{OrderExcludesDeadlock};

use fr_judge::certified_is_safe;

/// Where each edge of a certified application goes upwards in some list of its mutexes, no state of any run is deadlocked: no
/// actors wait for one another in a cycle over mutexes.
pub fn an_order_excludes_deadlock()
    ensures { OrderExcludesDeadlock }
{
    certified_is_safe();
}
