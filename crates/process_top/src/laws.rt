// The law of printed lists: the function says it, and does nothing.
ghost use Rattle.process_top.specs.Values.{ListsAreOfValues};

use value_rules::{order_is_of_real_time, serial_lists_keep_values};

/// The list that is printed of a history which a journal may have, executed on empty books, leaves the values of the completed
/// history, where its catalog names each conflict in value; and it is in an order of real time.
pub fn printed_lists_keep_values()
    ensures { ListsAreOfValues }
{
    serial_lists_keep_values();
    order_is_of_real_time();
}
