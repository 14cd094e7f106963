//! The laws that `order` rests on.
ghost use Rattle.serial_order.specs.Combining.{TreesAreSerial};
ghost use Rattle.serial_order.specs.Laws.{OrdersExplain, OrdersKeepRealTime};

/// Combining keeps the order of arrival for each word, and a split reply is what the tree's references would have
/// got in turn.
pub fn trees_are_serial()
    ensures { TreesAreSerial }
{}

/// The requests to each word always have a serial order: the one in which its module served them, where each combined
/// request stands for the references in it.
pub fn orders_explain()
    ensures { OrdersExplain }
{}

/// The order of the references to a word keeps real time: a reference that was answered by the cycle in which another was
/// issued stands before that one, whatever processors and networks they are of. So each word is linearizable.
pub fn orders_keep_real_time()
    ensures { OrdersKeepRealTime }
{}
