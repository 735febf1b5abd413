//! Laws of the definitions, for whatever is done by effects that keep the order of transactions.
ghost use Rattle.law_code.specs.TransactionLaws.{CodeIsOrderly, StaysSameButSet, TransactionsAreAtomic};

/// For all that is done by orderly effects: wherever a loss of power falls within it, or an abort comes, the
/// heap that stays is the one that the open transaction found, but for tries of PINs and elements of arrays of bytes
/// that were set for good before it changed their words itself; where none is open it is the heap as it is.
pub fn what_a_transaction_found_stays<A>()
    ensures { TransactionsAreAtomic A }
{}

/// That heap and the one that the transaction found have the same text, packages, applets and ends, and at each
/// address the same thing stands, but for the cells that were set for good.
pub fn heaps_after_a_loss_differ_in_what_was_set_for_good()
    ensures { StaysSameButSet }
{}

/// Whatever a step or a run of code does, it sets nothing for good but the counter of a PIN's tries and elements of persistent
/// arrays of bytes, begins a transaction where none is open, and ends one where one is.
pub fn code_keeps_the_order_of_transactions()
    ensures { CodeIsOrderly }
{}
