// The laws on waiting sets, each the contract of a function without code.

ghost use Rattle.wait_set.specs.Laws.{EntersLast, RisingIsListOfWaiters};

/// An entry whose place is after all others enters a waiting set last.
pub fn enters_last()
    ensures { EntersLast }
{}

/// A list in rising order that names exactly the processes that wait names each of them once.
pub fn rising_is_list_of_waiters()
    ensures { RisingIsListOfWaiters }
{}
