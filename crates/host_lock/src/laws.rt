//! The law of a shared host: the journal keeps the order in time that moments tell.

ghost use Rattle.host_lock.specs.Answers.{CallsInOrder};

/// If a session learned the moment after a call before it made its own call, the first call's entry comes first in the
/// journal.
///
/// A session makes a call. The moment after it is given to another session, in any thread, which learns it and makes a
/// call, at once or later. Both calls have an entry. Then the journal that `close` returns has the first call's entry
/// before the second one's. The law says nothing of calls that no moment connects, even if one returned before the other
/// began. The premises are clauses of `call`, `moment`, `learn` and `close`.
pub fn calls_in_order()
    ensures { CallsInOrder }
{}
