// A call that ends stays in order; nothing runs.
ghost use Rattle.call_actions.specs.EndsInOrder.Laws.{EndsStayInOrder};

/// Once a call has ended and its attempts are cut off, its marks name attempts of it, no attempt has a number above how many were made, and no further one is made
/// (gRFC A6, "When Retries are Valid").
pub fn ends_stay_in_order()
    ensures { EndsStayInOrder }
{}
