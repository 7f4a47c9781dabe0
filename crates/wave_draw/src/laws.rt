//! The laws about waves in an order. Each function has an empty body: its contract is the law.

ghost use Rattle.wave_draw.specs.Laws.{OrdersTakeInOrder, YesIsDrawnInItsOrder};

/// A list that an order takes from the logs of a trace is what is drawn of the trace in that order: so the time of a
/// record in the wave of a yes is its place in the order of the yes.
pub fn yes_is_drawn_in_its_order()
    ensures takes { OrdersTakeInOrder }
    ensures wave { YesIsDrawnInItsOrder }
{}
