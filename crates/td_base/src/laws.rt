//! What holds of every text.
ghost use Rattle.td_base.specs.Laws.{TextsAreMade};

/// Addresses and endpoints that texts are, are made as the types ask, with bytes of 8 bits and ports of 16.
/// See `read_number`: `exact`.
pub fn texts_are_made()
    ensures { TextsAreMade }
{}
