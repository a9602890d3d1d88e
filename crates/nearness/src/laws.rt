//! What holds of all duties. The function does nothing; its clause is a law.
ghost use Rattle.nearness.specs.Laws.{EachHasNearness};

/// All lists of duties have a nearness, so the search for it never comes to nothing.
pub fn each_has_nearness()
    ensures { EachHasNearness }
{}
