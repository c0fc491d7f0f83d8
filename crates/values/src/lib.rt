// Values at which the definitions can be checked by hand, as one theorem.
#![tactic(auto)]

ghost use Rattle.values.specs.Values.{Values};

/// The definitions give all of these values together.
#[tactic(auto, unfolding(wire::specs::Reading::first_number_of, stores::specs::Xor::xored))]
pub fn values_stand()
    ensures { Values }
{}
