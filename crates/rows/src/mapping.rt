// What a list with distinct numbers means: the function stands for the theorem of its contract.
ghost use Rattle.rows.specs.Mapping.{MeansMap};

/// A list with distinct numbers is a map: what is found after an insertion, a removal and a change, at the number itself and at
/// every other.
pub fn distinct_rows_map<P: Copy>()
    ensures { MeansMap P }
{}
