// Laws about faults, layouts and symbols.
// Source: SPS manual, labels; all else is this project's own.
ghost use Rattle.sps_pass_one.specs.Laws.{LeastLaw, NoFaultLaw, KnownLaw, MeasureLaw, FirstLabelLaw, NoLabelLaw};

/// The least of some faults is one of them, and no fault comes before it. There is no least fault only if there are no faults.
///
/// The function does nothing; its clauses are the law.
pub fn least_law()
    ensures least { LeastLaw }
    ensures none { NoFaultLaw }
{}

/// The symbols that are known before a statement are the symbols of the source that earlier statements define.
///
/// The function does nothing; its clause is the law.
pub fn known_law()
    ensures { KnownLaw }
{}

/// A statement has the same layout with the symbols of earlier statements alone as with all symbols and the rule on late symbols:
/// both layouts are broken or neither is, and length, count and address are equal.
///
/// The function does nothing; its clause is the law.
pub fn measure_law()
    ensures { MeasureLaw }
{}

/// The value of a symbol is the value of the label of the first statement that defines it. A symbol that no statement defines has no value.
///
/// The function does nothing; its clauses are the law.
pub fn symbol_law()
    ensures first { FirstLabelLaw }
    ensures none { NoLabelLaw }
{}
