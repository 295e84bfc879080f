// Laws about the characters of a source, and about the parts of its operands.
ghost use Rattle.sps_pass_two.specs.PartNames.{PartsLaw};
ghost use Rattle.sps_pass_two.specs.SourceCharacters.{AllowedLaw, OrderLaw};

/// A source may have each character with a pair of digits on cards, except `]`, `}` and `|`; `sps_scan` has them in the order of
/// their pairs.
///
/// The call does nothing; the law is its contract.
/// Source: SPS manual, character set; that `]`, `}` and `|` are left out is this project's own.
pub fn characters_law()
    ensures allowed { AllowedLaw }
    ensures order { OrderLaw }
{}

/// The operation determines the parts of operands: all names of one operation give equal parts, and so do all texts that name no
/// operation.
///
/// The call does nothing; the law is its contract.
/// Source: SPS manual, coding sheet and declarative operations.
pub fn parts_law()
    ensures { PartsLaw }
{}
