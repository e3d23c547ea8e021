//! What fitting a written certificate comes to, each law as the contract of a function that does nothing.

ghost use Rattle.cert_fitted.specs.Laws.{DenseComeBack, ListsComeBack, RowsStayTheSame, ValidComeBack, ValidStayTheSame};

/// A list without its zeros stands for the list, where its length is asked for.
pub fn lists_come_back()
    ensures { ListsComeBack }
{}

/// A certificate that is written with all entries of its lists stands for itself; a valid one that is written without zeros does, too,
/// with the system for which it is valid.
pub fn valid_come_back()
    ensures dense { DenseComeBack }
    ensures bare { ValidComeBack }
{}

/// A written certificate stands for the same one without the zeros of its lists, where this one is valid: its rows, where each has the
/// length that is asked for, and the whole of it with their system. So it is accepted as it is upgraded, too.
pub fn valid_stay_the_same()
    ensures rows { RowsStayTheSame }
    ensures cert { ValidStayTheSame }
{}
