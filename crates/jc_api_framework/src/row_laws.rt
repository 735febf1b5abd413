//! Arguments of API calls are read by the rows of their methods.

ghost use Rattle.jc_api_framework.specs.RowLaws.{AreReadByRows};

/// Law: arguments are read by the rows of methods, in the order in which they are refused. It does nothing.
pub fn arguments_are_read_by_rows()
    ensures { AreReadByRows }
{}
