//! The values of a command's operands and options.
ghost use Rattle.std.specs.Prelude.{◌≡◌, map, option_map};
ghost use Rattle.clap.specs.Words.{all_of, first_of, found_of, rows_of};
ghost use Rattle.jcard_arguments.specs.CommandLine.{is_given, text_of};

use clap::ArgMatches;

/// The value of an operand or an option, if it is given.
pub(crate) fn value_of<'a>(values: &ArgMatches<'a>, name: &str) -> Option<&'a str>
    ensures { text_of result ≡ first_of name.now (rows_of (found_of values.now)) }
{
    values.get_str(name)
}

/// All values of an operand, if it is given.
pub(crate) fn values_of<'m, 'a>(values: &'m ArgMatches<'a>, name: &str) -> Option<&'m [&'a str]>
    ensures { option_map (λ s. map (λ v. v.now) s.now) result
        ≡ all_of name.now (rows_of (found_of values.now)) }
{
    values.get_strs(name)
}

/// Whether a flag is given.
pub(crate) fn is_given(values: &ArgMatches<'_>, name: &str) -> bool
    ensures { result ≡ is_given (first_of name.now (rows_of (found_of values.now))) }
{
    match value_of(values, name) {
        Some(value) => value == "true",
        None => false,
    }
}
