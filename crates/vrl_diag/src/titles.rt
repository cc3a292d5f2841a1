ghost use Rattle.std.specs.Prelude.{◌≡◌, ◌↔◌, ◌==◌, find, map, option_map};
ghost use Rattle.std.specs.Option.{option_copied};
ghost use Rattle.vrl_diag.specs.Codes.{row_of, rows as table, title_of};
ghost use Rattle.vrl_diag.specs.Refusal.{severity_of};
ghost use Rattle.vrl_diag.specs.Table.{row_in};

use crate::code;
use crate::diagnostic::Severity;

// What is known of a code.
struct Row {
    code: u16,
    title: &'static str,
}

// The codes, in ascending order.
static ROWS: [Row; 35] = [
    Row {
        code: code::UNHANDLED_ERROR,
        title: "unhandled error",
    },
    Row {
        code: code::MALFORMED_REGEX,
        title: "malformed regex literal",
    },
    Row {
        code: code::NON_BOOLEAN_PREDICATE,
        title: "non-boolean predicate",
    },
    Row {
        code: code::UNHANDLED_FALLIBLE_ASSIGNMENT,
        title: "unhandled fallible assignment",
    },
    Row {
        code: code::UNNECESSARY_ERROR_ASSIGNMENT,
        title: "unnecessary error assignment",
    },
    Row {
        code: code::UNDEFINED_FUNCTION,
        title: "undefined function",
    },
    Row {
        code: code::WRONG_NUMBER_OF_ARGUMENTS,
        title: "wrong number of arguments",
    },
    Row {
        code: code::MISSING_ARGUMENT,
        title: "missing argument",
    },
    Row {
        code: code::UNKNOWN_ARGUMENT_NAME,
        title: "unknown argument name",
    },
    Row {
        code: code::INVALID_ARGUMENT_TYPE,
        title: "invalid argument type",
    },
    Row {
        code: code::UNRECOGNIZED_TOKEN,
        title: "unrecognized token",
    },
    Row {
        code: code::ABORTING_INFALLIBLE_FUNCTION,
        title: "aborting infallible function",
    },
    Row {
        code: code::FALLIBLE_ARGUMENT,
        title: "fallible argument",
    },
    Row {
        code: code::NO_OP_ASSIGNMENT,
        title: "no-op assignment",
    },
    Row {
        code: code::CHAINED_COMPARISON,
        title: "chained comparison",
    },
    Row {
        code: code::UNNECESSARY_ERROR_COALESCING,
        title: "unnecessary error coalescing",
    },
    Row {
        code: code::MERGE_OF_NON_OBJECT,
        title: "merge of a non-object",
    },
    Row {
        code: code::NEGATION_OF_NON_BOOLEAN,
        title: "negation of a non-boolean",
    },
    Row {
        code: code::UNDEFINED_VARIABLE,
        title: "undefined variable",
    },
    Row {
        code: code::FLOAT_LITERAL,
        title: "float literal",
    },
    Row {
        code: code::NUMBER_OUT_OF_RANGE,
        title: "number out of range",
    },
    Row {
        code: code::OPERATOR_LEFT_OUT,
        title: "operator left out",
    },
    Row {
        code: code::RETURN_IN_CLOSURE,
        title: "return in a closure",
    },
    Row {
        code: code::FALLIBLE_PREDICATE,
        title: "fallible predicate",
    },
    Row {
        code: code::EVENT_ASSIGNED_NO_CONTAINER,
        title: "event assigned neither an object nor an array",
    },
    Row {
        code: code::NESTED_TOO_DEEPLY,
        title: "nested too deeply",
    },
    Row {
        code: code::SCRIPT_TOO_LONG_OR_NOT_UTF8,
        title: "script too long or not UTF-8",
    },
    Row {
        code: code::WRONG_CLOSURE,
        title: "closure missing, unexpected or of the wrong shape",
    },
    Row {
        code: code::WRONG_ABORT_MESSAGE,
        title: "abort message fallible or not a string",
    },
    Row {
        code: code::WRITTEN_PATH_TOO_LARGE,
        title: "written or deleted index too large or path too long",
    },
    Row {
        code: code::LITERAL_OR_PATH_WANTED,
        title: "literal or path argument wanted",
    },
    Row {
        code: code::MALFORMED_TIMESTAMP,
        title: "malformed timestamp literal",
    },
    Row {
        code: code::WRONG_CLOSURE_RESULT,
        title: "closure result of the wrong kind",
    },
    Row {
        code: code::TEMPLATE_OR_TOO_MANY_REGEXES,
        title: "malformed template or too many regex literals",
    },
    Row {
        code: code::METADATA_ASSIGNED_NO_OBJECT,
        title: "metadata assigned no object",
    },
];

/// Whether a diagnostic with this code refuses the script: 651 is a warning, and each other number
/// an error. It takes no memory.
pub fn severity(code: u16) -> Severity
    ensures table { result ≡ severity_of code }
    ensures warning { (result ≡ Severity.Warning) ↔ (code ≡ 651) }
{
    if code == code::UNNECESSARY_ERROR_COALESCING {
        return Severity::Warning;
    }
    Severity::Error
}

/// The text of a code, which is empty for a number that is no code. It takes no memory.
pub fn title(code: u16) -> &'static str
    ensures { result.now ≡ title_of code }
{
    match find_row(code) {
        Some(row) => row.title,
        None => "",
    }
}

// The row of a code. None: the number is no code.
fn find_row(code: u16) -> Option<&'static Row>
    ensures { option_map row_in (option_copied result) ≡ row_of code }
{
    find_in(rows(), code)
}

// The first row with this code.
fn find_in(rows: &'static [Row], code: u16) -> Option<&'static Row>
    ensures { option_copied result ≡ find (λ row. row.code == code) rows.now }
{
    rows.iter().find(|row| row.code == code)
}

// All rows.
fn rows() -> &'static [Row]
    ensures { map row_in result.now ≡ table }
{
    &ROWS
}
