//! The codes of diagnostics, by name. Those below 1000 are those of the error reference of the
//! Vector Remap Language (vector.dev/docs/reference/vrl/errors); the others are this compiler's
//! own.

/// unhandled error
pub const UNHANDLED_ERROR: u16 = 100;
/// malformed regex literal
pub const MALFORMED_REGEX: u16 = 101;
/// non-boolean predicate
pub const NON_BOOLEAN_PREDICATE: u16 = 102;
/// unhandled fallible assignment
pub const UNHANDLED_FALLIBLE_ASSIGNMENT: u16 = 103;
/// unnecessary error assignment
pub const UNNECESSARY_ERROR_ASSIGNMENT: u16 = 104;
/// undefined function
pub const UNDEFINED_FUNCTION: u16 = 105;
/// wrong number of arguments
pub const WRONG_NUMBER_OF_ARGUMENTS: u16 = 106;
/// missing argument
pub const MISSING_ARGUMENT: u16 = 107;
/// unknown argument name
pub const UNKNOWN_ARGUMENT_NAME: u16 = 108;
/// invalid argument type
pub const INVALID_ARGUMENT_TYPE: u16 = 110;
/// unrecognized token
pub const UNRECOGNIZED_TOKEN: u16 = 203;
/// aborting infallible function
pub const ABORTING_INFALLIBLE_FUNCTION: u16 = 620;
/// fallible argument
pub const FALLIBLE_ARGUMENT: u16 = 630;
/// no-op assignment
pub const NO_OP_ASSIGNMENT: u16 = 640;
/// chained comparison
pub const CHAINED_COMPARISON: u16 = 650;
/// unnecessary error coalescing
pub const UNNECESSARY_ERROR_COALESCING: u16 = 651;
/// merge of a non-object
pub const MERGE_OF_NON_OBJECT: u16 = 652;
/// negation of a non-boolean
pub const NEGATION_OF_NON_BOOLEAN: u16 = 660;
/// undefined variable
pub const UNDEFINED_VARIABLE: u16 = 701;
/// float literal
pub const FLOAT_LITERAL: u16 = 1001;
/// number out of range
pub const NUMBER_OUT_OF_RANGE: u16 = 1002;
/// operator left out
pub const OPERATOR_LEFT_OUT: u16 = 1003;
/// return in a closure
pub const RETURN_IN_CLOSURE: u16 = 1004;
/// fallible predicate
pub const FALLIBLE_PREDICATE: u16 = 1005;
/// event assigned neither an object nor an array
pub const EVENT_ASSIGNED_NO_CONTAINER: u16 = 1006;
/// nested too deeply
pub const NESTED_TOO_DEEPLY: u16 = 1008;
/// script too long or not UTF-8
pub const SCRIPT_TOO_LONG_OR_NOT_UTF8: u16 = 1009;
/// closure missing, unexpected or of the wrong shape
pub const WRONG_CLOSURE: u16 = 1010;
/// abort message fallible or not a string
pub const WRONG_ABORT_MESSAGE: u16 = 1011;
/// written or deleted index too large or path too long
pub const WRITTEN_PATH_TOO_LARGE: u16 = 1012;
/// literal or path argument wanted
pub const LITERAL_OR_PATH_WANTED: u16 = 1013;
/// malformed timestamp literal
pub const MALFORMED_TIMESTAMP: u16 = 1014;
/// closure result of the wrong kind
pub const WRONG_CLOSURE_RESULT: u16 = 1015;
/// malformed template or too many regex literals
pub const TEMPLATE_OR_TOO_MANY_REGEXES: u16 = 1016;
/// metadata assigned no object
pub const METADATA_ASSIGNED_NO_OBJECT: u16 = 1017;
