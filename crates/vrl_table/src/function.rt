ghost use Rattle.std.specs.Prelude.{◌≡◌, ◌≢◌, find, bytes_eq, MatchOption};
ghost use Rattle.vrl_table.specs.Laws.{row-law};
ghost use Rattle.vrl_table.specs.Table.{all_functions, function_named, row_of, uses_memory, FormsAreNoFunctions, FunctionsAreCounted, FunctionsAreFound, ParametersAreToldApart, ResultsArePresent};
ghost use Rattle.vrl_table.specs.declared.function.Fun.{Fun};

use fn_codec::{
    DecodeBase16, DecodeBase64, DecodePercent, Decoded, EncodeBase16, EncodeBase64, EncodePercent,
    Md5, Sha1, Sha2,
};
use fn_list::{Append, Chunks, Compact, Flatten, Includes, Push, Unique, Zip};
use fn_number::{Abs, FormatInt, Mod, ParseInt};
use fn_object::{Get, Keys, Merge, ObjectFromArray, Remove, Set, Tally, Unflatten, Values};
use fn_parse::{
    EncodeJson, EncodeKeyValue, ParseCsv, ParseJson, ParseKeyValue, ParseQueryString, ParseUrl,
};
use fn_search::{Find, Match, MatchAny, ParseRegex, ParseRegexAll, Replace, Split};
use fn_string::{
    Contains, Downcase, EndsWith, Join, Length, Search, Slice, StartsWith, StrLen, StripWhitespace,
    Truncate, Upcase,
};
use fn_time::{FormatTimestamp, FromUnixTimestamp, Now, ParseTimestamp, ToUnixTimestamp};
use fn_type::{
    Array, Bool, Int, Is, IsArray, IsBoolean, IsEmpty, IsInteger, IsNull, IsNullish, IsObject,
    IsRegex, IsString, IsTimestamp, Object, Only, StringValue, Timestamp, ToBool, ToInt, ToString,
};
use std::alloc::Global;
use vrl_builtin::{Applied, Arguments, Builtin, Givens, OfText, Parameter, Setting};
use vrl_kind::Kind;
use vrl_pattern::Patterns;
use vrl_value::{Memory, Value};

/// A function of the language, by its name.
#[derive(Clone, Copy)]
pub enum Fun {
    /// `abs`.
    Abs,
    /// `append`.
    Append,
    /// `array`.
    Array,
    /// `bool`.
    Bool,
    /// `chunks`.
    Chunks,
    /// `compact`.
    Compact,
    /// `contains`.
    Contains,
    /// `decode_base16`.
    DecodeBase16,
    /// `decode_base64`.
    DecodeBase64,
    /// `decode_percent`.
    DecodePercent,
    /// `downcase`.
    Downcase,
    /// `encode_base16`.
    EncodeBase16,
    /// `encode_base64`.
    EncodeBase64,
    /// `encode_json`.
    EncodeJson,
    /// `encode_key_value`.
    EncodeKeyValue,
    /// `encode_percent`.
    EncodePercent,
    /// `ends_with`.
    EndsWith,
    /// `find`.
    Find,
    /// `flatten`.
    Flatten,
    /// `format_int`.
    FormatInt,
    /// `format_timestamp`.
    FormatTimestamp,
    /// `from_unix_timestamp`.
    FromUnixTimestamp,
    /// `get`.
    Get,
    /// `includes`.
    Includes,
    /// `int`.
    Int,
    /// `is_array`.
    IsArray,
    /// `is_boolean`.
    IsBoolean,
    /// `is_empty`.
    IsEmpty,
    /// `is_integer`.
    IsInteger,
    /// `is_null`.
    IsNull,
    /// `is_nullish`.
    IsNullish,
    /// `is_object`.
    IsObject,
    /// `is_regex`.
    IsRegex,
    /// `is_string`.
    IsString,
    /// `is_timestamp`.
    IsTimestamp,
    /// `join`.
    Join,
    /// `keys`.
    Keys,
    /// `length`.
    Length,
    /// `match`.
    Match,
    /// `match_any`.
    MatchAny,
    /// `md5`.
    Md5,
    /// `merge`.
    Merge,
    /// `mod`.
    Mod,
    /// `now`.
    Now,
    /// `object`.
    Object,
    /// `object_from_array`.
    ObjectFromArray,
    /// `parse_csv`.
    ParseCsv,
    /// `parse_int`.
    ParseInt,
    /// `parse_json`.
    ParseJson,
    /// `parse_key_value`.
    ParseKeyValue,
    /// `parse_query_string`.
    ParseQueryString,
    /// `parse_regex`.
    ParseRegex,
    /// `parse_regex_all`.
    ParseRegexAll,
    /// `parse_timestamp`.
    ParseTimestamp,
    /// `parse_url`.
    ParseUrl,
    /// `push`.
    Push,
    /// `remove`.
    Remove,
    /// `replace`.
    Replace,
    /// `set`.
    Set,
    /// `sha1`.
    Sha1,
    /// `sha2`.
    Sha2,
    /// `slice`.
    Slice,
    /// `split`.
    Split,
    /// `starts_with`.
    StartsWith,
    /// `strlen`.
    StrLen,
    /// `string`.
    StringValue,
    /// `strip_whitespace`.
    StripWhitespace,
    /// `tally`.
    Tally,
    /// `timestamp`.
    Timestamp,
    /// `to_bool`.
    ToBool,
    /// `to_int`.
    ToInt,
    /// `to_string`.
    ToString,
    /// `to_unix_timestamp`.
    ToUnixTimestamp,
    /// `truncate`.
    Truncate,
    /// `unflatten`.
    Unflatten,
    /// `unique`.
    Unique,
    /// `upcase`.
    Upcase,
    /// `values`.
    Values,
    /// `zip`.
    Zip,
}

// All functions, each with its variant and what has its row: a call of a method of one of them, or
// a list of all.
macro_rules! functions {
    (@call $fun:expr, $method:ident $arguments:tt; $($name:ident => $function:expr,)*) => {
        match $fun {
            $(Fun::$name => $function.$method $arguments,)*
        }
    };
    (@all; $($name:ident => $function:expr,)*) => {
        [$(Fun::$name),*]
    };
    ($($what:tt)*) => {
        functions!(@$($what)*;
            Abs => Abs,
            Append => Append,
            Array => Only(Array),
            Bool => Only(Bool),
            Chunks => Chunks,
            Compact => Compact,
            Contains => Search(Contains),
            DecodeBase16 => Decoded(DecodeBase16),
            DecodeBase64 => Decoded(DecodeBase64),
            DecodePercent => OfText(DecodePercent),
            Downcase => OfText(Downcase),
            EncodeBase16 => OfText(EncodeBase16),
            EncodeBase64 => OfText(EncodeBase64),
            EncodeJson => EncodeJson,
            EncodeKeyValue => EncodeKeyValue,
            EncodePercent => OfText(EncodePercent),
            EndsWith => Search(EndsWith),
            Find => Find,
            Flatten => Flatten,
            FormatInt => FormatInt,
            FormatTimestamp => FormatTimestamp,
            FromUnixTimestamp => FromUnixTimestamp,
            Get => Get,
            Includes => Includes,
            Int => Only(Int),
            IsArray => Is(IsArray),
            IsBoolean => Is(IsBoolean),
            IsEmpty => IsEmpty,
            IsInteger => Is(IsInteger),
            IsNull => Is(IsNull),
            IsNullish => IsNullish,
            IsObject => Is(IsObject),
            IsRegex => Is(IsRegex),
            IsString => Is(IsString),
            IsTimestamp => Is(IsTimestamp),
            Join => Join,
            Keys => Keys,
            Length => Length,
            Match => Match,
            MatchAny => MatchAny,
            Md5 => OfText(Md5),
            Merge => Merge,
            Mod => Mod,
            Now => Now,
            Object => Only(Object),
            ObjectFromArray => ObjectFromArray,
            ParseCsv => ParseCsv,
            ParseInt => ParseInt,
            ParseJson => ParseJson,
            ParseKeyValue => ParseKeyValue,
            ParseQueryString => ParseQueryString,
            ParseRegex => ParseRegex,
            ParseRegexAll => ParseRegexAll,
            ParseTimestamp => ParseTimestamp,
            ParseUrl => ParseUrl,
            Push => Push,
            Remove => Remove,
            Replace => Replace,
            Set => Set,
            Sha1 => OfText(Sha1),
            Sha2 => Sha2,
            Slice => Slice,
            Split => Split,
            StartsWith => Search(StartsWith),
            StrLen => StrLen,
            StringValue => Only(StringValue),
            StripWhitespace => OfText(StripWhitespace),
            Tally => Tally,
            Timestamp => Only(Timestamp),
            ToBool => ToBool,
            ToInt => ToInt,
            ToString => ToString,
            ToUnixTimestamp => ToUnixTimestamp,
            Truncate => Truncate,
            Unflatten => Unflatten,
            Unique => Unique,
            Upcase => OfText(Upcase),
            Values => Values,
            Zip => Zip,
        )
    };
}

impl Builtin for Fun {
    ghost row = { row_of };

    ghost uses_memory = { uses_memory };

    #[tactic(auto, unfolding(crate::specs::Table::row_of))]
    fn name(&self) -> &'static str {
        functions!(call self, name())
    }

    #[tactic(auto, unfolding(crate::specs::Table::row_of))]
    fn parameters(&self) -> &'static [Parameter] {
        functions!(call self, parameters())
    }

    #[tactic(auto, unfolding(crate::specs::Table::row_of))]
    fn accepts(&self, place: usize, literal: &Value) -> bool {
        functions!(call self, accepts(place, literal))
    }

    #[tactic(auto, unfolding(crate::specs::Table::row_of))]
    fn result_kind(
        &self,
        alloc: Global,
        given: &Givens,
        patterns: &Patterns,
    ) -> Result<Kind, Memory> {
        functions!(call self, result_kind(alloc, given, patterns))
    }

    #[tactic(auto, unfolding(crate::specs::Table::row_of))]
    fn may_fail(&self, given: &Givens) -> bool {
        functions!(call self, may_fail(given))
    }

    #[tactic(auto, unfolding(crate::specs::Table::row_of, crate::specs::Table::uses_memory))]
    fn apply(
        &self,
        alloc: Global,
        arguments: &Arguments<'_>,
        setting: &Setting<'_, '_>,
    ) -> Applied {
        functions!(call self, apply(alloc, arguments, setting))
    }

    ghost law = { row-law };
}

// All functions.
fn all() -> &'static [Fun]
    ensures { result.now ≡ all_functions }
{
    &functions!(all)
}

// Whether it is the function's name.
fn has_name(function: Fun, name: &str) -> bool
    ensures { result ≡ bytes_eq (row_of function).name name.now }
{
    function.name() == name
}

// The first of these functions that has a name.
fn first_named(functions: &[Fun], name: &str) -> Option<Fun>
    ensures { result ≡ find (λ function. bytes_eq (row_of function).name name.now) functions.now }
{
    functions
        .iter()
        .copied()
        .find(|function| has_name(*function, name))
}

// The function of a name, as the table has it.
fn named(name: &str) -> Option<Fun>
    ensures { result ≡ function_named name.now }
{
    first_named(all(), name)
}

/// The function of a name. `None`: no function has it. It takes no memory.
pub fn lookup(name: &str) -> Option<Fun>
    ensures { MatchOption result ((function : Fun) → (row_of function).name ≢ name.now)
        (λ function. (row_of function).name ≡ name.now) }
{
    named(name)
}

/// Each function is the one that is found by its name, so no two have one name. This takes no time:
/// it is a law about the definitions.
pub fn functions_are_found()
    ensures { FunctionsAreFound }
{}

/// There are 79 functions, and no two have one name. This takes no time: it is a law about the
/// definitions.
pub fn functions_are_counted()
    ensures { FunctionsAreCounted }
{}

/// No function has the name of a form of the language, as `del`. This takes no time: it is a law
/// about the definitions.
pub fn forms_are_no_functions()
    ensures { FormsAreNoFunctions }
{}

/// No function has two parameters of one name. This takes no time: it is a law about the
/// definitions.
pub fn parameters_are_told_apart()
    ensures { ParametersAreToldApart }
{}

/// What a function gives is never absent, whatever is given for its parameters. This takes no time:
/// it is a law about the definitions.
pub fn results_are_present()
    ensures { ResultsArePresent }
{}
