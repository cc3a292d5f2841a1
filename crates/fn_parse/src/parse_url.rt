ghost use Rattle.std.specs.Prelude.{◌≡◌, ◌≢◌, ◌⊎◌, None, Ok, Err, codes, option_map, true, IfOk, IsErr, IsOk, OnOk};
ghost use Rattle.url.specs.Parser.{parse_url, Gives, Parsed};
ghost use Rattle.url.specs.Parts.{Parts};
ghost use Rattle.vrl_value.specs.Tree.{no_members, object, put, string};
ghost use Rattle.vrl_value.specs.View.{members_of, tree_of};
ghost use Rattle.vrl_builtin.specs.Rows.{named};
ghost use Rattle.vrl_builtin.specs.View.{Applies};
ghost use Rattle.vrl_builtin.specs.declared.failing.Applied.TheVariants as applied;
ghost use Rattle.fn_parse.specs.Gathering.{put_others, put_pair, put_pairs, put_texts, IsRead};
ghost use Rattle.fn_parse.specs.Pairs.{pairs_of};
ghost use Rattle.fn_parse.specs.Url.{last_values, members_of_url, number_or_null, parse_url_row, text_or_null, url_answer};
ghost use Rattle.fn_parse.specs.UrlLaw.{parse_url-law};

use crate::pairs::texts_of;
use crate::url_kind::url_kind;
use std::alloc::Global;
use std::collections::BTreeMap;
use url::{ParseError, Url};
use vrl_builtin::{Applied, Arguments, Builtin, Givens, Parameter, Setting, Tags, fail, required};
use vrl_kind::Kind;
use vrl_pattern::Patterns;
use vrl_value::{Chars, Fields, Memory, Value, members_are_maps};

/// `parse_url(value: string)`: object. The parts of an absolute URL, as the URL Standard reads and
/// writes them, so percent signs stay: `scheme`, `username`, `password` and `path`, each a string;
/// `host`, a string, or null where there is none or an empty one, as in `file:///a`; `port`, an
/// integer, or null where none is written or it is the scheme's own; `fragment`, a string or null;
/// and `query`, the object of the names and values of the query, of which the later of equal names
/// counts. It always may fail: `not a URL`. A URL that is written with 2^32 bytes or more counts as
/// out of memory. `parse_url("http://h:81/p?q=1#f")` is
/// `{"fragment":"f","host":"h","password":"","path":"/p","port":81,"query":{"q":"1"},"scheme":"http","username":""}`.
#[derive(Clone, Copy)]
pub struct ParseUrl;

static PARAMETERS: [Parameter; 1] = [required!("value", Tags::STRING)];

// Puts a value at a name.
fn put(alloc: Global, fields: &mut Fields, name: &str, value: Value) -> Result<(), Memory>
    ensures { OnOk result (members_of fields.new ≡ put name.now (tree_of value) (members_of fields.old)) }
{
    let name = Chars::copy_of(alloc, name)?;
    fields.insert(name, value)
}

// Puts a text at a name.
fn put_text(alloc: Global, fields: &mut Fields, name: &str, text: &str) -> Result<(), Memory>
    ensures { OnOk result (members_of fields.new ≡ put name.now (string text.now) (members_of fields.old)) }
{
    let text = Chars::copy_of(alloc, text)?;
    put(alloc, fields, name, Value::Text(text))
}

// The value of a text, or null where there is none, which takes no memory. `Memory`: out of memory.
fn text_value(alloc: Global, text: Option<&str>) -> Result<Value, Memory>
    ensures value { IfOk result (λ value. tree_of value ≡ text_or_null (option_map (λ text. text.now) text.entry)) }
    ensures null { text.entry ≡ None → IsOk result }
{
    match text {
        Some(text) => Ok(Value::Text(Chars::copy_of(alloc, text)?)),
        None => Ok(Value::Null),
    }
}

// Puts a text at a name, or null where there is none.
fn put_text_or_null(
    alloc: Global,
    fields: &mut Fields,
    name: &str,
    text: Option<&str>,
) -> Result<(), Memory>
    ensures { OnOk result (members_of fields.new
        ≡ put name.now (text_or_null (option_map (λ text. text.now) text.entry)) (members_of fields.old)) }
{
    let value = text_value(alloc, text)?;
    put(alloc, fields, name, value)
}

// The value of a port.
fn port_value(port: Option<u16>) -> Value
    ensures { tree_of result ≡ number_or_null port }
{
    match port {
        Some(number) => Value::Int(i64::from(number)),
        None => Value::Null,
    }
}

// Puts a text at a name, in place of what stood there.
fn put_pair(fields: &mut Fields, name: Chars, text: Chars) -> Result<(), Memory>
    ensures { OnOk result (members_of fields.new ≡ put_pair (name, text) (members_of fields.old)) }
{
    fields.insert(name, Value::Text(text))
}

// The names of a form with their values, of equal names the later one's.
fn last_values(alloc: Global, form: &[u8]) -> Result<Fields, Memory>
    ensures { IfOk result (λ fields. members_of fields ≡ put_pairs (pairs_of form.now) no_members) }
{
    let mut fields = Fields::new(BTreeMap::new(alloc));
    for item in form_urlencoded::parse(alloc, form).into_owned() {
        let (name, text) = texts_of(item)?;
        put_pair(&mut fields, name, text)?;
    }
    Ok(fields)
}

// The object of a URL's query.
fn query_value(alloc: Global, query: &str) -> Result<Value, Memory>
    ensures { IfOk result (λ value. tree_of value ≡ object (last_values (pairs_of query.now))) }
{
    members_are_maps();
    let fields = last_values(alloc, query.as_bytes())?;
    Ok(Value::Object(fields))
}

// Puts the parts of a URL that are texts alone.
fn put_texts(alloc: Global, fields: &mut Fields, url: &Url) -> Result<(), Memory>
    ensures { OnOk result (members_of fields.new ≡ put_texts url.now (members_of fields.old)) }
{
    put_text(alloc, fields, "password", url.password().unwrap_or(""))?;
    put_text(alloc, fields, "path", url.path())?;
    put_text(alloc, fields, "scheme", url.scheme())?;
    put_text(alloc, fields, "username", url.username())
}

// Puts the other parts.
fn put_others(alloc: Global, fields: &mut Fields, url: &Url) -> Result<(), Memory>
    ensures { OnOk result (members_of fields.new ≡ put_others url.now (members_of fields.old)) }
{
    put_text_or_null(alloc, fields, "fragment", url.fragment())?;
    put_text_or_null(alloc, fields, "host", url.host_str())?;
    put(alloc, fields, "port", port_value(url.port()))?;
    let query = query_value(alloc, url.query().unwrap_or(""))?;
    put(alloc, fields, "query", query)
}

// The object of a URL's parts.
fn parts_of(alloc: Global, url: &Url) -> Result<Value, Memory>
    ensures { IfOk result (λ value. tree_of value ≡ object (members_of_url url.now)) }
{
    let mut fields = Fields::new(BTreeMap::new(alloc));
    put_texts(alloc, &mut fields, url)?;
    put_others(alloc, &mut fields, url)?;
    Ok(Value::Object(fields))
}

// The URL that was read. `None`: the text is none. `Memory`: out of memory, or the URL as it is
// written has 2^32 bytes or more.
fn read(parsed: Result<Url, ParseError>) -> Result<Option<Url>, Memory>
    ensures read { (told : Parsed Parts) → Gives parsed told → IfOk result (λ found. IsRead told found) }
    ensures memory { IsErr result → (parsed ≡ Err ParseError.OutOfMemory) ⊎ (parsed ≡ Err ParseError.Overflow) }
{
    match parsed {
        Ok(url) => Ok(Some(url)),
        Err(ParseError::OutOfMemory) => Err(Memory),
        Err(ParseError::Overflow) => Err(Memory),
        Err(_fault) => Ok(None),
    }
}

// What is answered where a URL was found, or where the text is none, which takes no memory.
fn answer(alloc: Global, found: Result<Option<Url>, Memory>) -> Applied
    ensures answer { (told : Parsed Parts) → IfOk found (λ found. IsRead told found)
        → Applies true (named (codes "parse_url") (url_answer told)) result }
    ensures no_url { found ≡ Ok None → result ≢ applied.Memory }
{
    match found {
        Ok(Some(url)) => Applied::value(parts_of(alloc, &url)),
        Ok(None) => fail("parse_url", "not a URL"),
        Err(_memory) => Applied::Memory,
    }
}

// What is answered to a text.
fn parsed(alloc: Global, text: &str) -> Applied
    ensures { Applies true (named (codes "parse_url") (url_answer (parse_url None text.now))) result }
{
    answer(alloc, read(Url::parse(alloc, text)))
}

impl Builtin for ParseUrl {
    ghost row = { λ _. parse_url_row };

    ghost uses_memory = { λ _ arguments. true };

    fn name(&self) -> &'static str {
        "parse_url"
    }

    fn parameters(&self) -> &'static [Parameter] {
        &PARAMETERS
    }

    fn accepts(&self, _place: usize, _literal: &Value) -> bool {
        true
    }

    fn result_kind(
        &self,
        alloc: Global,
        _given: &Givens,
        _patterns: &Patterns,
    ) -> Result<Kind, Memory> {
        url_kind(alloc)
    }

    fn may_fail(&self, _given: &Givens) -> bool {
        true
    }

    fn apply(
        &self,
        alloc: Global,
        arguments: &Arguments<'_>,
        _setting: &Setting<'_, '_>,
    ) -> Applied {
        parsed(alloc, arguments.text(0, ""))
    }

    ghost law = { λ _. parse_url-law };
}
