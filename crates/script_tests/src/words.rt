ghost use Rattle.std.specs.Prelude.{◌≤◌, length};

// What single words of a script say.
use std::alloc::Global;
use std::process::Abort;
use vrl_syntax::Target;
use vrl_token::{Spanned, SyntaxFault, tokens};
use vrl_value::{Memory, Tag, Value};
use vrl_word::{function_of, literal_of, operator_of, path_of, target_of};

// The tag of the literal that a word is.
fn is_literal(alloc: Global, word: &Spanned) -> Result<Option<Tag>, Memory> {
    let value: Option<Value> = literal_of(alloc, &word.token, 0)?;
    Ok(value.as_ref().map(|value| value.tag()))
}

// Whether a word is a path or a name.
fn is_path(alloc: Global, word: &Spanned) -> Result<bool, Memory> {
    let path = path_of(alloc, &word.token)?;
    Ok(path.is_some())
}

// Whether an assignment to a word writes nothing.
fn is_nowhere(alloc: Global, word: &Spanned) -> Result<bool, Memory> {
    let target = target_of(alloc, word)?;
    Ok(matches!(&target, Some(Target::Nowhere)))
}

// Whether a word is a function.
fn is_function(alloc: Global, word: &Spanned) -> Result<bool, Memory> {
    let function = function_of(alloc, &word.token)?;
    Ok(function.is_some())
}

// One letter for each thing that a word may be.
fn letter(alloc: Global, word: &Spanned) -> Result<char, Memory> {
    if is_literal(alloc, word)? == Some(Tag::Int) {
        return Ok('i');
    }
    if is_literal(alloc, word)?.is_some() {
        return Ok('l');
    }
    if is_nowhere(alloc, word)? {
        return Ok('_');
    }
    if is_path(alloc, word)? {
        return Ok('p');
    }
    if is_function(alloc, word)? {
        return Ok('f');
    }
    Ok(match operator_of(&word.token) {
        Some((7, _)) => '*',
        Some(_) => 'o',
        None => '.',
    })
}

// The letters of a text's words.
fn letters(alloc: Global, text: &str) -> Result<Option<String>, Memory>
    requires { length text.now ≤ 65536 }
{
    match tokens(alloc, text) {
        Ok(found) => {
            let mut told = String::new(alloc);
            for word in found.as_slice() {
                told.push(letter(alloc, word)?)?;
            }
            Ok(Some(told))
        }
        Err(SyntaxFault::Fault(_fault)) => Ok(None),
        Err(SyntaxFault::Memory) => Err(Memory),
    }
}

fn expect_letters(rt: &impl Abort, alloc: Global, rows: &[(&str, &str)]) -> Result<(), Memory> {
    for (text, wanted) in rows {
        assert!(rt; text.len() <= 65536);
        let told = letters(alloc, text)?;
        assert!(rt; told.as_deref() == Some(*wanted), "at {text:?}");
    }
    Ok(())
}

const WORDS: [(&str, &str); 9] = [
    ("-1 2", "ii"),
    ("1 -2", "ioi"),
    (
        "\"a\" s'b' r'c' t'2024-01-02T03:04:05Z' true null",
        "llllll",
    ),
    (".a b c.d _ % %_", "ppp_pp"),
    ("f() g!()", "f..f.."),
    ("a + b * c", "pop*p"),
    ("a ?? b == c", "popop"),
    ("if else return ( ]", "....."),
    ("\"a{{ n }}\" + \"b\"", ".ol"),
];

#[test]
fn words_of_texts(rt: HostRuntime) -> Result<(), Memory> {
    expect_letters(&rt, rt.alloc(), &WORDS)
}
