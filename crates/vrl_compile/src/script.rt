ghost use Rattle.std.specs.Prelude.{◌≡◌, ◌≤◌, ◌∷◌, [], false, List, ℕ, IfErr, IfOk, MatchResult, length};
ghost use Rattle.vrl_kind.specs.Canonical.{allows_absent};
ghost use Rattle.vrl_kind.specs.KindTree.{KindTree};
ghost use Rattle.vrl_syntax.specs.Limits.{KeepsLimits};
ghost use Rattle.vrl_syntax.specs.Regexes.{IsNumbered};
ghost use Rattle.vrl_syntax.specs.View.{exprs_of, script_of};
ghost use Rattle.vrl_token.specs.OnFault.{OnFault};
ghost use Rattle.vrl_token.specs.declared.token.Spanned.{Spanned as SpecSpanned};
ghost use Rattle.vrl_parse.specs.Reading.{sources_of};
ghost use Rattle.vrl_check.specs.Answer.{IsJudged};
ghost use Rattle.vrl_judge.specs.Rules.{Judgement};
ghost use Rattle.vrl_check.specs.Judgement.{JudgesScript};
ghost use Rattle.vrl_check.specs.OpenRules.{language_rules};
ghost use Rattle.vrl_compile.specs.Answer.{CanBeJudged, IsAnswer, IsRefused, IsScript, IsSoundAnswer};
ghost use Rattle.vrl_compile.specs.Literals.{IsRefusedFor};
ghost use Rattle.vrl_compile.specs.Once.{TellsOnce};

use crate::literals::{LiteralFault, build_literals};
use crate::reading::diagnostics_stand_once;
use crate::soundness::accepted_scripts_are_sound;
use std::alloc::Global;
use vrl_check::{Judged, check};
use vrl_diag::{Diagnostic, Diagnostics};
use vrl_kind::Kind;
use vrl_parse::parse;
use vrl_pattern::Patterns;
use vrl_resolve::Program;
use vrl_syntax::Script;
use vrl_token::{SyntaxFault, Tokens, tokens};
use vrl_value::{Memory, Names};

/// An accepted script, and what was found out about it.
#[derive(Drop)]
pub struct Accepted {
    /// The script, which can be run.
    pub program: Program,
    /// What it was judged to be. Its diagnostics are warnings.
    pub judged: Judged,
    /// The sources of its regex literals, in order.
    pub sources: Names,
}

/// What [`compile`] answers.
#[derive(Drop)]
pub enum Compiled {
    /// The script can be run over each event of the declared kind.
    Accepted(Accepted),
    /// All that is wrong with the text, errors and warnings, in order.
    Refused(Diagnostics),
}

/// Reads a script of at most 65,536 bytes and judges it over events of the declared kind, which
/// isn't absent, before any event is there. Of the metadata it knows that it is an object of JSON.
///
/// The first of these steps that finds something wrong gives all the diagnostics, and each of the
/// first four gives one: the first spelling at fault; tokens that are nested too deeply (1008);
/// tokens in which the grammar reads no script (203); the first path that is written or deleted
/// beyond the limits (1012); the regex literals that are malformed (101); the judgement.
/// Diagnostics stand in the order of their starts, those of one start in the order of their ends,
/// and those of one span in the order of their codes; none stands twice.
///
/// The script is accepted where none of its diagnostics is an error; those that are left are
/// warnings. Else it is refused, with all its diagnostics, one of which at least is an error.
///
/// An accepted script handles each of its errors: over an event of the declared kind and metadata
/// that is an object of JSON, both well-formed, at any moment, it never ends with one. Where it ends
/// with a value, that value is of the kind that was judged, and the event and the variables, the
/// metadata among them, are of theirs.
///
/// # Errors
///
/// [`Memory`] where memory is wanted.
pub fn compile(alloc: Global, text: &str, declared: &Kind) -> Result<Compiled, Memory>
    requires short { length text.now ≤ 65536 }
    requires present { allows_absent declared.now ≡ false }
    ensures answer { IfOk result (IsAnswer declared.now text.now) }
    ensures sound { IfOk result (IsSoundAnswer declared.now) }
    ensures once { IfOk result TellsOnce }
{
    accepted_scripts_are_sound();
    diagnostics_stand_once();
    match read(alloc, text) {
        Ok(parsed) => compile_parsed(alloc, parsed, declared),
        Err(fault) => {
            let diagnostic = diagnostic_of(fault)?;
            Ok(Compiled::Refused(alone(alloc, diagnostic)?))
        }
    }
}

// What is told of a text that is at fault. `Memory`: there is nothing to tell, since memory was
// wanted.
fn diagnostic_of(fault: SyntaxFault) -> Result<Diagnostic, Memory>
    ensures { MatchResult result (λ diagnostic. fault ≡ SyntaxFault.Fault diagnostic)
        (λ _. fault ≡ SyntaxFault.Memory) }
{
    match fault {
        SyntaxFault::Fault(diagnostic) => Ok(diagnostic),
        SyntaxFault::Memory => Err(Memory),
    }
}

// A text that was parsed.
#[derive(Drop)]
struct Parsed {
    tokens: Tokens,
    script: Script,
}

// The tokens of a text, and the script in them, the paths of which keep the limits.
fn read(alloc: Global, text: &str) -> Result<Parsed, SyntaxFault>
    requires { length text.now ≤ 65536 }
    ensures script { IfOk result (λ parsed. IsScript text.now parsed.tokens.tokens (script_of parsed.script)) }
    ensures limits { IfOk result (λ parsed. KeepsLimits (exprs_of parsed.script.items)) }
    ensures regexes { IfOk result (λ parsed. IsNumbered (script_of parsed.script)) }
    ensures sources { IfOk result (λ parsed. parsed.script.patterns ≡ sources_of parsed.tokens.tokens) }
    ensures fault { IfErr result (OnFault (λ fault. (declared : KindTree)
        → IsRefused declared text.now (fault ∷ []))) }
{
    let tokens = tokens(alloc, text)?;
    let script = parse(alloc, &tokens)?;
    Ok(Parsed { tokens, script })
}

// What is answered for the text that was parsed so.
fn compile_parsed(alloc: Global, parsed: Parsed, declared: &Kind) -> Result<Compiled, Memory>
    requires limits { KeepsLimits (exprs_of parsed.script.items) }
    requires regexes { IsNumbered (script_of parsed.script) }
    requires sources { parsed.script.patterns ≡ sources_of parsed.tokens.tokens }
    requires present { allows_absent declared.now ≡ false }
    ensures { (text : List ℕ) → IsScript text parsed.tokens.tokens (script_of parsed.script)
        → IfOk result (IsAnswer declared.now text) }
{
    let Parsed { tokens, script } = parsed;
    match build_literals(alloc, &tokens, &script.patterns) {
        Ok(patterns) => {
            let judged = check(alloc, &script, declared, &patterns)?;
            decided(alloc, script, judged, patterns)
        }
        Err(fault) => refused_literals(fault),
    }
}

// What is answered for a script whose regex literals aren't built. `Memory`: memory was wanted for
// that.
fn refused_literals(fault: LiteralFault) -> Result<Compiled, Memory>
    ensures { IsRefusedFor fault result }
{
    match fault {
        LiteralFault::Malformed(found) => Ok(Compiled::Refused(Diagnostics::new(found))),
        LiteralFault::Memory => Err(Memory),
    }
}

// What is answered for a script that was judged so: it is accepted where it has no error.
fn decided(
    alloc: Global,
    script: Script,
    judged: Judged,
    patterns: Patterns,
) -> Result<Compiled, Memory>
    requires limits { KeepsLimits (exprs_of script.items) }
    requires regexes { IsNumbered (script_of script) }
    requires patterns { patterns ≡ script.patterns }
    ensures { (declared : KindTree) (text : List ℕ) (tokens : List SpecSpanned) (judgement : Judgement)
        → IsScript text tokens (script_of script) → CanBeJudged tokens (script_of script)
        → JudgesScript (language_rules script.patterns) declared (exprs_of script.items) judgement
        → IsJudged judgement judged
        → IfOk result (IsAnswer declared text) }
{
    if judged.diagnostics.has_error() {
        return Ok(Compiled::Refused(judged.diagnostics));
    }
    let sources = patterns.copy_sources(alloc)?;
    let program = Program::link(alloc, script, &judged.empties, patterns)?;
    Ok(Compiled::Accepted(Accepted {
        program,
        judged,
        sources,
    }))
}

// One diagnostic.
fn alone(alloc: Global, diagnostic: Diagnostic) -> Result<Diagnostics, Memory>
    ensures { IfOk result (λ diagnostics. diagnostics ≡ diagnostic ∷ []) }
{
    let mut diagnostics = Vec::new(alloc);
    diagnostics.push(diagnostic)?;
    Ok(Diagnostics::new(diagnostics))
}
