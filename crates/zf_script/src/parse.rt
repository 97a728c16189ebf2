//! Lines as commands.

ghost use Rattle.std.specs.Prelude.{◌≡◌, ◌≢◌, ℕ, ◌≤◌, [], ◌∷◌, Some, None, IfSome, IfNone, IfOk, IfErr};
ghost use Rattle.zf_spec.specs.Grid.{IsDimension};
ghost use Rattle.zf_cached.specs.Grammar.{space, cut_at, read_line};
ghost use Rattle.zf_script.specs.Seen.{command_of, cmd_of, IsCommand, IsNoCommand};
ghost use Rattle.zf_script.specs.declared.verb.ValueVerb.{ValueVerb};
ghost use Rattle.zf_script.specs.Verbs.{value_verb_word, verb_word, HasNoValueVerb};
ghost use Rattle.zf_script.specs.Arguments.{IsPositionAndValue, NoPositionAndValue, IsWindow, NoWindow, IsTwoNumbers, NoTwoNumbers};

use crate::command::Cmd;
use crate::numbers::{axes_in, number_in, sizes_in, value_in};
use crate::reply::Refusal;
use crate::verb::{ValueVerb, Verb, value_verb_in, verb_in};
use crate::views::on_view;
use crate::words::cut;
use zf_base::Pos;

/// The command of a line for an array of so many dimensions, 1 to 4. `Word`: the line is no command; no other
/// refusal comes.
// What scripts do most often is made here, since each function that hands a command on copies it.
#[inline(always)]
pub fn parse_line(dims: u8, line: &[u8]) -> Result<Cmd, Refusal>
    requires dimension { IsDimension dims }
    ensures ok { IfOk result (λ cmd. read_line dims line.now ≡ Some (command_of dims cmd)) }
    ensures others { IfOk result (λ cmd. cmd ≡ cmd_of (command_of dims cmd)) }
    ensures err { IfErr result (λ why. (why ≡ Refusal.Word) × (read_line dims line.now ≡ None)) }
{
    let Some((verb, rest)) = value_verb_in(line) else {
        return other_in(dims, line).ok_or(Refusal::Word);
    };
    match verb {
        ValueVerb::Get => Ok(Cmd::Get(axes_in(dims, b',', 0, rest).ok_or(Refusal::Word)?)),
        ValueVerb::VGet => Ok(Cmd::VGet(axes_in(dims, b',', 0, rest).ok_or(Refusal::Word)?)),
        ValueVerb::Set => {
            let (p, value) = position_and_value_in(dims, rest).ok_or(Refusal::Word)?;
            Ok(Cmd::Set(p, value))
        }
        ValueVerb::Add => {
            let (p, value) = position_and_value_in(dims, rest).ok_or(Refusal::Word)?;
            Ok(Cmd::Add(p, value))
        }
        ValueVerb::VSet => {
            let (p, value) = position_and_value_in(dims, rest).ok_or(Refusal::Word)?;
            Ok(Cmd::VSet(p, value))
        }
    }
}

// The command of a line that does not begin with the word of a verb on one value.
#[inline(never)]
fn other_in(dims: u8, line: &[u8]) -> Option<Cmd>
    requires dimension { IsDimension dims }
    requires other { HasNoValueVerb line.now }
    ensures command { IfSome result (λ cmd. IsCommand dims (cut_at space line.now) cmd) }
    ensures none { IfNone result (IsNoCommand dims (cut_at space line.now)) }
{
    match cut(line, b' ') {
        None => alone(verb_in(line)?),
        Some((first, rest)) => begun(dims, first, rest),
    }
}

// The command that begins with a word, of no verb on one value, and has the words behind its space. The word
// of a view is its number directly behind `@`.
fn begun(dims: u8, first: &[u8], rest: &[u8]) -> Option<Cmd>
    requires dimension { IsDimension dims }
    requires other { (verb : ValueVerb) → first.now ≢ value_verb_word verb }
    ensures command { IfSome result (λ cmd. IsCommand dims (first.now ∷ cut_at space rest.now) cmd) }
    ensures none { IfNone result (IsNoCommand dims (first.now ∷ cut_at space rest.now)) }
{
    match first {
        [b'@', view @ ..] => on_view(dims, number_in(view)?, rest),
        _ => with_words(dims, verb_in(first)?, rest),
    }
}

// The command that a verb is with no words behind it.
fn alone(verb: Verb) -> Option<Cmd>
    ensures command { IfSome result (λ cmd. (d : ℕ) → IsCommand d (verb_word verb ∷ []) cmd) }
    ensures none { IfNone result ((d : ℕ) → IsNoCommand d (verb_word verb ∷ [])) }
{
    match verb {
        Verb::Sum => Some(Cmd::Sum),
        Verb::VSum => Some(Cmd::VSum),
        Verb::Flush => Some(Cmd::Flush),
        Verb::Discard => Some(Cmd::Discard),
        Verb::Stats => Some(Cmd::Stats),
        Verb::Join => Some(Cmd::Join),
        _ => None,
    }
}

// The command that another verb is with the words behind its space.
fn with_words(dims: u8, verb: Verb, rest: &[u8]) -> Option<Cmd>
    requires dimension { IsDimension dims }
    requires other { (other : ValueVerb) → verb_word verb ≢ value_verb_word other }
    ensures command { IfSome result (λ cmd. IsCommand dims (verb_word verb ∷ cut_at space rest.now) cmd) }
    ensures none { IfNone result (IsNoCommand dims (verb_word verb ∷ cut_at space rest.now)) }
{
    match verb {
        Verb::Fill => Some(Cmd::Fill(value_in(rest)?)),
        Verb::View => {
            let (origin, sizes, steps) = window_in(dims, rest)?;
            Some(Cmd::View(origin, sizes, steps))
        }
        Verb::Slice => {
            let (axis, place) = two_numbers_in(rest)?;
            Some(Cmd::Slice(axis, place))
        }
        Verb::Lines => Some(Cmd::Lines(number_in(rest)?)),
        Verb::Resize => {
            let (count, sizes) = sizes_in(b'x', 1, rest)?;
            Some(Cmd::Resize(count, sizes))
        }
        Verb::Split => {
            let (views, lines) = two_numbers_in(rest)?;
            Some(Cmd::Split(views, lines))
        }
        _ => None,
    }
}

/// A position and a value.
#[inline(always)]
pub(crate) fn position_and_value_in(dims: u8, words: &[u8]) -> Option<(Pos, i128)>
    requires dimension { IsDimension dims }
    ensures both { IfSome result (λ r. IsPositionAndValue dims (cut_at space words.now) r.0 r.1) }
    ensures none { IfNone result (NoPositionAndValue dims (cut_at space words.now)) }
{
    let (first, second) = cut(words, b' ')?;
    let position = axes_in(dims, b',', 0, first)?;
    let value = value_in(second)?;
    Some((position, value))
}

// An origin, sizes and steps.
fn window_in(dims: u8, words: &[u8]) -> Option<(Pos, Pos, Pos)>
    requires dimension { IsDimension dims }
    ensures window { IfSome result (λ r. IsWindow dims (cut_at space words.now) r.0 r.1 r.2) }
    ensures none { IfNone result (NoWindow dims (cut_at space words.now)) }
{
    let (first, rest) = cut(words, b' ')?;
    let (second, third) = cut(rest, b' ')?;
    let origin = axes_in(dims, b',', 0, first)?;
    let sizes = axes_in(dims, b'x', 1, second)?;
    let steps = axes_in(dims, b',', 1, third)?;
    Some((origin, sizes, steps))
}

// Two numbers.
fn two_numbers_in(words: &[u8]) -> Option<(u64, u64)>
    ensures both { IfSome result (λ r. IsTwoNumbers (cut_at space words.now) r.0 r.1) }
    ensures none { IfNone result (NoTwoNumbers (cut_at space words.now)) }
{
    let (first, second) = cut(words, b' ')?;
    let axis = number_in(first)?;
    let place = number_in(second)?;
    Some((axis, place))
}
