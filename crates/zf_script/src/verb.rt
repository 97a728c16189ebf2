//! The first words of lines.

ghost use Rattle.std.specs.Prelude.{◌≡◌, ◌≢◌, ◌∷◌, IfSome, IfNone};
ghost use Rattle.zf_cached.specs.Grammar.{space, cut_at};
ghost use Rattle.zf_script.specs.declared.verb.ValueVerb.{ValueVerb};
ghost use Rattle.zf_script.specs.declared.verb.Verb.{Verb};
ghost use Rattle.zf_script.specs.Verbs.{value_verb_word, verb_word, HasNoValueVerb};

use crate::words::cut;

/// How a line reads or writes one value of the array or of the window: what its first word says.
#[derive(Clone, Copy, Debug, PartialEq, Eq)]
pub(crate) enum ValueVerb {
    Get,
    Set,
    Add,
    VGet,
    VSet,
}

/// The verb on one value that a line begins with, and what stands behind the space behind its word.
#[inline(always)]
pub(crate) fn value_verb_in(line: &[u8]) -> Option<(ValueVerb, &[u8])>
    ensures verb { IfSome result (λ r. cut_at space line.now ≡ value_verb_word r.0 ∷ cut_at space r.1.now) }
    ensures none { IfNone result (HasNoValueVerb line.now) }
{
    let (first, rest) = cut(line, b' ')?;
    Some((value_verb_of(first)?, rest))
}

// The verb on one value that a word is.
fn value_verb_of(word: &[u8]) -> Option<ValueVerb>
    ensures verb { IfSome result (λ verb. word.now ≡ value_verb_word verb) }
    ensures none { IfNone result ((verb : ValueVerb) → word.now ≢ value_verb_word verb) }
{
    match word {
        b"get" => Some(ValueVerb::Get),
        b"set" => Some(ValueVerb::Set),
        b"add" => Some(ValueVerb::Add),
        b"vget" => Some(ValueVerb::VGet),
        b"vset" => Some(ValueVerb::VSet),
        _ => None,
    }
}

/// What the first word of a line says, or the word behind a view's.
#[derive(Clone, Copy, Debug, PartialEq, Eq)]
pub(crate) enum Verb {
    Get,
    Set,
    Add,
    Fill,
    Sum,
    View,
    Slice,
    VGet,
    VSet,
    VSum,
    Flush,
    Discard,
    Lines,
    Resize,
    Stats,
    Split,
    Join,
}

/// The verb that a word is.
pub(crate) fn verb_in(word: &[u8]) -> Option<Verb>
    ensures verb { IfSome result (λ verb. word.now ≡ verb_word verb) }
    ensures none { IfNone result ((verb : Verb) → word.now ≢ verb_word verb) }
{
    match word {
        b"get" => Some(Verb::Get),
        b"set" => Some(Verb::Set),
        b"add" => Some(Verb::Add),
        b"fill" => Some(Verb::Fill),
        b"sum" => Some(Verb::Sum),
        b"view" => Some(Verb::View),
        b"slice" => Some(Verb::Slice),
        b"vget" => Some(Verb::VGet),
        b"vset" => Some(Verb::VSet),
        b"vsum" => Some(Verb::VSum),
        b"flush" => Some(Verb::Flush),
        b"discard" => Some(Verb::Discard),
        b"lines" => Some(Verb::Lines),
        b"resize" => Some(Verb::Resize),
        b"stats" => Some(Verb::Stats),
        b"split" => Some(Verb::Split),
        b"join" => Some(Verb::Join),
        _ => None,
    }
}
