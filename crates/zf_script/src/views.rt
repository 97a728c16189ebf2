//! Commands on a private view.

ghost use Rattle.std.specs.Prelude.{ℕ, [], ◌∷◌, IfSome, IfNone};
ghost use Rattle.zf_spec.specs.Grid.{IsDimension};
ghost use Rattle.zf_cached.specs.Grammar.{space, cut_at, view_word};
ghost use Rattle.zf_script.specs.Seen.{IsCommand, IsNoCommand};
ghost use Rattle.zf_script.specs.Verbs.{verb_word};

use crate::command::Cmd;
use crate::numbers::axes_in;
use crate::parse::position_and_value_in;
use crate::verb::{Verb, verb_in};
use crate::words::cut;

/// The command on a view that has these words behind the view's.
pub(crate) fn on_view(dims: u8, view: u64, words: &[u8]) -> Option<Cmd>
    requires dimension { IsDimension dims }
    ensures command { IfSome result (λ cmd. IsCommand dims (view_word view ∷ cut_at space words.now) cmd) }
    ensures none { IfNone result (IsNoCommand dims (view_word view ∷ cut_at space words.now)) }
{
    match cut(words, b' ') {
        None => alone(view, verb_in(words)?),
        Some((verb, rest)) => with_words(dims, view, verb_in(verb)?, rest),
    }
}

// The command on a view that a verb is with no words behind it.
fn alone(view: u64, verb: Verb) -> Option<Cmd>
    ensures command { IfSome result (λ cmd. (d : ℕ) → IsCommand d (view_word view ∷ verb_word verb ∷ []) cmd) }
    ensures none { IfNone result ((d : ℕ) → IsNoCommand d (view_word view ∷ verb_word verb ∷ [])) }
{
    match verb {
        Verb::Flush => Some(Cmd::PFlush(view)),
        Verb::Discard => Some(Cmd::PDiscard(view)),
        Verb::Stats => Some(Cmd::PStats(view)),
        _ => None,
    }
}

// The command on a view that a verb is with the words behind its space.
fn with_words(dims: u8, view: u64, verb: Verb, rest: &[u8]) -> Option<Cmd>
    requires dimension { IsDimension dims }
    ensures command { IfSome result (λ cmd. IsCommand dims
        (view_word view ∷ verb_word verb ∷ cut_at space rest.now) cmd) }
    ensures none { IfNone result (IsNoCommand dims (view_word view ∷ verb_word verb ∷ cut_at space rest.now)) }
{
    match verb {
        Verb::Get => Some(Cmd::PGet(view, axes_in(dims, b',', 0, rest)?)),
        Verb::Set => {
            let (p, value) = position_and_value_in(dims, rest)?;
            Some(Cmd::PSet(view, p, value))
        }
        Verb::Add => {
            let (p, value) = position_and_value_in(dims, rest)?;
            Some(Cmd::PAdd(view, p, value))
        }
        _ => None,
    }
}
