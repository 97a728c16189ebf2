//! The words of the command line.

ghost use Rattle.std.specs.Prelude.{◌≡◌, ◌≢◌, ◌↔◌, ℕ, List, [], ◌∷◌, ◌++◌, map, Some, None, IfSome, IfNone, IfOk, IfErr, IsTrue, codes, string_bytes};
ghost use Rattle.zf_base.specs.declared.lane.Ty.{Ty};
ghost use Rattle.zf_narrow.specs.declared.narrow.Narrow.{Narrow};
ghost use Rattle.zf_header.specs.HeaderBits.{IsRate, IsMode};
ghost use Rattle.zf_words.specs.Words.{type_word, narrow_word, IsLines, IsSpelled, BeginsCommand, IsUsage};
ghost use Rattle.zf_words.specs.Stages.{LeadsTo, IsRateWord, IsLinesWord, IsPrecisionWord, command_of, script_command};

use crate::command::{Caching, Command};
use crate::name::Name;
use crate::numbers::{number_in, shape_in};
use zf_base::{Shape, Ty};
use zf_header::{Header, MAX_FILE, MAX_PRECISION, MAX_RATE, Mode, rate_bytes};
use zf_narrow::Narrow;

// The most lines of a cache.
const MOST_LINES: u32 = 1 << 16;

// What is done with the arrays of a header: raw values, or narrow ones, become their stream, or values are
// made from a number.
#[derive(Clone, Copy)]
enum Task {
    Compress,
    CompressNarrow(Narrow),
    Sample(u64),
}

// What is done with a script: it is run on an array, which is saved then, or it looks at a stream.
#[derive(Clone, Copy)]
enum Script {
    Run,
    Look,
}

// How far the words have come.
#[derive(Drop)]
enum Stage {
    Start,
    Compressing,
    Typed(Ty),
    TypedNarrow(Narrow),
    Sampling,
    SampleTyped(Ty),
    SampleShaped(Ty, Shape),
    Shaped(Task, Ty, Shape),
    AtRate(Task, Ty, Shape),
    AtPrecision(Task, Ty, Shape),
    Making,
    Named(Name),
    NamedTyped(Name, Ty),
    NamedShaped(Name, Ty, Shape),
    Scripting(Script),
    AtLines(Script, Name),
    AtTwoWay(Name),
    Bounding,
    AtMost(Name),
    Whole(Command),
}

/// The command that the words are. Else how many of them begin one: the number, from 0, of the first word
/// that fits no command, or the number of words where more are missing.
pub fn parse(words: &[String]) -> Result<Command, u64>
    ensures command { IfOk result (λ c. IsSpelled c (map string_bytes words.now)) }
    ensures usage { IfErr result (λ k. IsUsage (map string_bytes words.now) k) }
{
    let mut stage = Stage::Start;
    for (number, word) in words.iter().enumerate() {
        let Some(next) = stage.next(word.as_str()) else {
            return Err(number as u64);
        };
        stage = next;
    }
    match stage {
        Stage::Whole(command) => Ok(command),
        _ => Err(words.len() as u64),
    }
}

impl Task {
    // The command that does it.
    fn command(self, header: Header) -> Command
        ensures { result ≡ command_of self header }
    {
        match self {
            Task::Compress => Command::Compress(header),
            Task::CompressNarrow(narrow) => Command::CompressNarrow(narrow, header),
            Task::Sample(seed) => Command::Sample(header, seed),
        }
    }
}

impl Script {
    // The command that does it with the file of this name.
    fn command(self, name: Name, lines: Option<u32>) -> Command
        ensures { result ≡ script_command self name lines }
    {
        match self {
            Script::Run => {
                let caching = Caching::Direct(lines);
                Command::Run { name, caching }
            }
            Script::Look => Command::Look { name, lines },
        }
    }
}

impl Stage {
    // The stage that one more word leads to.
    fn next(self, word: &str) -> Option<Stage>
        ensures leads { IfSome result (λ next. (words : List (List ℕ)) → LeadsTo words self
            → LeadsTo (words ++ word.now ∷ []) next) }
        ensures none { IfNone result ((words : List (List ℕ)) → LeadsTo words self
            → BeginsCommand (words ++ word.now ∷ []) → ⊥) }
    {
        match self {
            Stage::Start => first(word),
            Stage::Compressing => behind_compress(word),
            Stage::Typed(ty) => Some(Stage::Shaped(Task::Compress, ty, shape_in(word)?)),
            Stage::TypedNarrow(narrow) => {
                let task = Task::CompressNarrow(narrow);
                Some(Stage::Shaped(task, Ty::I32, shape_in(word)?))
            }
            Stage::Sampling => Some(Stage::SampleTyped(type_in(word)?)),
            Stage::SampleTyped(ty) => Some(Stage::SampleShaped(ty, shape_in(word)?)),
            Stage::SampleShaped(ty, shape) => {
                let seed = number_in(word)?;
                Some(Stage::Shaped(Task::Sample(seed), ty, shape))
            }
            Stage::Shaped(task, ty, shape) => behind_shape(task, ty, shape, word),
            Stage::AtRate(task, ty, shape) => {
                let mode = Mode::Rate(rate_in(ty, shape, word)?);
                Some(Stage::Whole(task.command(Header { ty, shape, mode })))
            }
            Stage::AtPrecision(task, ty, shape) => {
                let mode = Mode::Precision(precision_in(word)?);
                Some(Stage::Whole(task.command(Header { ty, shape, mode })))
            }
            Stage::Making => Some(Stage::Named(Name::new(word)?)),
            Stage::Named(name) => Some(Stage::NamedTyped(name, type_in(word)?)),
            Stage::NamedTyped(name, ty) => Some(Stage::NamedShaped(name, ty, shape_in(word)?)),
            Stage::NamedShaped(name, ty, shape) => {
                let bits = rate_in(ty, shape, word)?;
                Some(Stage::Whole(Command::New {
                    name,
                    ty,
                    shape,
                    bits,
                }))
            }
            Stage::Scripting(script) => Some(Stage::Whole(script.command(Name::new(word)?, None))),
            Stage::AtLines(script, name) => {
                let lines = Some(lines_in(word)?);
                Some(Stage::Whole(script.command(name, lines)))
            }
            Stage::AtTwoWay(name) => {
                let caching = Caching::TwoWay(lines_in(word)?);
                Some(Stage::Whole(Command::Run { name, caching }))
            }
            Stage::Bounding => Some(Stage::AtMost(Name::new(word)?)),
            Stage::AtMost(name) => {
                let most = number_in(word)?;
                Some(Stage::Whole(Command::Bound { name, most }))
            }
            Stage::Whole(command) => behind_whole(command, word),
        }
    }
}

// The stage that the first word leads to.
fn first(word: &str) -> Option<Stage>
    ensures leads { IfSome result (λ next. LeadsTo (word.now ∷ []) next) }
    ensures none { IfNone result (BeginsCommand (word.now ∷ []) → ⊥) }
{
    match word {
        "compress" => Some(Stage::Compressing),
        "restore" => Some(Stage::Whole(Command::Restore)),
        "info" => Some(Stage::Whole(Command::Info)),
        "new" => Some(Stage::Making),
        "run" => Some(Stage::Scripting(Script::Run)),
        "look" => Some(Stage::Scripting(Script::Look)),
        "bound" => Some(Stage::Bounding),
        "sample" => Some(Stage::Sampling),
        _ => None,
    }
}

// The type that a word says.
fn type_in(word: &str) -> Option<Ty>
    ensures ty { IfSome result (λ ty. word.now ≡ type_word ty) }
    ensures none { IfNone result ((ty : Ty) → word.now ≢ type_word ty) }
{
    match word {
        "int32" => Some(Ty::I32),
        "int64" => Some(Ty::I64),
        _ => None,
    }
}

// The narrow type that a word says.
fn narrow_in(word: &str) -> Option<Narrow>
    ensures narrow { IfSome result (λ n. word.now ≡ narrow_word n) }
    ensures none { IfNone result ((n : Narrow) → word.now ≢ narrow_word n) }
{
    match word {
        "int8" => Some(Narrow::I8),
        "uint8" => Some(Narrow::U8),
        "int16" => Some(Narrow::I16),
        "uint16" => Some(Narrow::U16),
        _ => None,
    }
}

// The stage that the word of a type leads to behind `compress`.
fn behind_compress(word: &str) -> Option<Stage>
    ensures leads { IfSome result (λ next. (words : List (List ℕ)) → LeadsTo words Stage.Compressing
        → LeadsTo (words ++ word.now ∷ []) next) }
    ensures none { IfNone result ((words : List (List ℕ)) → LeadsTo words Stage.Compressing
        → BeginsCommand (words ++ word.now ∷ []) → ⊥) }
{
    match type_in(word) {
        Some(ty) => Some(Stage::Typed(ty)),
        None => Some(Stage::TypedNarrow(narrow_in(word)?)),
    }
}

// The stage that the first word of the mode leads to.
fn behind_shape(task: Task, ty: Ty, shape: Shape, word: &str) -> Option<Stage>
    ensures leads { IfSome result (λ next. (words : List (List ℕ))
        → LeadsTo words (Stage.Shaped task ty shape)
        → LeadsTo (words ++ word.now ∷ []) next) }
    ensures none { IfNone result ((words : List (List ℕ)) → LeadsTo words (Stage.Shaped task ty shape)
        → BeginsCommand (words ++ word.now ∷ []) → ⊥) }
{
    match word {
        "reversible" => {
            let mode = Mode::Reversible;
            Some(Stage::Whole(task.command(Header { ty, shape, mode })))
        }
        "rate" => Some(Stage::AtRate(task, ty, shape)),
        "precision" => Some(Stage::AtPrecision(task, ty, shape)),
        _ => None,
    }
}

// The stage that a word behind a whole command leads to: only a script can go on, with its cache, and
// `restore`, with a narrow type.
fn behind_whole(command: Command, word: &str) -> Option<Stage>
    ensures leads { IfSome result (λ next. (words : List (List ℕ)) → LeadsTo words (Stage.Whole command)
        → LeadsTo (words ++ word.now ∷ []) next) }
    ensures none { IfNone result ((words : List (List ℕ)) → LeadsTo words (Stage.Whole command)
        → BeginsCommand (words ++ word.now ∷ []) → ⊥) }
{
    match command {
        Command::Restore => Some(Stage::Whole(Command::RestoreNarrow(narrow_in(word)?))),
        Command::Run {
            name,
            caching: Caching::Direct(None),
        } => behind_file(Script::Run, name, word),
        Command::Look { name, lines: None } => behind_file(Script::Look, name, word),
        _ => None,
    }
}

// The stage that a word behind the file of a script leads to.
fn behind_file(script: Script, name: Name, word: &str) -> Option<Stage>
    ensures leads { IfSome result (λ next. (words : List (List ℕ))
        → LeadsTo words (Stage.Whole (script_command script name None))
        → LeadsTo (words ++ word.now ∷ []) next) }
    ensures none { IfNone result ((words : List (List ℕ))
        → LeadsTo words (Stage.Whole (script_command script name None))
        → BeginsCommand (words ++ word.now ∷ []) → ⊥) }
{
    match word {
        "lines" => Some(Stage::AtLines(script, name)),
        "twoway" => behind_twoway(script, name),
        _ => None,
    }
}

// The stage that the word `twoway` behind the file of a script leads to: only a run has such a cache.
fn behind_twoway(script: Script, name: Name) -> Option<Stage>
    ensures leads { IfSome result (λ next. (words : List (List ℕ))
        → LeadsTo words (Stage.Whole (script_command script name None))
        → LeadsTo (words ++ codes "twoway" ∷ []) next) }
    ensures none { IfNone result ((words : List (List ℕ))
        → LeadsTo words (Stage.Whole (script_command script name None))
        → BeginsCommand (words ++ codes "twoway" ∷ []) → ⊥) }
{
    match script {
        Script::Run => Some(Stage::AtTwoWay(name)),
        Script::Look => None,
    }
}

// The bits of a block that a word says, where the stream of such an array is not too long.
fn rate_in(ty: Ty, shape: Shape, word: &str) -> Option<u32>
    ensures rate { IfSome result (λ b. IsRateWord ty shape b word.now) }
    ensures none { IfNone result ((b : ℕ) → IsRateWord ty shape b word.now → ⊥) }
{
    let number = number_in(word)?;
    if !is_rate(number) {
        return None;
    }
    let bits = number as u32;
    let mode = Mode::Rate(bits);
    if rate_bytes(&Header { ty, shape, mode }) > MAX_FILE {
        return None;
    }
    Some(bits)
}

// The number of lines that a word says.
fn lines_in(word: &str) -> Option<u32>
    ensures lines { IfSome result (λ l. IsLinesWord l word.now) }
    ensures none { IfNone result ((l : ℕ) → IsLinesWord l word.now → ⊥) }
{
    let number = number_in(word)?;
    if is_line_count(number) {
        Some(number as u32)
    } else {
        None
    }
}

// The number of planes that a word says.
fn precision_in(word: &str) -> Option<u32>
    ensures planes { IfSome result (λ p. IsPrecisionWord p word.now) }
    ensures none { IfNone result ((p : ℕ) → IsPrecisionWord p word.now → ⊥) }
{
    let number = number_in(word)?;
    if is_precision(number) {
        Some(number as u32)
    } else {
        None
    }
}

// Whether a cache can have so many lines.
fn is_line_count(lines: u64) -> bool
    ensures { IsTrue result ↔ IsLines (Some lines) }
{
    1 <= lines && lines <= u64::from(MOST_LINES)
}

// Whether a header can state this precision.
fn is_precision(planes: u64) -> bool
    ensures { IsTrue result ↔ IsMode (Mode.Precision planes) }
{
    1 <= planes && planes <= u64::from(MAX_PRECISION)
}

// Whether a header can state this rate.
fn is_rate(bits: u64) -> bool
    ensures { IsTrue result ↔ IsRate (Mode.Rate bits) }
{
    1 <= bits && bits <= u64::from(MAX_RATE)
}
