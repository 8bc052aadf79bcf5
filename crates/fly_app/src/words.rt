ghost use Rattle.std.specs.Prelude.{◌≡◌, ◌∷◌, codes, IfOk, IfErr};
ghost use Rattle.fly_app.specs.Words.{IsCompile, IsMake, IsRequest, IsCommand, IsFirstWrong, is_option as begins_as_option};
ghost use Rattle.fly_app.specs.Command.{request_of};

use fly_docs::read_number;
use fly_generator::MAX_NODES;
use fly_types::Text;

/// A command that a command line asks for, with what its words name.
#[derive(Clone, Copy, Debug)]
pub enum Command<'w> {
    /// Prints the closure of the bundle in this file.
    Compile(&'w str),
    /// Runs a generated workflow of so many nodes in memory.
    Make(u32),
    /// Prints what the program does.
    Help,
    /// Prints the program's name and version.
    Version,
}

/// Whether the word is an option.
pub(crate) fn is_option(word: &str) -> bool
    ensures { result ≡ begins_as_option word.now }
{
    word.as_bytes().starts_with(b"--")
}

/// The file that stands behind the word `compile`, or the number of the first wrong word.
fn file_of(rest: &[Text]) -> Result<&str, usize>
    ensures file { IfOk result (λ path. IsCompile (codes "compile" ∷ rest.now) path.now) }
    ensures wrong { IfErr result (λ k. IsFirstWrong IsCommand (codes "compile" ∷ rest.now) k) }
{
    let Some((path, more)) = rest.split_first() else {
        return Err(1);
    };
    if is_option(path.as_str()) {
        return Err(1);
    }
    if more.is_empty() {
        Ok(path.as_str())
    } else {
        Err(2)
    }
}

/// The number of nodes that stands behind the word `make`, or the number of the first wrong word.
fn count_of(rest: &[Text]) -> Result<u32, usize>
    ensures count { IfOk result (λ n. IsMake (codes "make" ∷ rest.now) n) }
    ensures wrong { IfErr result (λ k. IsFirstWrong IsCommand (codes "make" ∷ rest.now) k) }
{
    let Some((word, more)) = rest.split_first() else {
        return Err(1);
    };
    let Some(count) = read_number(word.as_str()) else {
        return Err(1);
    };
    if count == 0 || count > MAX_NODES {
        return Err(1);
    }
    if more.is_empty() { Ok(count) } else { Err(2) }
}

/// The command that the words are, or the number of the first wrong word. Where a word is missing, that is the
/// number of the words.
pub fn read_words(words: &[Text]) -> Result<Command<'_>, usize>
    ensures command { IfOk result (λ c. IsRequest words.now (request_of c)) }
    ensures wrong { IfErr result (λ k. IsFirstWrong IsCommand words.now k) }
{
    let Some((command, rest)) = words.split_first() else {
        return Err(0);
    };
    if command.as_str() == "compile" {
        return match file_of(rest) {
            Ok(path) => Ok(Command::Compile(path)),
            Err(word) => Err(word),
        };
    }
    if command.as_str() == "make" {
        return match count_of(rest) {
            Ok(count) => Ok(Command::Make(count)),
            Err(word) => Err(word),
        };
    }
    let asked = if command.as_str() == "--help" {
        Command::Help
    } else if command.as_str() == "--version" {
        Command::Version
    } else {
        return Err(0);
    };
    if rest.is_empty() { Ok(asked) } else { Err(1) }
}
