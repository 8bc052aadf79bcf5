//! The words of `run`, read from the left.
ghost use Rattle.std.specs.Prelude.{◌≡◌, ◌<◌, [], ◌∷◌, ◌++◌, length, true, IfOk, IfErr, MatchOption, MatchResult};
ghost use Rattle.fly_app.specs.Words.{IsFirstWrong};
ghost use Rattle.fly_app.specs.RunWords.{is_run_line as begins_with_run, AreGiven, IsRun, IsRunCommand};
ghost use Rattle.fly_app.specs.GivenWords.{run_request_of, paths_of, given_numbers, Completes, ReadsArgument, IsFollowed, IsNotFollowed};

use crate::words::is_option;
use fly_docs::read_number;
use fly_types::Text;

/// How many versions back a worker may read at most.
const MAX_LAG: u32 = 16;

/// A run that a command line asks for.
#[derive(Clone, Copy, Debug)]
pub(crate) struct RunWords<'w> {
    /// The file of the bundle.
    pub bundle: &'w str,
    /// The file of the submissions.
    pub submissions: &'w str,
    /// The file that the journal is kept in.
    pub journal: &'w str,
    /// How many versions back the worker may read.
    pub lag: u32,
}

/// The files that were named so far: the bundle's, then the submissions', then the journal's.
#[derive(Clone, Copy)]
pub(crate) enum Files<'w> {
    Zero,
    One(&'w str),
    Two(&'w str, &'w str),
    Three(&'w str, &'w str, &'w str),
}

/// What the words that were read gave.
#[derive(Clone, Copy)]
pub(crate) struct Given<'w> {
    pub files: Files<'w>,
    pub lag: Option<u32>,
}

impl<'w> Files<'w> {
    /// With one more file, or none where there are all.
    fn with(self, path: &'w str) -> Option<Files<'w>>
        ensures { MatchOption result
            (length (paths_of self.entry) ≡ 3)
            (λ files. paths_of files ≡ paths_of self.entry ++ path.now ∷ []) }
    {
        match self {
            Files::Zero => Some(Files::One(path)),
            Files::One(bundle) => Some(Files::Two(bundle, path)),
            Files::Two(bundle, submissions) => Some(Files::Three(bundle, submissions, path)),
            Files::Three(..) => None,
        }
    }
}

/// The number of an option that stands before these words, with what it was given before; or how many of its words
/// are right. An option is given at most once, and its number is within these limits.
fn number_behind(given: Option<u32>, rest: &[Text], least: u32, most: u32) -> Result<u32, usize>
    ensures { MatchResult result
        (λ n. IsFollowed given rest.now least most n)
        (λ right. IsNotFollowed given rest.now least most right) }
{
    if given.is_some() {
        return Err(0);
    }
    let Some(word) = rest.first() else {
        return Err(1);
    };
    match read_number(word.as_str()) {
        Some(number) if least <= number && number <= most => Ok(number),
        _ => Err(1),
    }
}

impl<'w> Given<'w> {
    /// With the argument that begins with this word, and how many words it has; or how many of these words are right.
    fn read_argument(self, word: &'w str, rest: &'w [Text]) -> Result<(Given<'w>, usize), usize>
        ensures { MatchResult result
            (λ r. ReadsArgument self.entry r.0 (word.now ∷ rest.now) r.1)
            (λ right. IsFirstWrong (Completes self.entry) (word.now ∷ rest.now) right) }
    {
        if word == "--lag" {
            return match number_behind(self.lag, rest, 0, MAX_LAG) {
                Ok(lag) => Ok((
                    Given {
                        lag: Some(lag),
                        ..self
                    },
                    2,
                )),
                Err(right) => Err(right),
            };
        }
        if is_option(word) {
            return Err(0);
        }
        match self.files.with(word) {
            Some(files) => Ok((Given { files, ..self }, 1)),
            None => Err(0),
        }
    }

    /// The run, where nothing is missing.
    fn run(self) -> Option<RunWords<'w>>
        ensures { MatchOption result
            (length (paths_of self.entry.files) < 3)
            (λ r. AreGiven (paths_of self.entry.files) (given_numbers self.entry) (run_request_of r)) }
    {
        match self.files {
            Files::Three(bundle, submissions, journal) => Some(RunWords {
                bundle,
                submissions,
                journal,
                lag: self.lag.unwrap_or(0),
            }),
            _ => None,
        }
    }
}

/// Whether the words are a command line of `run`.
pub(crate) fn is_run_line(words: &[Text]) -> bool
    ensures { result ≡ begins_with_run words.now }
{
    match words.first() {
        Some(word) => word.as_str() == "run",
        None => false,
    }
}

/// The run that the words ask for, or the number of the first wrong word. Where a word is missing, that is the number
/// of the words.
pub(crate) fn read_run(words: &[Text]) -> Result<RunWords<'_>, usize>
    requires { begins_with_run words.now ≡ true }
    ensures run { IfOk result (λ r. IsRun words.now (run_request_of r)) }
    ensures wrong { IfErr result (λ k. IsFirstWrong IsRunCommand words.now k) }
{
    let mut given = Given {
        files: Files::Zero,
        lag: None,
    };
    let mut at = 1;
    while let Some((word, rest)) = words[at..].split_first() {
        match given.read_argument(word.as_str(), rest) {
            Ok((more, count)) => {
                given = more;
                at += count;
            }
            Err(right) => return Err(at + right),
        }
    }
    given.run().ok_or(at)
}
