//! The words of the command line, and the command that they are.

ghost use Rattle.std.specs.Prelude.{◌≡◌, ◌++◌, ◌∷◌, [], map, string_bytes, IfOk, OnOk};
ghost use Rattle.xive_cli.specs.Command.{command_of, words_behind};

use std::alloc::Global;
use xv_base::{NoMemory, Word};

/// What the program is to do.
#[derive(Clone, Copy)]
pub enum Command {
    /// Run the script that standard input has.
    Run,
}

impl Command {
    /// The command that these words are, which stand behind the program's name.
    pub fn parse(words: &[Word]) -> Option<Command>
        ensures { result ≡ command_of words.now }
    {
        match words {
            [word] => match word.bytes() {
                b"run" => Some(Command::Run),
                _ => None,
            },
            _ => None,
        }
    }
}

/// The words that stand behind the program's name, which is the first argument.
pub fn words_behind_name(alloc: Global, args: &[String]) -> Result<Vec<Word>, NoMemory>
    ensures { IfOk result (λ words. words.items ≡ words_behind args.now) }
{
    match args {
        [_, words @ ..] => words_of(alloc, words),
        [] => Ok(Vec::new(alloc)),
    }
}

/// The words that have these texts.
fn words_of(alloc: Global, texts: &[String]) -> Result<Vec<Word>, NoMemory>
    ensures { IfOk result (λ words. words.items ≡ map string_bytes texts.now) }
{
    let mut words = Vec::new(alloc);
    for text in texts {
        push_word(alloc, &mut words, text.as_bytes())?;
    }
    Ok(words)
}

/// Puts a word of these bytes behind the others.
fn push_word(alloc: Global, words: &mut Vec<Word>, bytes: &[u8]) -> Result<(), NoMemory>
    ensures { OnOk result (words.new.items ≡ words.old.items ++ bytes.now ∷ []) }
{
    let word = Word::from_bytes(alloc, bytes)?;
    match words.push(word) {
        Ok(()) => Ok(()),
        Err(_) => Err(NoMemory),
    }
}
