// `show table`, `show log`
ghost use Rattle.std.specs.Prelude.{◌≡◌};
ghost use Rattle.words.specs.Word.{words_of};
ghost use Rattle.command.specs.Show.{shown, show_command};

use crate::command::Command;
use words::word::Words;

// Which of the two a word is.
#[tactic(auto, unfolding(crate::specs::Show::shown))]
fn shown(word: &[u8]) -> Option<Command>
    ensures { result ≡ shown word.now }
{
    match word {
        b"table" => Some(Command::ShowTable),
        b"log" => Some(Command::ShowLog),
        _ => None,
    }
}

// What is shown, if one word stands on the rest of the line.
#[tactic(auto, unfolding(crate::specs::Show::show_command))]
pub(crate) fn show_command(rest: &[u8]) -> Option<Command>
    ensures { result ≡ show_command (words_of rest.now) }
{
    let mut words = Words::of(rest);
    match (words.next(), words.next()) {
        (Some(word), None) => shown(word),
        _ => None,
    }
}
