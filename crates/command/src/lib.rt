// The commands of weekdesk, and which of them a line is.
#![tactic(auto)]

pub mod command;
mod name;
mod numbered;
mod show;

ghost use Rattle.std.specs.Prelude.{◌≡◌};
ghost use Rattle.words.specs.Word.{words_of};
ghost use Rattle.command.specs.Command.{named, is_comment, command_in, command_of};

use crate::command::Command;
use crate::name::{Name, name_of};
use crate::numbered::{alone, exactly, given_batch, given_choice, given_memory};
use crate::show::show_command;
use lent::{MAX_LOG, MAX_TABLE};
use words::line::{Line, MAX_LINE};
use words::numbers::numbers_of;
use words::word::Words;

// The command of a name, with what stands after it on the line. Where `exactly` is asked, `let` and no `.map(|[opening, closing]| ..)`: its
// length would have to stand beside the closure too, on as many lines.
#[tactic(auto, unfolding(crate::specs::Command::named))]
fn command_named(name: Name, rest: &[u8]) -> Option<Command>
    ensures { result ≡ named name (words_of rest.now) }
{
    let numbers = numbers_of(rest);
    match name {
        Name::Week => {
            let [opening, closing] = exactly::<2>(numbers?)?;
            Some(Command::Week { opening, closing })
        }
        Name::Batch => given_batch(numbers?).map(Command::Batch),
        Name::Table => given_memory(MAX_TABLE, numbers?).map(Command::Table),
        Name::Log => given_memory(MAX_LOG, numbers?).map(Command::Log),
        Name::Choose => alone(Command::Choose, numbers?),
        Name::Records => alone(Command::Records, numbers?),
        Name::Check => given_choice(numbers?).map(Command::Check),
        Name::Run => given_choice(numbers?).map(Command::Run),
        Name::Show => show_command(rest),
        Name::List => alone(Command::List, numbers?),
        Name::Sheet => alone(Command::Sheet, numbers?),
        Name::Open => {
            let [opening, closing] = exactly::<2>(numbers?)?;
            Some(Command::Open { opening, closing })
        }
        Name::Add => given_batch(numbers?).map(Command::Add),
        Name::Withdraw => {
            let [number] = exactly::<1>(numbers?)?;
            Some(Command::Withdraw { number })
        }
        Name::Plan => alone(Command::Plan, numbers?),
        Name::Book => alone(Command::Book, numbers?),
        Name::Hold => alone(Command::Hold, numbers?),
        Name::Help => alone(Command::Help, numbers?),
    }
}

// Whether a line begins with `#`.
#[tactic(auto, unfolding(crate::specs::Command::is_comment))]
fn is_comment(line: &[u8]) -> bool
    ensures { result ≡ is_comment line.now }
{
    line.first() == Some(&b'#')
}

// The command that the bytes of a line are.
#[tactic(auto, unfolding(crate::specs::Command::command_in, crate::specs::Command::by_words))]
fn command_in(line: &[u8]) -> Option<Command>
    ensures { result ≡ command_in line.now }
{
    if is_comment(line) {
        return Some(Command::Nothing);
    }
    if MAX_LINE < line.len() {
        return None;
    }
    let mut words = Words::of(line);
    let Some(word) = words.next() else {
        return Some(Command::Nothing);
    };
    command_named(name_of(word)?, words.rest)
}

// The command that a line is, or none. The answer on every line, also where its length is beyond its bytes.
#[tactic(auto, using(std::proofs::lemmas::List::take_min), unfolding(crate::specs::Command::command_of))]
pub fn command_of(line: &Line) -> Option<Command>
    ensures { result ≡ command_of line.now }
{
    command_in(&line.bytes[..line.len.min(line.bytes.len())])
}
