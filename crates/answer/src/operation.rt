// Choose, Check and Run as text, and what the book's calls answer. Each makes a text, puts its lines and answers it: a function over a closure
// for that would be named beside each closure, for one line less in it.
ghost use Rattle.std.specs.Prelude.{◌≡◌, length};
ghost use Rattle.planner.specs.Choose.{choose_answer, table_after};
ghost use Rattle.planner.specs.Check.{check_answer};
ghost use Rattle.planner.specs.Run.{run_answer, log_after};
ghost use Rattle.answer.specs.Answer.{plan_text, told_plan, check_text, run_text, ok_text, told_call, no_command_text};

use crate::fields::each_line;
pub use crate::line::AnswerText;
use crate::line::{ran_line, total_line};
use planner::check::check;
use planner::choose::{Plan, choose};
use planner::run::run;
use week::record::Week;
use week::refusal::Refusal;

// `choose`, `records`, `plan`: ‘`plan TOTAL`, then `recipes K K ..`’ of a plan for a list of n batches; or the refusal, whatever its numbers.
#[tactic(auto, unfolding(crate::specs::Answer::told_plan))]
pub fn plan_text(plan: Result<Plan, Refusal>, n: usize) -> AnswerText
    ensures { result ≡ told_plan n plan }
{
    plan.map_or_else(AnswerText::of_refusal, |plan| {
        let mut text = AnswerText::new();
        total_line(&mut text, b"plan", plan.total);
        each_line(&mut text, b"recipes", &plan.choice[..Week::places(n)]);
        text
    })
}

// `choose`: the answer on every list, and every byte of the table.
pub fn choose_text(week: Week, table: &mut [u8]) -> AnswerText
    ensures answer { result ≡ plan_text week.count (choose_answer week (length table.old)) }
    ensures table { table.new ≡ table_after week table.old }
{
    plan_text(choose(week, table).map_err(Refusal::from), week.count)
}

// `check K K ..`: ‘`passed TOTAL`, then `stretches S E S E ..`’; or the refusal.
#[tactic(auto, using(crate::proofs::Answering::said), unfolding(crate::specs::Answer::check_text, planner::specs::Check::refused_check))]
pub fn check_text(week: Week, choice: &[u8]) -> AnswerText
    ensures { result ≡ check_text week.count (check_answer week choice.now) }
{
    check(week, choice).map_or_else(AnswerText::refused, |checked| {
        let mut text = AnswerText::new();
        total_line(&mut text, b"passed", checked.total);
        each_line(&mut text, b"stretches", &checked.stretches[..week.count]);
        text
    })
}

// `run K K ..`: ‘`ran changes N idle N`, then `outcomes ..`’, or the refusal, and every byte of the log.
#[tactic(auto, using(crate::proofs::Answering::said), unfolding(crate::specs::Answer::run_text, planner::specs::Run::refused_run))]
pub fn run_text(week: Week, choice: &[u8], log: &mut [u8]) -> AnswerText
    ensures answer { result ≡ run_text week.count (run_answer week choice.now (length log.old)) }
    ensures log { log.new ≡ log_after week choice.now log.old }
{
    run(week, choice, log).map_or_else(AnswerText::refused, |ran| {
        let mut text = AnswerText::new();
        ran_line(&mut text, ran.changes, ran.idle);
        each_line(&mut text, b"outcomes", &ran.batches[..week.count]);
        text
    })
}

// `ok`, or the refusal, whatever its numbers: what is answered of a call that opens or changes the book.
#[tactic(auto, unfolding(crate::specs::Answer::told_call, text::specs::Line::spaced))]
pub fn ok_text(called: Result<(), Refusal>) -> AnswerText
    ensures { result ≡ told_call called }
{
    called.map_or_else(AnswerText::of_refusal, |()| {
        let mut text = AnswerText::new();
        text.put(b"ok\n");
        text
    })
}

// `no command: line N`
#[tactic(auto, using(crate::proofs::Widths::short), unfolding(crate::specs::Answer::no_command_text))]
pub fn no_command_text(line: u64) -> AnswerText
    ensures { result ≡ no_command_text line }
{
    let mut text = AnswerText::new();
    text.put(b"no command: line");
    text.rest(&[line]);
    text
}
