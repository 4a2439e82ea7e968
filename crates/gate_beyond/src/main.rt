// A program of the gate: what stands beyond a count is never looked at. Case W with its last batch first, and with rubbish behind its
// batches and behind the recipes of each, is answered as case W is.
#![tactic(auto)]

use answer::line::AnswerText;
use answer::operation::{check_text, choose_text, run_text};
use week::record::{Batch, Recipe, Week};

// Refused by 4, 5 and 9 if it counted.
fn rubbish() -> Batch {
    let most = Recipe {
        cost: 65535,
        worth: 65535,
    };
    Batch {
        number: 0,
        arrival: 65535,
        due: 0,
        count: 99,
        recipes: [most; Batch::MAX_RECIPES],
    }
}

fn batch(number: u16, arrival: u16, due: u16, first: Recipe, second: Recipe) -> Batch {
    let mut recipes = rubbish().recipes;
    recipes[..2].copy_from_slice(&[first, second]);
    Batch {
        number,
        arrival,
        due,
        count: 2,
        recipes,
    }
}

fn recipe(cost: u16, worth: u16) -> Recipe {
    Recipe { cost, worth }
}

fn case_w() -> Week {
    let mut batches = [rubbish(); Week::MAX_BATCHES];
    batches[..3].copy_from_slice(&[
        batch(9, 0, 100, recipe(50, 10), recipe(20, 5)),
        batch(8, 20, 60, recipe(30, 8), recipe(0, 0)),
        batch(7, 0, 40, recipe(30, 9), recipe(10, 4)),
    ]);
    Week {
        opening: 0,
        closing: 100,
        count: 3,
        batches,
    }
}

fn say(rt: &impl Print, text: AnswerText) {
    let _ = rt.write_all(text.as_bytes());
}

fn main(rt: HostRuntime) {
    let week = case_w();
    let mut table = [0; 303];
    let mut log = [0; 100];
    say(&rt, choose_text(week, &mut table));
    say(&rt, check_text(week, b"\x02\x01\x01"));
    say(&rt, run_text(week, b"\x02\x01\x01", &mut log));
}
