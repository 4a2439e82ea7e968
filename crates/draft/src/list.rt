// A list as the commands that write it down: docs/WEEKDESK.md, ‘The operations’.
ghost use Rattle.std.specs.Prelude.{◌+◌, ◌*◌, ◌≤◌, ◌≡◌, [], ◌∷◌, ◌++◌, map, length};
ghost use Rattle.text.specs.Decimal.{decimal};
ghost use Rattle.text.specs.Line.{spaced};
ghost use Rattle.draft.specs.List.{max_printed, recipes_text, batch_line, list_answer, recipe_width, batch_width, max_list};

use crate::record::{Draft, MAX_KEPT};
use text::Text;
use text::line::WEEK_WIDTH;
use week::record::{Batch, Recipe};

// The recipes of a batch's line: one more than are kept, so that a count above the limit stays above it.
const MAX_PRINTED: usize = Batch::MAX_RECIPES + 1;

// The widest recipe, and the widest line of a batch, its line feed counted: numbers of five digits, each after a space.
const RECIPE_WIDTH: usize = 12;

const BATCH_WIDTH: usize = 5 + 3 * 6 + MAX_PRINTED * RECIPE_WIDTH + 1;

// The longest text.
pub const MAX_LIST: usize = WEEK_WIDTH + MAX_KEPT * BATCH_WIDTH;

// A recipe's cost and its worth, each after a space.
fn put_recipe(text: &mut Text<MAX_LIST>, recipe: Recipe)
    requires { length text.old + recipe_width ≤ max_list }
    ensures part { text.new ≡ text.old ++ spaced (map decimal (recipe.cost ∷ recipe.worth ∷ [])) }
    ensures width { length text.new ≤ length text.old + recipe_width }
{
    text.put_numbers(&[recipe.cost, recipe.worth]);
}

// The recipes of a batch, each after a space; that of index 10 is not kept, and is printed as 0 0.
fn put_recipes(text: &mut Text<MAX_LIST>, batch: Batch)
    requires { length text.old + max_printed * recipe_width ≤ max_list }
    ensures part { text.new ≡ text.old ++ recipes_text batch }
    ensures width { length text.new ≤ length text.old + max_printed * recipe_width }
{
    let mut recipes = [Recipe::NONE; MAX_PRINTED];
    recipes[..Batch::MAX_RECIPES].copy_from_slice(&batch.recipes);
    // A loop here and below, and no function over a closure that puts the parts: its bound `Fn` can name no const parameter.
    for recipe in &recipes[..batch.count.min(MAX_PRINTED)] {
        put_recipe(text, *recipe);
    }
}

// `batch NUMBER R D COST WORTH ..`
#[tactic(auto, using(std::proofs::lemmas::Grind::common_steps, crate::proofs::Widths::three_short, crate::proofs::Printed::batch_parts))]
fn batch_line(text: &mut Text<MAX_LIST>, batch: Batch)
    requires { length text.old + batch_width ≤ max_list }
    ensures line { text.new ≡ text.old ++ batch_line batch }
    ensures width { length text.new ≤ length text.old + batch_width }
{
    text.put(b"batch");
    text.put_numbers(&[batch.number, batch.arrival, batch.due]);
    put_recipes(text, batch);
    text.put(b"\n");
}

// ‘the list as the commands that write it down’: the week's line, and one for each batch that is kept. The answer on every list.
pub fn list_text(draft: Draft) -> Text<MAX_LIST>
    ensures { result ≡ list_answer draft }
{
    let mut text = Text::new();
    text.week_line(draft.opening, draft.closing);
    for batch in draft.listed() {
        batch_line(&mut text, *batch);
    }
    text
}
