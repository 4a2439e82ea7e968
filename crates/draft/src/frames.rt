// A list as the publisher's sheet: docs/WEEKDESK.md, ‘The operations’, and document 01, "The sheet".
ghost use Rattle.std.specs.Prelude.{◌≡◌, ◌+◌, ◌*◌, ◌≤◌, ◌++◌, length};
ghost use mathlib.Core.List.{flatten};
ghost use Rattle.week.specs.Fault.{refusal_of};
ghost use Rattle.week.specs.Record.{max_recipes};
ghost use Rattle.sheet.specs.Frame.{week_length, batch_length, recipe_length};
ghost use Rattle.draft.specs.Sheet.{week_frame, recipes_part, batch_frame, sheet_fault, Writable, sheet_frames, sheet_answer, max_sheet};

use crate::hex::{put_byte, put_value};
use crate::record::Draft;
use sheet::frame::{BATCH_LENGTH, Frame, RECIPE_LENGTH, WEEK_LENGTH};
use text::Text;
use week::record::{Batch, Week};
use week::refusal::{Fault, Reason};

// The longest text.
pub const MAX_SHEET: usize = WEEK_LENGTH
    + Week::MAX_BATCHES * (BATCH_LENGTH + RECIPE_LENGTH * Batch::MAX_RECIPES);

// Why a list cannot be written: 3, or 4 where recipes were not kept.
#[tactic(auto, using(crate::proofs::Framed::too_many))]
fn sheet_fault(draft: Draft) -> Result<(), Fault>
    ensures { refusal_of result ≡ sheet_fault draft }
{
    if Week::MAX_BATCHES < draft.count {
        return Err(Fault::of(Reason::TooManyBatches));
    }
    for (i, batch) in draft.listed().iter().enumerate() {
        if Batch::MAX_RECIPES < batch.count {
            return Err(Fault::of(Reason::RecipeCount).in_place(i + 1));
        }
    }
    Ok(())
}

// "Week: 01, t, c."
#[tactic(auto, unfolding(crate::specs::Sheet::week_frame))]
fn week_frame(text: &mut Text<MAX_SHEET>, opening: u16, closing: u16)
    requires { length text.old + week_length ≤ max_sheet }
    ensures frame { text.new ≡ text.old ++ week_frame opening closing }
    ensures width { length text.new ≡ length text.old + week_length }
{
    put_byte(text, Frame::Week.byte());
    put_value(text, opening);
    put_value(text, closing);
    text.put(b"\n");
}

// "cost and worth for each"
fn recipes_part(text: &mut Text<MAX_SHEET>, batch: Batch)
    requires { (batch.count ≤ max_recipes) × (length text.old + recipe_length * batch.count ≤ max_sheet) }
    ensures part { text.new ≡ text.old ++ recipes_part batch batch.count }
    ensures width { length text.new ≡ length text.old + recipe_length * batch.count }
{
    // A loop here and below, and no function over a closure that puts the parts: its bound `Fn` can name no const parameter.
    for recipe in &batch.recipes[..batch.count] {
        put_value(text, recipe.cost);
        put_value(text, recipe.worth);
    }
}

// "Batch: 02, number, r, d, one byte with the count of recipes, then cost and worth for each."
#[tactic(auto, unfolding(crate::specs::Sheet::batch_frame))]
fn batch_frame(text: &mut Text<MAX_SHEET>, batch: Batch)
    requires { (batch.count ≤ max_recipes) × (length text.old + batch_length + recipe_length * batch.count ≤ max_sheet) }
    ensures frame { text.new ≡ text.old ++ batch_frame batch }
    ensures width { length text.new ≤ length text.old + batch_length + recipe_length * max_recipes }
{
    put_byte(text, Frame::Batch.byte());
    put_value(text, batch.number);
    put_value(text, batch.arrival);
    put_value(text, batch.due);
    // There are at most ten recipes here: `try_from` would test what is proved.
    put_byte(text, batch.count as u8);
    recipes_part(text, batch);
    text.put(b"\n");
}

// Every frame of a list that can be written.
fn frames(draft: Draft) -> Text<MAX_SHEET>
    requires { Writable draft }
    ensures { result ≡ flatten (sheet_frames draft) }
{
    let mut text = Text::new();
    week_frame(&mut text, draft.opening, draft.closing);
    for batch in draft.listed() {
        batch_frame(&mut text, *batch);
    }
    text
}

// ‘the list as a sheet, in frames 02 (the list's own refusal 3 or 4 if it cannot be written)’. The answer on every list.
#[tactic(auto, using(crate::proofs::Framed::written))]
pub fn sheet_text(draft: Draft) -> Text<MAX_SHEET>
    ensures { result ≡ sheet_answer draft }
{
    sheet_fault(draft).map_or_else(Text::refused, |()| frames(draft))
}
