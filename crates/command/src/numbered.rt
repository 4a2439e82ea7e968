// What commands are asked with, by the numbers that stand after their names.
ghost use Rattle.std.specs.Prelude.{◌≡◌, ◌≤◌};
ghost use Rattle.std.specs.Option.{option_map};
ghost use Rattle.words.specs.Numbers.{max_kept};
ghost use Rattle.command.specs.Numbered.{exactly, given_batch, given_memory, given_choice};

use crate::command::{Choice, Command, Lent};
use text::Bytes;
use week::record::{Batch, Recipe};
use words::numbers::Numbers;

// So many numbers, and nothing else.
pub(crate) fn exactly<const N: usize>(numbers: Numbers) -> Option<[u16; N]>
    requires { N ≤ max_kept }
    ensures { result ≡ exactly N numbers }
{
    if numbers.count != N {
        return None;
    }
    numbers.values.first_chunk().copied()
}

// A command of no number.
pub(crate) fn alone(command: Command, numbers: Numbers) -> Option<Command>
    ensures { result ≡ option_map (λ values. command) (exactly 0 numbers) }
{
    let [] = exactly::<0>(numbers)?;
    Some(command)
}

// `batch NUMBER R D COST WORTH COST WORTH ..`, `add NUMBER R D COST WORTH ..`: all recipes are counted, the first ten kept.
#[tactic(auto, unfolding(crate::specs::Numbered::given_batch))]
pub(crate) fn given_batch(numbers: Numbers) -> Option<Batch>
    ensures { result ≡ given_batch numbers }
{
    if numbers.count < 3 || numbers.count % 2 == 0 {
        return None;
    }
    let values = numbers.values;
    let count = (numbers.count - 3) / 2;
    let recipe = |k: usize| Recipe {
        cost: values[3 + 2 * k],
        worth: values[4 + 2 * k],
    };
    Some(Batch {
        number: values[0],
        arrival: values[1],
        due: values[2],
        count,
        recipes: Batch::stored(count, recipe),
    })
}

// `table SIZE V`, `log SIZE V`: the size, up to a greatest one, and the value. A value that is left out is 0, as is a number that is not
// there.
#[tactic(auto, unfolding(crate::specs::Numbered::given_memory, crate::specs::Numbered::lends_up_to))]
pub(crate) fn given_memory(most: usize, numbers: Numbers) -> Option<Lent>
    ensures { result ≡ given_memory most numbers }
{
    if numbers.count < 1 || 2 < numbers.count {
        return None;
    }
    let size = usize::from(numbers.values[0]);
    if most < size {
        return None;
    }
    let value = u8::try_from(numbers.values[1]).ok()?;
    Some(Lent { size, value })
}

// `check K K ..`, `run K K ..`: at most 255 numbers, each of them a byte.
pub(crate) fn given_choice(numbers: Numbers) -> Option<Choice>
    ensures { result ≡ given_choice numbers }
{
    let given = numbers.values.get(..numbers.count)?;
    let mut recipes = Bytes::new();
    for &value in given {
        recipes.push(u8::try_from(value).ok()?);
    }
    Some(Choice { recipes })
}
