// What `help` answers: each command in a line.
pub(crate) const HELP: &[u8] =
    b"week T C: a new list, of no batches, from the opening minute T to the closing minute C
batch NUMBER R D COST WORTH COST WORTH ..: one batch more, arriving at R and due at D, with its recipes
table SIZE V: a picks table of SIZE bytes, each V, or 0 where V is left out
log SIZE V: a log of SIZE bytes, likewise
choose: the recipes of greatest worth that meet the rule, and their total
records: as choose, by lent records; the list is then as the records are left
check K K ..: whether a choice meets the rule, its total and each batch's stretch
run K K ..: the station's week under a choice, its changes, its idle minutes and what became of each batch
show table, show log: every byte lent, in runs, as 2x20 for twenty bytes that are 2
list: the list, as the commands that write it down
sheet: the list, as the publisher's sheet
open T C: a new book, of no batches, from T to C
add NUMBER R D COST WORTH COST WORTH ..: one batch more in the book, put in order
withdraw NUMBER: the book without the batch of that number
plan: as choose, of the book
book: the book's list, as list prints one
hold: the book now holds the list written down, as it stands
help: these lines
";
