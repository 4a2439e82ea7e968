// Lists and arrays by position, sums and tests over them, the widths of numbers, and the table of examples: definitions and their laws
// alone, for every crate above.
#![tactic(auto)]
