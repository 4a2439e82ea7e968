// That a list written as a sheet is read back as the same list, which the reader answers in order: definitions and laws, no function.
#![tactic(auto)]
