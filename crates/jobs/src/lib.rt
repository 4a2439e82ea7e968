// The scheduling core: jobs with versions and the backward rule over them, as source document 000 has them
// and document 01 reads them. Nothing here knows a week's records.
#![tactic(auto)]

pub mod model;
pub mod rule;
pub mod worth;
