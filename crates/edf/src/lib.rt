// The station's run, minute by minute, over ready minutes and minutes to read: the first job in list order that is pending, that
// is, ready and with minutes left. So it is earliest due first where the list stands in order of due minute. And what its log says.
#![tactic(auto)]

pub mod log;
pub mod outcome;
pub mod run;
pub mod workload;
