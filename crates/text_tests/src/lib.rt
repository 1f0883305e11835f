//! Tests of virtual time, command lines, scripts, journals and verdicts on them, names, the fluid reference and lag
//! reports, as callers use them.
#![tactic(auto)]

#[cfg(test)]
mod command_tests;
#[cfg(test)]
mod level_tests;
#[cfg(test)]
mod message_tests;
#[cfg(test)]
mod name_tests;
#[cfg(test)]
mod paced_tests;
#[cfg(test)]
mod printing_tests;
#[cfg(test)]
mod random_tests;
#[cfg(test)]
mod reading_tests;
#[cfg(test)]
mod report_tests;
#[cfg(test)]
mod rows;
#[cfg(test)]
mod samples;
#[cfg(test)]
mod slot_tests;
#[cfg(test)]
mod stream_tests;
#[cfg(test)]
mod time_tests;
#[cfg(test)]
mod withdrawn_report_tests;
#[cfg(test)]
mod withdrawn_tests;
