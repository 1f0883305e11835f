//! Tests of the lock, the desk and the pool, with threads.
#![tactic(auto)]

#[cfg(test)]
mod bell_tests;
#[cfg(test)]
mod board_tests;
#[cfg(test)]
mod clock_tests;
#[cfg(test)]
mod desk_tests;
#[cfg(test)]
mod feed_tests;
#[cfg(test)]
mod hand_tests;
#[cfg(test)]
mod histories;
#[cfg(test)]
mod lock_tests;
#[cfg(test)]
mod rule_tests;
#[cfg(test)]
mod samples;
#[cfg(test)]
mod slice_tests;
#[cfg(test)]
mod turned_tests;
#[cfg(test)]
mod watch_tests;
#[cfg(test)]
mod work_tests;
