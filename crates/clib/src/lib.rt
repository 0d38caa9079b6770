// The C boundary: each call of the library as a function on numbers and slices that answers one number. So parameters that travel together stay apart.
#![tactic(auto)]

mod alarm;
mod asked;
mod chip_states;
mod facts;
mod packing;
mod plan_records;
mod plan_scripts;
mod registers;
mod temperatures;
mod texts;
