//! Transactions as stored stacks of steps: the laws of a step, and one turn of a transaction for any steps that meet them.
//!
//! Steps that are pushed, called, undone and popped are those of the FATE of Apache Accumulo 2.1; the laws and the reasons
//! to wait are this project's own.
#![tactic(auto)]

mod forms;
mod run;
mod stacks;
mod step;
mod text;

pub use forms::{Cause, Going, Next, Ready, Reason, StepStop, Turned, TxStatus};
pub use run::turn;
pub use stacks::Stacks;
pub use step::Step;
pub use text::{StepText, StepWords};
