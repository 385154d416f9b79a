//! The words of the command line: what they ask for, and the text of help.
#![tactic(auto)]

mod arguments;
mod asked;
mod commands;
mod help;
mod hint;
mod host;
mod host_options;
mod laws;
mod misfit;
mod numbers;
mod options;
mod order;
mod serve;
mod view;
mod view_options;
mod words;

pub use app_faults::OrderFault;
pub use hint::hint_of;
pub use laws::{help_and_version_are_asked_for, words_mean_one_order};
pub use order::{HostOrder, LogUse, Order, Request, ServeOrder, ViewEnd, ViewOrder};
pub use words::{request_of, text_of};
