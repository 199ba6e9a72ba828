// The bus of observers, with observers that write down what they are told.

mod calls;
mod empty;
mod listener;
pub mod recorder;
mod rounds;
mod tests;
