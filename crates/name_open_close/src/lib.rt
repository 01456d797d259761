// A name opened, and a name closed.
#![tactic(auto)]

mod closing;
mod opening;

pub use closing::close;
pub use opening::open;
