// The functions of `castanhiu` under the names that C calls, with its numbers: each calls its own there and promises the same. They are two
// crates, since C links a static library and `hosts` goes by one that Rattle links.
#![tactic(auto)]

mod frames;
mod identifier;
mod log;
mod mend;
mod node;
mod parameter;
mod ranking_text;
mod sheet_text;
mod trailer;
mod vehicle;
