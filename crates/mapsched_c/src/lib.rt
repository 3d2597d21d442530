//! The scheduler from C and C++: a static library, whose header is `include/mapsched.h`.
#![tactic(auto)]

mod bursts;
mod call;
mod config;
mod encode;
mod entry;
mod exports;
mod frames;
mod handle;
mod journal;
mod maps;
mod place;
mod post;
mod reply;
mod resuming;
mod scheduler;
mod status;
mod texts;
mod turns;
mod words;
mod worker_handle;
mod workers;
