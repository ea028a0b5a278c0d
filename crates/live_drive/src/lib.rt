//! A plant that is run as its rows come: lines in, lines out.
//!
//! Each row is latched, run until nothing waits, and saved; only then its line of outputs goes out. So a line that went out is
//! never ahead of the RETAIN values that a power failure leaves. One thread does all of it, and lines that have their own
//! moments get the same answers each time.
#![tactic(auto)]

mod answers;
mod cycle;
mod feed;
mod latencies;
mod line_feed;
mod newest;
mod outputs;
mod serving;
mod stamps;
mod tick_feed;

pub use answers::{Answers, Missed};
pub use feed::{Feed, FeedEnd, Incoming, LineCounts};
pub use latencies::Latencies;
pub use line_feed::{Backlog, LineFeed};
pub use newest::{Newest, read_newest};
pub use outputs::outputs_of;
pub use serving::{Answered, End, Observer, serve};
pub use stamps::Stamps;
pub use tick_feed::TickFeed;
