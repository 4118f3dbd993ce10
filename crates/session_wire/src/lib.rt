//! What the service is asked and what it answers, and the frames of both.
#![tactic(auto)]

mod fields;
mod filling;
mod frame_reader;
mod laws;
mod reading;
mod replies;
mod reply_reader;
mod requests;
mod writing;

pub use fields::FrameFault;
pub use frame_reader::{FrameReader, Framed};
pub use laws::{
    answers_are_beginnings, bytes_begin_in_one_way, bytes_begin_with_a_reply_in_one_way,
    connections_are_read_in_one_way, frames_are_read_back, replies_are_read_back,
    replies_are_written_back, requests_are_written_back,
};
pub use replies::Reply;
pub use reply_reader::{ReplyRead, read_reply};
pub use requests::Request;
pub use writing::{write_reply, write_request};
