//! Traps and watchpoints: the client is asked, and what it answers is done, first its edit of the frames and then its reply. The state changes
//! as the abstract machine's configuration does, or no memory is found and the state stays as it was.
#![tactic(auto)]

pub mod asking;
mod editing;
mod replying;
