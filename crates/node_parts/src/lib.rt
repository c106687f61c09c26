//! The parts of a node: its place in the scene, its own transactions, what it holds, and what it sends and releases.
#![tactic(auto)]

pub mod commits;
pub mod held;
pub mod letters;
pub mod outbox;
pub mod own_list;
pub mod own_tx;
pub mod phases;
pub mod sending;
pub mod sites;
pub mod validity;

pub use commits::{commit_all, insert_all};
pub use held::Held;
pub use letters::{send, send_aborts, send_asks, send_commits, send_copies};
pub use outbox::Outbox;
pub use own_list::{OpenPlaces, OwnList};
pub use own_tx::OwnTx;
pub use phases::Phase;
pub use sending::Sending;
pub use sites::Site;
pub use validity::is_valid;
