//! What a job over a map comes to: the tasks have ended, and the map is at rest.
use ck_history::{Key, Reply};

/// The replies to the updates, the answers of each query file, and the pairs after all updates.
#[derive(Drop)]
pub struct MapResults {
    pub replies: Vec<Reply>,
    pub answers: Vec<Vec<Option<u64>>>,
    pub pairs: Vec<(Key, u64)>,
}
