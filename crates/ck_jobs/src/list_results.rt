//! What a job over a list comes to: the tasks have ended, and the list is at rest.
use ck_history::EditReply;
use ck_report::View;

/// The replies to the edits, the views of each query file, and the committed members after all edits.
#[derive(Drop)]
pub struct ListResults {
    pub replies: Vec<EditReply>,
    pub answers: Vec<Vec<View>>,
    pub members: Vec<u64>,
}
