//! Jobs over new arrays, in which each `wait` and each `hold` leaves one answer.
ghost use Rattle.std.specs.Prelude.{◌≡◌, ◌≤◌, length, map, IfOk, None};
ghost use Rattle.ck_script.specs.Checks.{range_fault};
ghost use Rattle.ck_pool.specs.Limits.{most_job_lines};
ghost use Rattle.ck_pool.specs.Served.{line_total};

use crate::{ListJob, run_over_list};
use ck_history::{Edit, EditReply};
use ck_io::OpenGate;
use ck_pool::Job;
use ck_script::{AskLine, Lines, UpLine};
use std::alloc::{AllocError, Global};
use std::test::Fail;

// The edits `add 3; add 4; drop 3; hold 1 1; commit`, beside the queries `all; wait 4; all`.
fn held_job(alloc: Global) -> Result<ListJob, AllocError>
    ensures files { IfOk result (λ job. length job.asks.items ≡ 1) }
    ensures lines { IfOk result (λ job. line_total job.ups.items (map (λ file. file.items) job.asks.items) ≤ most_job_lines) }
    ensures ranges { IfOk result (λ job. range_fault job.ups.items (map (λ file. file.items) job.asks.items) ≡ None) }
{
    let ups = Lines::numbered(
        alloc,
        [
            UpLine::Call(Edit::Add(3)),
            UpLine::Call(Edit::Add(4)),
            UpLine::Call(Edit::Drop(3)),
            UpLine::Hold { file: 1, n: 1 },
            UpLine::Call(Edit::Commit),
        ]
        .as_slice(),
    )?;
    let lines = Lines::numbered(
        alloc,
        [AskLine::Ask(()), AskLine::Wait { n: 4 }, AskLine::Ask(())].as_slice(),
    )?;
    let mut asks = Vec::new(alloc);
    asks.push(lines)?;
    Ok(Job { ups, asks })
}

#[test]
fn members_are_seen_once_they_are_committed(rt: HostRuntime) -> Result<(), Fail> {
    let alloc = rt.alloc();
    for workers in [1, 2, 16] {
        let job = held_job(alloc)?;
        let results = run_over_list(&rt, alloc, &job, workers, &OpenGate)?;
        let replies = [
            EditReply::Added,
            EditReply::Added,
            EditReply::Dropped,
            EditReply::Committed,
        ];
        assert_eq!(rt; results.replies.as_slice(), replies.as_slice());
        assert_eq!(rt; results.answers.len(), 1);
        assert_eq!(rt; results.answers[0].len(), 2);
        assert_eq!(rt; results.answers[0][0].members.as_slice(), [].as_slice());
        assert_eq!(rt; results.answers[0][1].members.as_slice(), [4].as_slice());
        assert_eq!(rt; results.members.as_slice(), [4].as_slice());
    }
    Ok(())
}
