//! The update file.
ghost use Rattle.std.specs.Prelude.{◌≡◌, ◌+◌, ◌-◌, ◌<◌, ◌≤◌, ◌*◌, ◌^◌, ◌++◌, ◌∷◌, [], ℕ, List, length, All, IfOk, OnOk};
ghost use Rattle.ck_history.specs.declared.event.WriterEvent.{WriterEvent};
ghost use Rattle.ck_pool.specs.Limits.{most_job_lines, call_bound, start_call_bound};
ghost use Rattle.ck_pool.specs.Runs.{answer_loads, UpdateLineRan, UpdatesRan, HoldsReader, HoldReaders};
ghost use Rattle.ck_pool.specs.Served.{IsUpdateFileServed, LineFits, WillFit};

use crate::context::Context;
use crate::dict::Dict;
use crate::waiting::Waiting;
use ck_io::Gate;
use ck_script::{LineList, UpLine};
use std::alloc::AllocError;
use std::sync::Wait;

// Loads until the reader has at least n answers, or until another task finds no memory: then the answers may never come.
fn hold_for<D: Dict, G: Gate, R: Wait>(
    context: &Context<D, G, R>,
    hand: &mut D::Hand,
    reader: u64,
    n: u64,
) -> Result<(), AllocError>
    requires ready { (D.hands context.now.dict.now).ready hand.old }
    requires reader { reader < D.readers context.now.dict.now }
    ensures ready { (D.hands context.now.dict.now).ready hand.new }
    ensures calls { (D.hands context.now.dict.now).calls hand.new ≡ (D.hands context.now.dict.now).calls hand.old }
    ensures done { OnOk result ((counts : List ℕ) × (k : ℕ)
        × ((D.hands context.now.dict.now).done hand.new ≡ (D.hands context.now.dict.now).done hand.old ++ (answer_loads reader counts ++ answer_loads reader (k ∷ [])))
        × All (λ m. m < n) counts × (n ≤ k)) }
{
    let mut waiting = Waiting::new();
    for _ in context.rt.forever() {
        if context.dict.answered(hand, reader) >= n {
            return Ok(());
        }
        if context.shortage.is_raised() {
            return Err(AllocError);
        }
        waiting.turn(context.rt);
    }
    unreachable!()
}

// Runs one line of the update file.
fn run_line<D: Dict, G: Gate, R: Wait>(
    context: &Context<D, G, R>,
    hand: &mut D::Hand,
    line: &UpLine<D::Call>,
    replies: &mut Vec<D::Reply>,
) -> Result<(), AllocError>
    requires ready { (D.hands context.now.dict.now).ready hand.old }
    requires calls { (D.hands context.now.dict.now).calls hand.old < call_bound }
    requires reader { HoldsReader (D.readers context.now.dict.now) line.now }
    requires fits { LineFits (D.hands context.now.dict.now) hand.old line.now }
    ensures ready { (D.hands context.now.dict.now).ready hand.new }
    ensures calls { (D.hands context.now.dict.now).calls hand.new ≤ (D.hands context.now.dict.now).calls hand.old + 8 }
    ensures ran { IfOk result (λ _. (events : List (WriterEvent D.Call D.Reply)) × (r : List D.Reply)
        × ((D.hands context.now.dict.now).done hand.new ≡ (D.hands context.now.dict.now).done hand.old ++ events)
        × (replies.new.items ≡ replies.old.items ++ r) × UpdateLineRan line.now events r) }
{
    match line {
        UpLine::Call(call) => {
            let reply = context.dict.update(context.rt, context.alloc, hand, call)?;
            replies.push(reply)?;
        }
        UpLine::Hold { file, n } => hold_for(context, hand, *file - 1, *n)?,
    }
    Ok(())
}

/// Runs the update file from its first line to its last.
pub fn run_updates<D: Dict, G: Gate, R: Wait>(
    context: &Context<D, G, R>,
    hand: &mut D::Hand,
    lines: &D::UpFile,
) -> Result<Vec<D::Reply>, AllocError>
    requires ready { (D.hands context.now.dict.now).ready hand.old }
    requires calls { ((D.hands context.now.dict.now).calls hand.old < start_call_bound) × (length (D.UpFile.items lines.now) ≤ most_job_lines) }
    requires readers { HoldReaders (D.readers context.now.dict.now) (D.UpFile.items lines.now) }
    requires fits { WillFit (D.hands context.now.dict.now) hand.old (D.UpFile.items lines.now) }
    ensures ready { (D.hands context.now.dict.now).ready hand.new }
    ensures calls { (D.hands context.now.dict.now).calls hand.new < call_bound }
    ensures ran { IfOk result (λ replies. IsUpdateFileServed (D.hands context.now.dict.now) hand.old (D.UpFile.items lines.now) hand.new replies.items) }
{
    let mut replies = Vec::with_capacity(context.alloc, lines.len())?;
    for i in 0..lines.len() {
        let line = lines.get(i);
        context.gate.before(0, line.line);
        run_line(context, hand, &line.what, &mut replies)?;
    }
    Ok(replies)
}
