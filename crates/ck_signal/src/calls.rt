//! The calls of signals. Each is one step, and none needs a section.
ghost use Rattle.std.specs.Prelude.{◌≡◌, ℕ, ◌+◌, ◌<◌, ◌≤◌, ◌^◌, [], ◌∷◌, length, MatchResult, IfOk};
ghost use Rattle.ck_run.specs.Tokens.{table, adding, did};
ghost use Rattle.ck_epoch.specs.State.{depth, records_of};
ghost use Rattle.ck_epoch.specs.Ends.{IsDomainToken};
ghost use Rattle.ck_epoch.specs.Calls.{rec_of, SameItemsAndEpoch};
ghost use Rattle.ck_signal.specs.Words.{marks, reaches, notes, asks, mark as marking, reached as reaching, note as noting, answered as asking};
ghost use Rattle.ck_signal.specs.Signals.{readers, signals};
ghost use Rattle.ck_signal.specs.Told.{applied_word_of, answered_word_of, writer_log, pass_answers, HasSeen, HasBeenTold};

use crate::signals::{Signals, answered_word, applied_word};
use ck_epoch::{Client, Domain, Pass, Writer};
use ck_run::Opens;
use std::marker::Brand;

/// Stores the length of the log in `applied`.
pub fn mark<C: Client, F>(domain: &Domain<Signals<C>>, writer: &mut Writer<Signals<C>, F>)
    requires table { table writer.old.token ≡ domain.now }
    requires tally { writer.old.tally ≡ length (writer_log C.meaning writer.old.token) }
    ensures step { writer.new ≡ record writer.old { token = adding writer.old.token (marks (applied_word_of C.meaning domain.now.origin) (length (writer_log C.meaning writer.old.token)) ∷ []) } }
    ensures same { SameItemsAndEpoch writer.old.token writer.new.token }
    ensures part { IsDomainToken (signals C.meaning) writer.new.token }
{
    let updates = writer.tally();
    domain.write::<Brand, F>(writer, applied_word(domain.client()), updates);
}

// Loads `applied`. `O` has the name of the call, and how many updates it asks for.
fn load_applied<C: Client, O: Opens>(
    domain: &Domain<Signals<C>>,
    pass: &mut Pass<Signals<C>>,
    wanted: u64,
) -> u64
    requires table { table pass.old.token ≡ domain.now }
    requires name { O.opens ≡ reaching ∷ wanted ∷ [] }
    ensures step { pass.new ≡ record pass.old { token = adding pass.old.token (reaches (applied_word_of C.meaning domain.now.origin) wanted result ∷ []) } }
    ensures depth { depth pass.new.token ≡ depth pass.old.token }
    ensures part { IsDomainToken (signals C.meaning) pass.new.token }
{
    domain.read::<O>(pass, applied_word(domain.client()))
}

/// Whether the writer has marked at least `n` updates. Ok comes exactly where the number that this call loads from `applied` is at
/// least `n`, and then the log has at least `n` updates, in every true run, from this step on. Err carries the number, which is below
/// `n`.
pub fn reached<C: Client>(
    domain: &Domain<Signals<C>>,
    pass: &mut Pass<Signals<C>>,
    n: u64,
) -> Result<(), u64>
    requires table { table pass.old.token ≡ domain.now }
    ensures step { MatchResult result
        (λ _. (found : ℕ) × (n ≤ found) × (pass.new ≡ record pass.old { token = adding pass.old.token (reaches (applied_word_of C.meaning domain.now.origin) n found ∷ []) }))
        (λ found. (found < n) × (pass.new ≡ record pass.old { token = adding pass.old.token (reaches (applied_word_of C.meaning domain.now.origin) n found ∷ []) })) }
    ensures seen { IfOk result (λ _. HasSeen C.meaning pass.new.token n) }
    ensures depth { depth pass.new.token ≡ depth pass.old.token }
    ensures part { IsDomainToken (signals C.meaning) pass.new.token }
{
    let found = load_applied::<C, Brand>(domain, pass, n);
    if found >= n { Ok(()) } else { Err(found) }
}

/// Stores how many answers the pass has given, in the word `answered` of its record.
pub fn note<C: Client>(domain: &Domain<Signals<C>>, pass: &mut Pass<Signals<C>>)
    requires table { table pass.old.token ≡ domain.now }
    requires records { records_of domain.now.origin ≡ readers domain.now.origin }
    requires tally { pass.old.tally ≡ pass_answers C.meaning pass.old.token }
    ensures step { pass.new ≡ record pass.old { token = adding pass.old.token (notes (answered_word_of C.meaning domain.now.origin (rec_of pass.old.token)) (pass_answers C.meaning pass.old.token) ∷ []) } }
    ensures depth { depth pass.new.token ≡ depth pass.old.token }
    ensures part { IsDomainToken (signals C.meaning) pass.new.token }
{
    let word = answered_word(domain.client(), pass.rec());
    let answers = pass.tally();
    domain.tell::<Brand>(pass, word, answers);
}

// Loads the word `answered` of a reader. `O` has the name of the call, and the reader.
fn load_answered<C: Client, F, O: Opens>(
    domain: &Domain<Signals<C>>,
    writer: &mut Writer<Signals<C>, F>,
    reader: u64,
) -> u64
    requires table { table writer.old.token ≡ domain.now }
    requires reader { reader < readers domain.now.origin }
    requires name { O.opens ≡ asking ∷ reader ∷ [] }
    ensures step { writer.new ≡ record writer.old { token = adding writer.old.token (asks (answered_word_of C.meaning domain.now.origin reader) reader result ∷ []) } }
    ensures same { SameItemsAndEpoch writer.old.token writer.new.token }
    ensures part { IsDomainToken (signals C.meaning) writer.new.token }
{
    domain.ask::<O, F>(writer, answered_word(domain.client(), reader))
}

/// How many answers the reader of this record has noted. These first answers were given before, in every true run, and have places not
/// above the length of the log; nor above how many updates have taken place by then, or any other count of the writer's steps that
/// doesn't fall.
pub fn answered<C: Client, F>(
    domain: &Domain<Signals<C>>,
    writer: &mut Writer<Signals<C>, F>,
    reader: u64,
) -> u64
    requires table { table writer.old.token ≡ domain.now }
    requires reader { reader < readers domain.now.origin }
    ensures step { writer.new ≡ record writer.old { token = adding writer.old.token (asks (answered_word_of C.meaning domain.now.origin reader) reader result ∷ []) } }
    ensures places { HasBeenTold C.meaning writer.new.token reader result (did writer.old.token) }
    ensures same { SameItemsAndEpoch writer.old.token writer.new.token }
    ensures part { IsDomainToken (signals C.meaning) writer.new.token }
{
    load_answered::<C, F, Brand>(domain, writer, reader)
}
