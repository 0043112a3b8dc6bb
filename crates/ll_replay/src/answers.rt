//! What is done with the answers of channels: they are passed on to connections, counted, spelled and written.
ghost use Rattle.std.specs.Prelude.{◌≡◌, ◌<◌, List, None, Option, Some, IfOk, OnOk, OnErr, IfErr, flat_map, fold, string_bytes};
ghost use Rattle.std.specs.Io.KnownBytes.{Appends};
ghost use Rattle.ll_connection.specs.Visit.{Luck};
ghost use Rattle.ll_device.specs.Written.{AppendsPrefix};
ghost use Rattle.ll_publish.specs.Refusals as refusals;
ghost use Rattle.ll_script_rooms.specs.Kept.{answers_of};
ghost use Rattle.ll_replay.specs.Kept.{told};
ghost use Rattle.ll_replay.specs.Script.{Script};
ghost use Rattle.ll_replay.specs.Script as script;

use crate::outcome::RunFault;
use ll_device::{Failed, Writer, write_all};
use ll_publish::{Refusal, at_line, no_line, ok_line};
use ll_script::{clock_line, reply_lines, unasked_line};
use ll_script_rooms::{ActAnswer, Owner};
use ll_verdict::{AskFault, Reply, Standing};
use std::alloc::{AllocError, Global};

/// Returns a reply that goes to a connection, after the connection's number. Hands any other answer back.
pub(crate) fn to_connection(answer: Option<ActAnswer>) -> Result<(u64, Reply), Option<ActAnswer>>
    ensures to { IfOk result (λ r. answer ≡ Some (ActAnswer.Replied (Owner.Connection r.0) r.1)) }
    ensures other { IfErr result (λ a. (a ≡ answer) × ((lucks : List Luck) (w : Script) → fold (script.passed_on lucks) w (answers_of a) ≡ w)) }
{
    match answer {
        Some(ActAnswer::Replied(Owner::Connection(number), reply)) => Ok((number, reply)),
        other => Err(other),
    }
}

/// Returns the number of replies that an answer is: one or none. An answer to a connection is counted there.
pub(crate) fn replies_in(answer: &Option<ActAnswer>) -> u64
    ensures { result ≡ script.reply_count (answers_of answer.now) }
{
    match answer {
        Some(ActAnswer::Replied(Owner::Get(_), _) | ActAnswer::Unavailable(Owner::Get(_))) => 1,
        _ => 0,
    }
}

/// Returns the line that refuses a publisher's line for `reason`.
pub(crate) fn refuse(alloc: Global, reason: Refusal) -> Result<Option<Vec<u8>>, AllocError>
    ensures { IfOk result (λ t. told t ≡ refusals.no_line reason) }
{
    let line = no_line(alloc, reason)?;
    Ok(Some(line.into_bytes()))
}

/// Returns the line that says where a rendition stands, if `standing` is known.
pub(crate) fn tell(alloc: Global, standing: Option<Standing>) -> Result<Option<Vec<u8>>, AllocError>
    ensures { IfOk result (λ t. told t ≡ script.standing_text standing) }
{
    match standing {
        None => Ok(None),
        Some(standing) => Ok(Some(at_line(alloc, &standing)?.into_bytes())),
    }
}

/// Returns the lines of `answer`, if there is one.
pub(crate) fn spell(alloc: Global, answer: Option<ActAnswer>) -> Result<Option<Vec<u8>>, AllocError>
    ensures lines { IfOk result (λ t. told t ≡ flat_map script.spelled (answers_of answer)) }
    ensures nothing { IfOk result (λ t. t ≡ None → answer ≡ None) }
{
    match answer {
        None => Ok(None),
        Some(answer) => Ok(Some(spell_one(alloc, answer)?.into_bytes())),
    }
}

/// Returns the lines of an answer, which are none for a connection.
pub(crate) fn spell_one(alloc: Global, answer: ActAnswer) -> Result<String, AllocError>
    ensures { IfOk result (λ t. string_bytes t ≡ script.spelled answer) }
{
    match answer {
        ActAnswer::Accepted(count) => ok_line(alloc, count),
        ActAnswer::Refused(reason) => no_line(alloc, Refusal::from(reason)),
        ActAnswer::ClockRefused(reason) => clock_line(alloc, reason),
        ActAnswer::Replied(Owner::Get(id), reply) => reply_lines(alloc, id, &reply),
        ActAnswer::Unavailable(Owner::Get(id)) => unasked_line(alloc, id, AskFault::RecordFull),
        ActAnswer::Replied(Owner::Connection(_), _)
        | ActAnswer::Unavailable(Owner::Connection(_)) => { Ok(String::new(alloc)) }
    }
}

/// Writes an answer, if there is one.
pub(crate) fn say<W: Writer>(answer: Option<Vec<u8>>, writer: &mut W) -> Result<(), RunFault>
    ensures ok { OnOk result (Appends (W.written writer.old) (W.written writer.new) (told answer)) }
    ensures cut { OnErr result (AppendsPrefix (W.written writer.old) (W.written writer.new) (told answer)) }
    ensures kind { IfErr result (λ f. f ≡ RunFault.Write) }
    ensures steady { OnOk result (W.failures writer.new ≡ W.failures writer.old) }
    ensures write_failed { OnErr result (W.failures writer.old < W.failures writer.new) }
{
    let Some(text) = answer else {
        return Ok(());
    };
    match write_all(writer, &text) {
        Ok(()) => Ok(()),
        Err(Failed) => Err(RunFault::Write),
    }
}
