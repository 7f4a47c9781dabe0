//! What C calls. `Global` has no place in C: each call takes what is written before and after it.

ghost use Rattle.std.specs.Prelude.{◌≡◌, true, None, Ok, IfOk, IfErr, IfSome, IfNone};
ghost use Rattle.lf_rules.specs.InRange.{IsShape};
ghost use Rattle.lf_config.specs.Configuration.{configuration_of};
ghost use Rattle.lf_verdict.specs.declared.answer.Outcome.{Outcome};
ghost use Rattle.lf_verdict.specs.Named.{NoneBrokeSoFar};
ghost use Rattle.lf_verdict.specs.Session.{CanTell, IsConfigRefusal};
ghost use Rattle.run_engine.specs.Line.{outcome_text};
ghost use Rattle.library_c.specs.Answers.{IsLine, IsOpened, IsNoConfiguration, IsOpening, IsFedMore, IsFeeding};
ghost use Rattle.library_c.specs.Answers.{IsFedTold, IsFeedingTold, IsBroken, IsAsking, IsJudged, IsFinishing};
ghost use Rattle.library_c.specs.Answers.{abort_status};

use crate::answer::{Answer, FINE, MISUSED, REFUSED, broken_status, status_of};
use crate::board::Board;
use crate::line::{tell_broken, tell_outcome};
use lf_config::{ConfigFault, read};
use lf_rules::Shape;
use lf_verdict::{Asked, Broken, Outcome, Refusal, Session};
use std::alloc::Global;

/// The version of the library, as major * 10000 + minor * 100 + patch.
#[unsafe(no_mangle)]
pub extern "C" fn wudzark_version() -> u32
    ensures { result ≡ 300 }
{
    300
}

/// The answer of a refusal, with its line.
fn refused(alloc: Global, refusal: Refusal, line: &mut [u8]) -> Answer
    ensures { IsLine 2 (outcome_text (Outcome.Refused refusal)) result line.old line.new }
{
    Answer {
        status: REFUSED,
        length: tell_outcome(alloc, &Outcome::Refused(refusal), line),
    }
}

/// The hierarchy that the text says.
fn shape_in(alloc: Global, text: &str) -> Result<Shape, Refusal>
    ensures shape { IfOk result (λ shape. configuration_of text.now ≡ Ok shape) }
    ensures in_range { IfOk result IsShape }
    ensures refused { IfErr result (IsConfigRefusal text.now) }
{
    Ok(read(alloc, text)?)
}

/// A session on the heap, for the hierarchy that the bytes say. It keeps no order, which no call tells.
fn session_for(alloc: Global, config: &[u8]) -> Result<Box<Session>, Refusal>
    ensures ok { IfOk result (λ s. IsOpened config.now s.value) }
    ensures err { IfErr result (IsNoConfiguration config.now) }
{
    let Ok(text) = std::str::from_utf8(config) else {
        return Err(Refusal::Config(ConfigFault::NotToml));
    };
    let shape = shape_in(alloc, text)?;
    let asked = Asked {
        ordered: false,
        watched: true,
        counted: false,
    };
    let session = Session::asking(alloc, &shape, asked);
    match Box::new(alloc, session) {
        Ok(session) => Ok(session),
        Err(_) => Err(Refusal::Memory),
    }
}

/// Opens a board for the hierarchy that the configuration says. Status 0: it is open, and was fed nothing. Status 2:
/// it is not, and the line says why. Status 3: it was open before, and nothing changes.
#[unsafe(no_mangle)]
pub extern "C" fn wudzark_open(
    alloc: Global,
    board: &mut Board,
    config: &[u8],
    line: &mut [u8],
) -> Answer
    ensures { IsOpening config.now board.old.held.session board.new.held.session result line.old line.new }
{
    if board.live {
        return Answer::silent(MISUSED);
    }
    match session_for(alloc, config) {
        Ok(session) => {
            *board = Board::with(session);
            Answer::silent(FINE)
        }
        Err(refusal) => refused(alloc, refusal, line),
    }
}

/// Feeds the session, and answers the status.
fn feed(session: &mut Session, piece: &[u8]) -> u32
    ensures { IsFedMore piece.now session.old session.new result }
{
    match session.feed(piece) {
        Ok(()) => FINE,
        Err(_) => REFUSED,
    }
}

/// Feeds the board the next piece of its trace, of any length. Status 0: the bytes so far may begin a trace. Status 2:
/// a fault of the format stands in them, or memory ran out, and from then on nothing is taken; `wudzark_feed_told` and
/// `wudzark_finish` say which. Status 3: the board is not open.
#[unsafe(no_mangle)]
pub extern "C" fn wudzark_feed(alloc: Global, board: &mut Board, piece: &[u8]) -> u32
    ensures { IsFeeding piece.now board.old.held.session board.new.held.session result }
{
    if !board.live {
        return MISUSED;
    }
    let mut session = board.take(alloc);
    let status = feed(&mut session, piece);
    *board = Board::with(session);
    status
}

/// Feeds the session, and tells why it is refused, where something stopped it, now or before.
fn feed_told(alloc: Global, session: &mut Session, piece: &[u8], line: &mut [u8]) -> Answer
    ensures { IsFedTold piece.now session.old session.new result line.old line.new }
{
    match session.feed(piece) {
        Ok(()) => Answer::silent(FINE),
        Err(told) => refused(alloc, told.fault(), line),
    }
}

/// Feeds the board as `wudzark_feed` does. With status 2 the line says why the bytes are refused, or why those before
/// them were, so a piece of no bytes only asks.
#[unsafe(no_mangle)]
pub extern "C" fn wudzark_feed_told(
    alloc: Global,
    board: &mut Board,
    piece: &[u8],
    line: &mut [u8],
) -> Answer
    ensures { IsFeedingTold piece.now board.old.held.session board.new.held.session result line.old line.new }
{
    if !board.live {
        return Answer::silent(MISUSED);
    }
    let mut session = board.take(alloc);
    let answer = feed_told(alloc, &mut session, piece, line);
    *board = Board::with(session);
    answer
}

/// What broke of the session's trace for good.
fn broken(session: &Session) -> Option<Broken>
    requires { session.now.asked.watched ≡ true }
    ensures some { IfSome result (IsBroken session.now) }
    ensures none { CanTell session.now.asked session.now.stop
        → IfNone result (NoneBrokeSoFar session.now.shape session.now.fed) }
{
    session.broken()
}

/// Whether something broke for good: whatever bytes follow, no yes does. Then the line says what broke, with status 1
/// for a part that is at fault and 2 for a header of another hierarchy. Status 0: no part of the records so far is at
/// fault, or memory ran out in a feed. Status 3: the board is not open. The board stays as it is. After a feed that
/// refused a fault of the format, it tells what stands before that, so what is told does not depend on how the bytes
/// were cut.
#[unsafe(no_mangle)]
pub extern "C" fn wudzark_broken(alloc: Global, board: &mut Board, line: &mut [u8]) -> Answer
    ensures same { board.new.held.session ≡ board.old.held.session }
    ensures asked { IsAsking board.old.held.session result line.old line.new }
{
    if !board.live {
        return Answer::silent(MISUSED);
    }
    let session = board.take(alloc);
    let found = broken(&session);
    *board = Board::with(session);
    match found {
        Some(found) => Answer {
            status: broken_status(&found),
            length: tell_broken(alloc, &found, line),
        },
        None => Answer::silent(FINE),
    }
}

/// The verdict of the bytes that the session was fed.
fn finish(session: Session) -> Outcome
    ensures { IsJudged session result }
{
    session.conclude().outcome
}

/// The verdict of the bytes that the board was fed, with its line: status 0 for a yes, 1 for a no, 2 for a refusal. The
/// board is closed, and what it had is freed. Status 3: it was not open.
#[unsafe(no_mangle)]
pub extern "C" fn wudzark_finish(alloc: Global, board: &mut Board, line: &mut [u8]) -> Answer
    ensures closed { board.new.held.session ≡ None }
    ensures verdict { IsFinishing board.old.held.session result line.old line.new }
{
    if !board.live {
        return Answer::silent(MISUSED);
    }
    let session = board.take(alloc);
    let outcome = finish(Box::into_inner(session));
    Answer {
        status: status_of(&outcome),
        length: tell_outcome(alloc, &outcome, line),
    }
}

/// Closes the board without a verdict, and frees what it had. Status 3: it was not open.
#[unsafe(no_mangle)]
pub extern "C" fn wudzark_abort(alloc: Global, board: &mut Board) -> u32
    ensures closed { board.new.held.session ≡ None }
    ensures status { result ≡ abort_status board.old.held.session }
{
    if !board.live {
        return MISUSED;
    }
    drop(board.take(alloc));
    FINE
}
