//! The four ends of a call, each in a thread of its own.
//!
//! It is there to state what four threads do; a server's own loops decide what a refusal means.

ghost use Rattle.std.specs.Prelude.{
  ◌≡◌,
  ℕ,
  true,
  List,
  [],
  ◌∷◌,
  ◌++◌,
  None,
  Some,
  ◌≤◌,
  length,
  map,
  take,
  All,
  IfOk,
  MatchBool,
  MatchOption,
};
ghost use mathlib.Core.List.{IsPrefix};
ghost use Rattle.lane.specs.End.{of_end};
ghost use Rattle.callbox.specs.InSides.{TakesMessages, pieces_of};
ghost use Rattle.call_rows.specs.Runs.{IsFed, RunsIn, answer_items, message_items};
ghost use Rattle.callbox.specs.OutSides.{has_head};
ghost use Rattle.callbox.specs.OutAccounts.{CountsOut};
ghost use Rattle.account.specs.declared.call.OutItem.{OutItem};
ghost use Rattle.callbox.specs.declared.piece.InPiece.TheVariants as in_piece;

use account::{OutItem, Shut};
use bytes::Bytes;
use callbox::{
    FedShut, Feeder, GivenShut, Giver, InAccount, InPiece, OutAccount, Sender, Taken, Taker,
    open_call, settle_in, settle_out,
};
use lane::{End, Lane, PutFault};
use lists::{Field, Sequence};
use std::alloc::{AllocError, Global};
use std::sync::Wait;
use std::sync::atomic::{AtomicBool, Ordering};
use std::thread;
use std::thread::Threads;

/// What the client of a call sends.
#[derive(Debug, Drop)]
pub struct Request {
    pub pieces: Vec<Bytes>,
    pub shut: Shut,
}

/// What a call is answered with.
#[derive(Debug, Drop)]
pub struct Answer {
    pub head: Sequence<Field>,
    pub messages: Vec<Bytes>,
    pub trailers: Sequence<Field>,
}

/// What became of a call.
#[derive(Debug, Drop)]
pub struct CallOutcome {
    /// The in side of its account, counted.
    pub input: InAccount,
    /// The messages that were taken.
    pub taken: Vec<Bytes>,
    /// The out side of its account, counted.
    pub output: OutAccount,
    /// The items that were sent.
    pub sent: Vec<OutItem>,
}

/// Feeds the pieces, and says that nothing follows.
fn feed_all<L: Lane<Item = InPiece>>(
    feeder: Feeder<L>,
    request: Request,
    stopped: &AtomicBool,
) -> Result<End<Feeder<L>, FedShut<L>>, AllocError>
    requires { L.put_in feeder.tx ≡ [] }
    ensures name { IfOk result (λ end. of_end (λ f. L.in_name f.tx) (λ s. L.shut_name s.shut) end
        ≡ L.in_name feeder.tx) }
    ensures fed { IfOk result (λ end. IsFed request.pieces.items request.shut
        (pieces_of (of_end (λ f. L.put_in f.tx) (λ s. L.put_shut s.shut) end))
        (of_end (λ _. None) (λ s. Some s.kind) end)) }
    ensures room { IfOk result (λ end. (L.MayMiss → ⊥)
        → length request.pieces.items ≤ L.room_of (L.in_name feeder.tx)
        → of_end (λ _. None) (λ s. Some s.kind) end ≡ Some request.shut) }
{
    let end = feed_half(feeder, request);
    stopped.store(true, Ordering::SeqCst);
    end
}

/// Feeds the pieces, and shuts the half; or leaves it open where a piece is refused.
fn feed_half<L: Lane<Item = InPiece>>(
    feeder: Feeder<L>,
    request: Request,
) -> Result<End<Feeder<L>, FedShut<L>>, AllocError>
    requires { L.put_in feeder.tx ≡ [] }
    ensures name { IfOk result (λ end. of_end (λ f. L.in_name f.tx) (λ s. L.shut_name s.shut) end
        ≡ L.in_name feeder.tx) }
    ensures fed { IfOk result (λ end. IsFed request.pieces.items request.shut
        (pieces_of (of_end (λ f. L.put_in f.tx) (λ s. L.put_shut s.shut) end))
        (of_end (λ _. None) (λ s. Some s.kind) end)) }
    ensures room { IfOk result (λ end. (L.MayMiss → ⊥)
        → length request.pieces.items ≤ L.room_of (L.in_name feeder.tx)
        → of_end (λ _. None) (λ s. Some s.kind) end ≡ Some request.shut) }
{
    let Request { pieces, shut } = request;
    let mut feeder = feeder;
    if !feed_pieces(&mut feeder, pieces.as_slice())? {
        return Ok(End::Open(feeder));
    }
    Ok(End::Shut(shut_by(feeder, shut)))
}

/// Shuts the half in this way.
fn shut_by<L: Lane<Item = InPiece>>(feeder: Feeder<L>, kind: Shut) -> FedShut<L>
    ensures name { L.shut_name result.shut ≡ L.in_name feeder.tx }
    ensures kind { result.kind ≡ kind }
    ensures put { MatchBool (L.was_placed result.shut)
        (L.put_shut result.shut ≡ L.put_in feeder.tx ++ in_piece.Shut kind ∷ [])
        (L.put_shut result.shut ≡ L.put_in feeder.tx) }
{
    match kind {
        Shut::End => feeder.end(),
        Shut::Reset(code) => feeder.reset(code),
    }
}

/// Feeds the pieces up to the first that is refused, and says whether it fed all.
fn feed_pieces<L: Lane<Item = InPiece>>(
    feeder: &mut Feeder<L>,
    pieces: &[Bytes],
) -> Result<bool, AllocError>
    requires { L.put_in feeder.old.tx ≡ [] }
    ensures name { IfOk result (λ _. L.in_name feeder.new.tx ≡ L.in_name feeder.old.tx) }
    ensures some { IfOk result (λ _. (count : ℕ)
        × (L.put_in feeder.new.tx ≡ map in_piece.Bytes (take count pieces.now))) }
    ensures all { IfOk result (λ all. all ≡ true
        → L.put_in feeder.new.tx ≡ map in_piece.Bytes pieces.now) }
    ensures room { IfOk result (λ all. (L.MayMiss → ⊥)
        → length pieces.now ≤ L.room_of (L.in_name feeder.old.tx)
        → all ≡ true) }
{
    for piece in pieces {
        match feeder.feed(piece.clone()?) {
            Ok(()) => {}
            Err(PutFault::OutOfMemory(_)) => return Err(AllocError),
            Err(_) => return Ok(false),
        }
    }
    Ok(true)
}

/// Takes until something is told, or until nothing can come.
fn take_all<L: Lane<Item = InPiece>, R: Wait>(
    rt: &R,
    alloc: Global,
    taker: Taker<L>,
    stopped: &AtomicBool,
) -> Result<(Taker<L>, Vec<Bytes>), AllocError>
    requires { TakesMessages (L.got taker.rx) taker.progress [] }
    ensures name { IfOk result (λ r. L.out_name r.0.rx ≡ L.out_name taker.rx) }
    ensures took { IfOk result (λ r. TakesMessages (L.got r.0.rx) r.0.progress r.1.items) }
{
    let mut taker = taker;
    let mut taken = Vec::new(alloc);
    for _ in rt.forever() {
        let no_more = stopped.load(Ordering::SeqCst);
        match taker.take() {
            Taken::Message(message) => taken.push(message)?,
            Taken::Nothing => {
                if no_more {
                    return Ok((taker, taken));
                }
                thread::yield_now();
            }
            Taken::End | Taken::Reset(_) | Taken::Fault(_) => return Ok((taker, taken)),
        }
    }
    unreachable!()
}

/// Gives the answer up to the first item that is refused.
fn give_all<L: Lane<Item = OutItem>>(
    giver: Giver<L>,
    answer: Answer,
    stopped: &AtomicBool,
) -> End<Giver<L>, GivenShut<L>>
    requires first { L.put_in giver.tx ≡ [] }
    requires within { All (λ m. length m ≤ 4194304) answer.messages.items }
    ensures name { of_end (λ g. L.in_name g.tx) (λ s. L.shut_name s.shut) result
        ≡ L.in_name giver.tx }
    ensures given { IsPrefix (of_end (λ g. L.put_in g.tx) (λ s. L.put_shut s.shut) result)
        (answer_items answer.head answer.messages.items answer.trailers) }
{
    let given = give_answer(giver, answer);
    stopped.store(true, Ordering::SeqCst);
    given
}

fn give_answer<L: Lane<Item = OutItem>>(
    giver: Giver<L>,
    answer: Answer,
) -> End<Giver<L>, GivenShut<L>>
    requires first { L.put_in giver.tx ≡ [] }
    requires within { All (λ m. length m ≤ 4194304) answer.messages.items }
    ensures name { of_end (λ g. L.in_name g.tx) (λ s. L.shut_name s.shut) result
        ≡ L.in_name giver.tx }
    ensures given { IsPrefix (of_end (λ g. L.put_in g.tx) (λ s. L.put_shut s.shut) result)
        (answer_items answer.head answer.messages.items answer.trailers) }
{
    let Answer {
        head,
        messages,
        trailers,
    } = answer;
    let mut giver = giver;
    match giver.head(head) {
        Ok(()) => {}
        Err(_) => return End::Open(giver),
    }
    if !give_messages(&mut giver, messages.as_slice()) {
        return End::Open(giver);
    }
    End::Shut(giver.trailers(trailers))
}

/// Gives the messages up to the first that is refused, or whose sharing runs out of memory, and
/// says whether it gave all.
fn give_messages<L: Lane<Item = OutItem>>(giver: &mut Giver<L>, messages: &[Bytes]) -> bool
    requires head { has_head (L.put_in giver.old.tx) ≡ true }
    requires within { All (λ m. length m ≤ 4194304) messages.now }
    ensures name { L.in_name giver.new.tx ≡ L.in_name giver.old.tx }
    ensures given { (count : ℕ)
        × (L.put_in giver.new.tx ≡ L.put_in giver.old.tx
        ++ message_items (take count messages.now)) }
    ensures all { result ≡ true
        → L.put_in giver.new.tx ≡ L.put_in giver.old.tx ++ message_items messages.now }
{
    for message in messages {
        let Ok(message) = message.clone() else {
            return false;
        };
        if giver.give(message).is_err() {
            return false;
        }
    }
    true
}

/// A copy of the next item, or nothing.
fn next_copy<L: Lane<Item = OutItem>>(sender: &mut Sender<L>) -> Result<Option<OutItem>, AllocError>
    ensures name { L.out_name sender.new.rx ≡ L.out_name sender.old.rx }
    ensures got { IfOk result (λ next. MatchOption next
        (L.got sender.new.rx ≡ L.got sender.old.rx)
        (λ item. L.got sender.new.rx ≡ L.got sender.old.rx ++ item ∷ [])) }
{
    match sender.next() {
        Some(item) => Ok(Some(item.copy()?)),
        None => Ok(None),
    }
}

/// Sends until nothing can come.
fn send_all<L: Lane<Item = OutItem>, R: Wait>(
    rt: &R,
    alloc: Global,
    sender: Sender<L>,
    stopped: &AtomicBool,
) -> Result<(Sender<L>, Vec<OutItem>), AllocError>
    ensures name { IfOk result (λ r. L.out_name r.0.rx ≡ L.out_name sender.rx) }
    ensures sent { IfOk result (λ r. L.got r.0.rx ≡ L.got sender.rx ++ r.1.items) }
{
    let mut sender = sender;
    let mut sent = Vec::new(alloc);
    for _ in rt.forever() {
        let no_more = stopped.load(Ordering::SeqCst);
        match next_copy(&mut sender)? {
            Some(item) => sent.push(item)?,
            None => {
                if no_more {
                    break;
                }
                thread::yield_now();
            }
        }
    }
    Ok((sender, sent))
}

/// The in side of a call, in two threads.
fn run_in<L: Lane<Item = InPiece> + Send, R: Threads + Wait + Sync>(
    rt: &R,
    alloc: Global,
    feeder: Feeder<L>,
    taker: Taker<L>,
    request: Request,
) -> Result<(InAccount, Vec<Bytes>), AllocError>
    requires one_call { L.in_name feeder.tx ≡ L.out_name taker.rx }
    requires unfed { L.put_in feeder.tx ≡ [] }
    requires took { TakesMessages (L.got taker.rx) taker.progress [] }
    ensures account { IfOk result (λ r. RunsIn request.pieces.items request.shut r.1.items r.0) }
    ensures room { IfOk result (λ r. (L.MayMiss → ⊥)
        → length request.pieces.items ≤ L.room_of (L.in_name feeder.tx)
        → r.0.shut ≡ Some request.shut) }
{
    let stopped = AtomicBool::new(false);
    let (end, took) = thread::join(
        rt,
        || -> Result<End<Feeder<L>, FedShut<L>>, AllocError>
            requires { L.put_in feeder.tx ≡ [] }
            ensures name { IfOk result
                (λ end. of_end (λ f. L.in_name f.tx) (λ s. L.shut_name s.shut) end
                ≡ L.in_name feeder.tx) }
            ensures fed { IfOk result (λ end. IsFed request.pieces.items request.shut
                (pieces_of (of_end (λ f. L.put_in f.tx) (λ s. L.put_shut s.shut) end))
                (of_end (λ _. None) (λ s. Some s.kind) end)) }
            ensures room { IfOk result (λ end. (L.MayMiss → ⊥)
                → length request.pieces.items ≤ L.room_of (L.in_name feeder.tx)
                → of_end (λ _. None) (λ s. Some s.kind) end ≡ Some request.shut) }
        { feed_all(feeder, request, &stopped) },
        || -> Result<(Taker<L>, Vec<Bytes>), AllocError>
            requires { TakesMessages (L.got taker.rx) taker.progress [] }
            ensures name { IfOk result (λ r. L.out_name r.0.rx ≡ L.out_name taker.rx) }
            ensures took { IfOk result (λ r. TakesMessages (L.got r.0.rx) r.0.progress r.1.items) }
        { take_all(rt, alloc, taker, &stopped) },
    );
    let end = end?;
    let (taker, taken) = took?;
    let account = settle_in(end, taker);
    Ok((account, taken))
}

/// The out side of a call, in two threads.
fn run_out<L: Lane<Item = OutItem> + Send, R: Threads + Wait + Sync>(
    rt: &R,
    alloc: Global,
    giver: Giver<L>,
    sender: Sender<L>,
    answer: Answer,
) -> Result<(OutAccount, Vec<OutItem>), AllocError>
    requires one_call { L.in_name giver.tx ≡ L.out_name sender.rx }
    requires ungiven { (L.put_in giver.tx ≡ []) × (L.got sender.rx ≡ []) }
    requires within { All (λ m. length m ≤ 4194304) answer.messages.items }
    ensures account { IfOk result (λ r. (given : List OutItem)
        × IsPrefix given (answer_items answer.head answer.messages.items answer.trailers)
        × CountsOut given r.1.items r.0) }
{
    let stopped = AtomicBool::new(false);
    let (end, sent) = thread::join(
        rt,
        || -> End<Giver<L>, GivenShut<L>>
            requires first { L.put_in giver.tx ≡ [] }
            requires within { All (λ m. length m ≤ 4194304) answer.messages.items }
            ensures name { of_end (λ g. L.in_name g.tx) (λ s. L.shut_name s.shut) result
                ≡ L.in_name giver.tx }
            ensures given { IsPrefix (of_end (λ g. L.put_in g.tx) (λ s. L.put_shut s.shut) result)
                (answer_items answer.head answer.messages.items answer.trailers) }
        { give_all(giver, answer, &stopped) },
        || -> Result<(Sender<L>, Vec<OutItem>), AllocError>
            ensures name { IfOk result (λ r. L.out_name r.0.rx ≡ L.out_name sender.rx) }
            ensures sent { IfOk result (λ r. L.got r.0.rx ≡ L.got sender.rx ++ r.1.items) }
        { send_all(rt, alloc, sender, &stopped) },
    );
    let (sender, sent) = sent?;
    let account = settle_out(end, sender);
    Ok((account, sent))
}

/// Runs one call whose four ends are in four threads, and settles both of its sides.
///
/// The pieces are fed, and then the half is shut; where a piece is refused, the half stays open.
/// The answer is given up to the first item that is refused. It waits for what the other threads
/// do, but for no room in a lane.
pub fn run_call<
    I: Lane<Item = InPiece> + Send,
    O: Lane<Item = OutItem> + Send,
    R: Threads + Wait + Sync,
>(
    rt: &R,
    alloc: Global,
    rooms: (usize, usize),
    request: Request,
    answer: Answer,
) -> Result<CallOutcome, AllocError>
    requires within { All (λ m. length m ≤ 4194304) answer.messages.items }
    ensures in_side { IfOk result
        (λ r. RunsIn request.pieces.items request.shut r.taken.items r.input) }
    // Where there is room for all pieces, all are fed.
    ensures room { IfOk result (λ r. (I.MayMiss → ⊥) → length request.pieces.items ≤ rooms.0
        → r.input.shut ≡ Some request.shut) }
    ensures out_side { IfOk result (λ r. (given : List OutItem)
        × IsPrefix given (answer_items answer.head answer.messages.items answer.trailers)
        × CountsOut given r.sent.items r.output) }
{
    let (feeder, taker, giver, sender) = open_call::<I, O>(alloc, 1, rooms.0, rooms.1)?;
    let (input, output) = thread::join(
        rt,
        || -> Result<(InAccount, Vec<Bytes>), AllocError>
            requires one_call { I.in_name feeder.tx ≡ I.out_name taker.rx }
            requires unfed { I.put_in feeder.tx ≡ [] }
            requires took { TakesMessages (I.got taker.rx) taker.progress [] }
            ensures account { IfOk result
                (λ r. RunsIn request.pieces.items request.shut r.1.items r.0) }
            ensures room { IfOk result (λ r. (I.MayMiss → ⊥)
                → length request.pieces.items ≤ I.room_of (I.in_name feeder.tx)
                → r.0.shut ≡ Some request.shut) }
        { run_in(rt, alloc, feeder, taker, request) },
        || -> Result<(OutAccount, Vec<OutItem>), AllocError>
            requires one_call { O.in_name giver.tx ≡ O.out_name sender.rx }
            requires ungiven { (O.put_in giver.tx ≡ []) × (O.got sender.rx ≡ []) }
            requires within { All (λ m. length m ≤ 4194304) answer.messages.items }
            ensures account { IfOk result (λ r. (given : List OutItem)
                × IsPrefix given (answer_items answer.head answer.messages.items answer.trailers)
                × CountsOut given r.1.items r.0) }
        { run_out(rt, alloc, giver, sender, answer) },
    );
    let (input, taken) = input?;
    let (output, sent) = output?;
    Ok(CallOutcome {
        input,
        taken,
        output,
        sent,
    })
}
