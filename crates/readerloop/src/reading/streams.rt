//! What the reading side decides of a stream that begins.

ghost use Rattle.std.specs.Prelude.{
  ◌≡◌,
  ◌<◌,
  ℕ,
  List,
  [],
  ◌∷◌,
  ◌++◌,
  false,
  length,
  None,
  Some,
  IfErr,
  IfOk,
  IfSome,
  IsSomeAnd,
  OnErr,
  OnOk,
  option_map,
  slice_get,
  vec_capacity,
  vec_len,
};
ghost use Rattle.callhead.specs.declared.head.CallHead.{CallHead as Head};
ghost use Rattle.callhead.specs.StatusFields.{refusal_of, unknown_method as unknown_fields};
ghost use Rattle.lane.specs.RingLane.{got, in_name, out_name, put_in, room_of};
ghost use Rattle.callparts.specs.Workers.{IsFreshWork};
ghost use Rattle.callparts.specs.declared.report.Ending.TheVariants as ending;
ghost use Rattle.outwriter.specs.Steps.{order_of};
ghost use Rattle.outwriter.specs.declared.control.WriterOrder.TheVariants as orders;
ghost use Rattle.session.specs.declared.event.InEvent.TheVariants as events;
ghost use Rattle.readerloop.specs.Calls.{SentItems, carried_in};
ghost use Rattle.readerloop.specs.Kept.{Kept};
ghost use Rattle.readerloop.specs.Orders.{
  begun,
  ends_at,
  last_stream,
  named,
  named_with,
  orders_at,
  without_head,
};
ghost use Rattle.readerloop.specs.Readings.{
  Begins,
  Counts,
  Decides,
  DecidesOn,
  HasSameRest,
  IsNext,
  KeepsNext,
  Opens,
  Stays,
  goaway_in,
  refused_by,
  unless_ended,
};
ghost use Rattle.readerloop.specs.WorkerHandles.{HasPlaces, HasPlacesAt};
ghost use Rattle.readerloop.specs.Steps.{
  Admitted,
  Lacking,
  NoWorker,
  Plain,
  Step,
  Stopped,
  Told,
  TurnedAway,
  Unknown,
  Unserved,
  is_draining,
};

use super::Reading;
use crate::call::Call;
use crate::decision::Decision;
use crate::feeder_half::FeederHalf;
use crate::worker_pool::WorkerHandle;
use callbox::{Feeder, Sender, open_call};
use callhead::{CallHead, HeadFault, unknown_method};
use callparts::{
    Answering, Ending, Front, InLane, Job, Line, Naming, OpeningCall, Order, OutLane, Register,
    Request, SendingEnd, Work,
};
use connbook::{AdmitFault, CallKey, RefusedCall};
use h2frame::{ErrorCode, StreamId};
use limits::MAX_STREAMS;
use lists::Sequence;
use outwriter::WriterOrder;
use reasons::Reason;
use std::alloc::{AllocError, Global};
use std::sync::Arc;

/// Room for the pieces of a call's DATA: one for each byte that a window lets through.
const IN_ROOM: usize = 65_536;

/// Room for the replies of a call: this many messages at most wait to be written.
const OUT_ROOM: usize = 16;

/// The ends of the lanes of a call that begins: the feeder, those for its worker, and the sender.
#[derive(Drop)]
struct Ends<J: Naming> {
    feeder: Feeder<InLane>,
    job: Job<J>,
    sending: Box<SendingEnd<J>>,
}

impl<J: Naming, M: Answering> Reading<J, M> {
    /// A stream begins with the head of a call, at the moment `opened`. `index` is the method that
    /// its path names, if any. The lock is to admit a call of a method, and there is room for its
    /// account; any other call is refused. Once the server drains each call is turned away.
    pub fn open(
        &mut self,
        id: StreamId,
        head: CallHead,
        index: Option<usize>,
        opened: u64,
    ) -> Result<Request, Decision<J>>
        requires named { IfSome index (λ index. M.names head.path index) }
        ensures request { IfOk result (λ request. (request.id ≡ id) × (request.head ≡ head)
            × (index ≡ Some request.index)) }
        ensures next { OnOk result (IsNext id self.new) }
        ensures stays { OnOk result (Stays M.known M.names self.old self.new) }
        ensures refused { IfErr result (λ decided. DecidesOn M.known M.names
            (Told (events.Open id head)
            (unless_ended decided.ends (refused_by self.old.is_draining)))
            decided self.old self.new) }
        // Only a call whose path names no method is refused as such.
        ensures unnamed { IfErr result (λ decided. decided.ends ≡ None
            → self.old.is_draining ≡ false → index ≡ None) }
        ensures home { self.new.home ≡ self.old.home }
    {
        if id <= self.calls.last {
            return Err(self.lack(id));
        }
        if self.is_draining {
            return Err(self.decline(id, AdmitFault::Draining));
        }
        let Some(index) = index else {
            return Err(self.refuse_unknown(id));
        };
        if let Err(AllocError) = self.calls.reserve_account() {
            return Err(self.lack(id));
        }
        Ok(Request {
            id,
            index,
            head,
            opened,
        })
    }

    /// Refuses a call whose path names no method.
    fn refuse_unknown(&mut self, id: StreamId) -> Decision<J>
        ensures decides { (head : Head) → DecidesOn M.known M.names
            (Told (events.Open id head) (unless_ended result.ends Unknown)) result self.old
            self.new }
        ensures home { self.new.home ≡ self.old.home }
    {
        match unknown(self.alloc, id) {
            Ok(order) => self.begin(id, order),
            Err(AllocError) => self.lack(id),
        }
    }

    /// The lock didn't admit a call.
    pub fn turn_away(&mut self, refused: &RefusedCall) -> Decision<J>
        ensures decides { (head : Head) → DecidesOn M.known M.names
            (Told (events.Open refused.now.id head) (TurnedAway refused.now.fault)) result
            self.old self.new }
        ensures home { self.new.home ≡ self.old.home }
    {
        self.decline(refused.id(), refused.fault())
    }

    /// A call isn't admitted, for this fault. Want of memory ends the connection, and so does a
    /// stream whose id isn't greater than those before it (RFC 9113, section 5.1.1).
    fn decline(&mut self, id: StreamId, fault: AdmitFault) -> Decision<J>
        ensures decides { (head : Head) → DecidesOn M.known M.names
            (Told (events.Open id head) (TurnedAway fault)) result self.old self.new }
        ensures home { self.new.home ≡ self.old.home }
    {
        let code = ErrorCode::RefusedStream;
        let written = true;
        match fault {
            AdmitFault::TooMany => self.begin(id, WriterOrder::Reset { id, code, written }),
            AdmitFault::Draining => self.begin(id, WriterOrder::Reset { id, code, written }),
            AdmitFault::NotNew => {
                let error = ErrorCode::ProtocolError;
                self.end_at(id, Reason::Code(error), Ending::ProtocolError(error))
            }
            AdmitFault::OutOfMemory => self.end_at(id, Reason::Memory, Ending::OutOfMemory),
        }
    }

    /// The number of a worker that is free.
    pub fn free(&mut self) -> Option<usize>
        ensures places { IfSome result (λ number. HasPlacesAt number self.new.workers) }
        ensures rest { self.new ≡ record self.old { workers = self.new.workers } }
    {
        self.workers.free()
    }

    /// Whether there are 64 workers, which is the most.
    pub fn is_full(&self) -> bool
        ensures room { result ≡ false → length self.now.workers.workers.items < 64 }
    {
        self.workers.is_full()
    }

    /// Makes room for one worker more.
    pub fn reserve(&mut self) -> Result<(), AllocError>
        ensures room { OnOk result
            (vec_len self.new.workers.workers < vec_capacity self.new.workers.workers) }
        ensures rest { self.new ≡ record self.old { workers = self.new.workers } }
    {
        self.workers.reserve()
    }

    /// Adds a worker, for which there is room. Its number.
    pub fn add(&mut self, handle: WorkerHandle<J, M>) -> usize
        requires room { vec_len self.old.workers.workers < vec_capacity self.old.workers.workers }
        ensures places { HasPlaces handle → HasPlacesAt result self.new.workers }
        ensures rest { self.new ≡ record self.old { workers = self.new.workers } }
    {
        self.workers.add(handle)
    }

    /// Hands a call that was admitted to the worker of this number, which is free. Without memory
    /// for its lanes the call isn't served.
    pub fn engage(&mut self, number: usize, request: Request) -> Result<Decision<J>, AllocError>
        requires named { M.names request.head.path request.index }
        requires next { IsNext request.id self.old }
        requires places { HasPlacesAt number self.old.workers }
        ensures engaged { IfOk result (λ decided. DecidesOn M.known M.names
            (Told (events.Open request.id request.head) Admitted) decided self.old self.new) }
        ensures opens { IfOk result (λ decided. IsSomeAnd decided.order
            (Opens request)) }
        ensures stays { OnErr result (Stays M.known M.names self.old self.new) }
        ensures next { OnErr result (KeepsNext self.old self.new) }
        ensures home { self.new.home ≡ self.old.home }
    {
        let id = request.id;
        let opening = self.start(number, request)?;
        Ok(self.begin(id, WriterOrder::Open(id, opening)))
    }

    /// Opens the lanes of a call, and hands two of their ends to its worker. Answers what the
    /// writing side gets of it.
    fn start(&mut self, number: usize, request: Request) -> Result<OpeningCall<J>, AllocError>
        requires named { M.names request.head.path request.index }
        requires next { IsNext request.id self.old }
        requires places { HasPlacesAt number self.old.workers }
        ensures heard { OnOk result ((sent : List SentItems) (told : List Step)
            → is_draining told ≡ false
            → Kept M.known M.names (carried_in sent) told self.old.calls
            → Kept M.known M.names (carried_in sent)
            (Told (events.Open request.id request.head) Admitted ∷ told) self.new.calls) }
        ensures opens { IfOk result (λ opening. Opens request (orders.Open request.id opening)) }
        ensures kept { OnErr result ((sent : List SentItems) (told : List Step)
            → Kept M.known M.names (carried_in sent) told self.old.calls
            → Kept M.known M.names (carried_in sent) told self.new.calls) }
        ensures next { OnErr result (KeepsNext self.old self.new) }
        ensures rest { HasSameRest self.old self.new }
    {
        self.calls.reserve()?;
        self.start_in_room(number, request)
    }

    /// Opens the lanes of a call for which there is room, and hands two of their ends to its
    /// worker. Answers what the writing side gets of it.
    fn start_in_room(
        &mut self,
        worker: usize,
        request: Request,
    ) -> Result<OpeningCall<J>, AllocError>
        requires named { M.names request.head.path request.index }
        requires next { IsNext request.id self.old }
        requires places { HasPlacesAt worker self.old.workers }
        requires room { vec_len self.old.calls.calls < vec_capacity self.old.calls.calls }
        ensures heard { OnOk result ((sent : List SentItems) (told : List Step)
            → is_draining told ≡ false
            → Kept M.known M.names (carried_in sent) told self.old.calls
            → Kept M.known M.names (carried_in sent)
            (Told (events.Open request.id request.head) Admitted ∷ told) self.new.calls) }
        ensures opens { IfOk result (λ opening. Opens request (orders.Open request.id opening)) }
        ensures calls { OnErr result (self.new.calls ≡ self.old.calls) }
        ensures rest { HasSameRest self.old self.new }
    {
        let line = self.line(worker)?;
        let key = self.key.of_call(request.id);
        let ends = open_lanes(self.alloc, &self.register, &mut self.front, request, key)?;
        let Ends {
            feeder,
            job,
            sending,
        } = ends;
        self.enter(worker, feeder, job);
        Ok(OpeningCall { sending, line })
    }

    /// What wakes the worker of this number.
    fn line(&self, number: usize) -> Result<Arc<Line>, AllocError> {
        let Some(line) = self.workers.line(number) else {
            return Err(AllocError);
        };
        Arc::try_clone(line)
    }

    /// Adds a call, for which there is room, to those that aren't settled, and hands it to its
    /// worker, which is free.
    fn enter(&mut self, worker: usize, feeder: Feeder<InLane>, job: Job<J>)
        requires named { M.names job.work.request.head.path job.work.request.index }
        requires next { IsNext job.work.request.id self.old }
        requires places { HasPlacesAt worker self.old.workers }
        requires room { vec_len self.old.calls.calls < vec_capacity self.old.calls.calls }
        requires fresh { IsFreshWork job.work }
        requires one_lane { in_name feeder.tx ≡ out_name job.work.taker.rx }
        requires unfed { put_in feeder.tx ≡ [] }
        ensures heard { (sent : List SentItems) (told : List Step)
            → is_draining told ≡ false
            → Kept M.known M.names (carried_in sent) told self.old.calls
            → Kept M.known M.names (carried_in sent)
            (Told (events.Open job.work.request.id job.work.request.head) Admitted ∷ told)
            self.new.calls }
        ensures rest { HasSameRest self.old self.new }
    {
        let id = job.work.request.id;
        let method = job.work.request.index;
        let number = job.number.again();
        let place = self.calls.next_place();
        self.calls.add::<M>(Call {
            id,
            method,
            number,
            place,
            worker_number: worker,
            half: FeederHalf::Open(feeder),
            finished: None,
            returning: None,
        });
        self.workers.hand(worker, job);
    }

    /// No worker could be started for a call of this method, which was admitted: its account says
    /// so, and the connection ends.
    pub fn lose(&mut self, id: StreamId, method: usize) -> Decision<J>
        requires next { IsNext id self.old }
        ensures memory { result.ends ≡ Some ending.OutOfMemory }
        ensures unserved { (head : Head) → M.names head.path method → DecidesOn M.known M.names
            (Told (events.Open id head) (Unserved NoWorker)) result self.old self.new }
        ensures home { self.new.home ≡ self.old.home }
    {
        self.calls.pass_over::<M>(id, method);
        self.end_at(id, Reason::Memory, Ending::OutOfMemory)
    }

    /// A call of this method was admitted, and the writing side has stopped: its account says so.
    pub fn pass_over(&mut self, id: StreamId, method: usize) -> Decision<J>
        requires next { IsNext id self.old }
        ensures decides { (head : Head) → M.names head.path method → DecidesOn M.known M.names
            (Told (events.Open id head) (Unserved Stopped)) result self.old self.new }
        ensures home { self.new.home ≡ self.old.home }
    {
        self.calls.pass_over::<M>(id, method);
        let goaway = self.count(id);
        Decision {
            goaway,
            ..Decision::nothing()
        }
    }

    /// A stream begins without the head of a call.
    pub fn refuse(&mut self, id: StreamId, fault: HeadFault) -> Decision<J>
        ensures decides { DecidesOn M.known M.names
            (Told (events.BadHead id fault) (unless_ended result.ends Plain)) result self.old
            self.new }
        ensures home { self.new.home ≡ self.old.home }
    {
        match without_head(self.alloc, id, fault) {
            Ok(order) => self.begin(id, order),
            Err(AllocError) => self.end_at(id, Reason::Memory, Ending::OutOfMemory),
        }
    }

    /// A stream begins with this order.
    fn begin(&mut self, id: StreamId, order: Order<J>) -> Decision<J>
        ensures ends { result.ends ≡ None }
        ensures order { result.order ≡ Some order }
        ensures decides { (sent : List SentItems) (told : List Step) (step : Step)
            → Begins M.known M.names (carried_in sent) told step id self.old → ends_at step ≡ None
            → orders_at told step
            ≡ last_stream id (is_draining told) (begun told) ++ order_of order ∷ []
            → Decides M.known M.names (carried_in sent) told step result self.new }
        ensures calls { self.new.calls ≡ self.old.calls }
        ensures home { self.new.home ≡ self.old.home }
    {
        let goaway = self.count(id);
        Decision {
            goaway,
            ..Decision::order(order)
        }
    }

    /// A stream begins for which there is no memory, or no thread: the connection ends.
    pub fn lack(&mut self, id: StreamId) -> Decision<J>
        ensures memory { result.ends ≡ Some ending.OutOfMemory }
        ensures lacking { (head : Head) → DecidesOn M.known M.names
            (Told (events.Open id head) Lacking) result self.old self.new }
        ensures home { self.new.home ≡ self.old.home }
    {
        self.end_at(id, Reason::Memory, Ending::OutOfMemory)
    }

    /// A stream begins, and the connection ends with it, for this reason.
    fn end_at(&mut self, id: StreamId, reason: Reason, ends: Ending) -> Decision<J>
        ensures end { result.ends ≡ Some ends }
        ensures ends { (sent : List SentItems) (told : List Step) (step : Step)
            → Begins M.known M.names (carried_in sent) told step id self.old
            → ends_at step ≡ Some ends
            → orders_at told step ≡ last_stream id (is_draining told) (begun told)
            ++ orders.Goaway (named_with id (is_draining told) (named told)) reason ∷ []
            → Decides M.known M.names (carried_in sent) told step result self.new }
        ensures home { self.new.home ≡ self.old.home }
    {
        let goaway = self.count(id);
        Decision {
            goaway,
            order: Some(self.goaway(reason)),
            to_shut: None,
            ends: Some(ends),
        }
    }

    /// Counts a stream that begins. At the last that a client may begin it answers the stream of a
    /// GOAWAY, unless the server drains.
    fn count(&mut self, id: StreamId) -> Option<StreamId>
        ensures counts { (last : ℕ) (ids : List ℕ) → Counts last ids self.old
            → Counts (named_with id self.old.is_draining last) (id ∷ ids) self.new
            × (goaway_in result ≡ last_stream id self.old.is_draining ids) }
        ensures rest { self.new
            ≡ record self.old { last = self.new.last; begun = self.new.begun } }
    {
        if !self.is_draining {
            self.last = self.last.max(id);
        }
        if self.begun >= MAX_STREAMS as u32 {
            return None;
        }
        self.begun += 1;
        if self.begun < MAX_STREAMS as u32 || self.is_draining {
            return None;
        }
        Some(id)
    }
}

/// Opens the lanes of a call, and enters it in the register.
fn open_lanes<J: Naming>(
    alloc: Global,
    register: &Register<J>,
    front: &mut Front<J>,
    request: Request,
    key: CallKey,
) -> Result<Ends<J>, AllocError>
    requires own { key.id ≡ request.id }
    ensures request { IfOk result (λ ends. ends.job.work.request ≡ request) }
    ensures room { IfOk result (λ ends. room_of (in_name ends.feeder.tx) ≡ 65536) }
    ensures fresh { IfOk result (λ ends. IsFreshWork ends.job.work) }
    ensures one_lane { IfOk result
        (λ ends. in_name ends.feeder.tx ≡ out_name ends.job.work.taker.rx) }
    ensures unfed { IfOk result (λ ends. put_in ends.feeder.tx ≡ []) }
    ensures stands { IfOk result (λ ends. slice_get ends.sending.value.number.seen.log
        ends.sending.value.number.value ≡ Some ends.job.work) }
    ensures ungot { IfOk result
        (λ ends. option_map (λ s. got s.rx) ends.sending.value.sender ≡ Some []) }
{
    let id = request.id;
    let (feeder, taker, giver, sender) = open_call(alloc, id, IN_ROOM, OUT_ROOM)?;
    let work = Work {
        request,
        taker,
        giver,
        key,
    };
    let Some(job) = draw(register, front, work) else {
        return Err(AllocError);
    };
    let ends = ends_of(alloc, feeder, job, sender)?;
    Ok(ends)
}

/// The ends of a call that is in the register: its sender has got nothing.
fn ends_of<J: Naming>(
    alloc: Global,
    feeder: Feeder<InLane>,
    job: Job<J>,
    sender: Sender<OutLane>,
) -> Result<Ends<J>, AllocError>
    requires one_lane { in_name job.work.giver.tx ≡ out_name sender.rx }
    requires ungot { got sender.rx ≡ [] }
    ensures lane { IfOk result (λ ends. in_name ends.feeder.tx ≡ in_name feeder.tx) }
    ensures fed { IfOk result (λ ends. put_in ends.feeder.tx ≡ put_in feeder.tx) }
    ensures work { IfOk result (λ ends. ends.job.work ≡ job.work) }
    ensures stands { IfOk result (λ ends. slice_get ends.sending.value.number.seen.log
        ends.sending.value.number.value ≡ Some ends.job.work) }
    ensures ungot { IfOk result
        (λ ends. option_map (λ s. got s.rx) ends.sending.value.sender ≡ Some []) }
{
    let sending = box_sender(alloc, &job, sender)?;
    Ok(Ends {
        feeder,
        job,
        sending,
    })
}

/// Enters a call in the register, and answers its number.
fn draw<J: Naming>(register: &Register<J>, front: &mut Front<J>, work: Work) -> Option<Job<J>>
    ensures { IfSome result (λ job. job.work ≡ work) }
{
    let number = front.draw(register, &work)?;
    Some(Job { work, number })
}

/// The sending end of a call, in a box.
fn box_sender<J: Naming>(
    alloc: Global,
    job: &Job<J>,
    sender: Sender<OutLane>,
) -> Result<Box<SendingEnd<J>>, AllocError>
    requires one_lane { in_name job.now.work.giver.tx ≡ out_name sender.rx }
    ensures stands { IfOk result (λ sending. slice_get sending.value.number.seen.log
        sending.value.number.value ≡ Some job.now.work) }
    ensures sender { IfOk result (λ sending. sending.value.sender ≡ Some sender) }
{
    let number = job.number.again();
    let sender = Some(sender);
    let sending = Box::new(alloc, SendingEnd { number, sender })?;
    Ok(sending)
}

/// The refusal of a call whose path names no method.
fn unknown<J: Naming>(alloc: Global, id: StreamId) -> Result<Order<J>, AllocError>
    ensures { IfOk result (λ order. order_of order ≡ orders.Refuse id unknown_fields) }
{
    let fields = unknown_method(alloc)?;
    Ok(WriterOrder::Refuse(id, Sequence::from(fields)))
}

/// The answer to a stream that begins without the head of a call.
fn without_head<J: Naming>(
    alloc: Global,
    id: StreamId,
    fault: HeadFault,
) -> Result<Order<J>, AllocError>
    ensures { IfOk result (λ order. order_of order ≡ without_head id (refusal_of fault)) }
{
    if let Some(fields) = fault.refusal(alloc)? {
        return Ok(WriterOrder::Refuse(id, Sequence::from(fields)));
    }
    let code = ErrorCode::ProtocolError;
    let written = true;
    Ok(WriterOrder::Reset { id, code, written })
}
